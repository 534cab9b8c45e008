use caps::{BadHex, Capability, Denied, DeniedWhy, grant, mint, restrict};
use page_codec::{Table, decode_root};
use std::alloc::Global;
use std::test::Fail;

// Each check was computed by another SHA-256, from the key 7, the object, the generation 1 and the rights.

const ALL_RIGHTS: &[u8] = b"616d6f65626100000107f435295ecc52";

const READING: &[u8] = b"616d6f6562610000010115d8e398af1b";

// Block 0 of a new store of two files and 64 blocks, up to where it is zero: the head, the key, and of each file the first
// block, the generation and the secret.
const NEW_STORE: [u8; 48] = [
    0xA5, 0x54, 1, 0, 0, 0, 0, 64, 0, 0, 0, 0, 0, 0, 0, 7, 0, 0, 0, 1, 0, 0, 0, 1, 0xFF, 0xDA,
    0x0D, 0x45, 0xB7, 0x60, 0xBE, 0xD5, 0, 0, 0, 2, 0, 0, 0, 1, 0x32, 0x41, 0x3D, 0x93, 0xA2, 0x10,
    0xB9, 0xD9,
];

// The head of block 0 of a store of 65,536 blocks with a table of several blocks.
const LARGE_STORE: [u8; 8] = [0xA5, 0x54, 2, 0, 0, 1, 0, 0];

fn table_of(alloc: Global, head: &[u8]) -> Result<Table, Fail> {
    let mut block = [0; 1024];
    for (place, byte) in block.iter_mut().zip(head) {
        *place = *byte;
    }
    let root = decode_root(&block)?;
    let table = Table::of_root(alloc, &root)?;
    Ok(table)
}

/// The large table, whose last object has the entry of the first file of the other table.
fn large_table(alloc: Global) -> Result<Table, Fail> {
    let mut table = table_of(alloc, &LARGE_STORE)?;
    let small = table_of(alloc, &NEW_STORE)?;
    let first = small.entries().first().copied().ok_or("no entry")?;
    if table.format() == 2 {
        table.set_entry(4032, first);
    }
    Ok(table)
}

const NO_OBJECT: Denied = Denied {
    why: DeniedWhy::NoObject,
};

const CHECK: Denied = Denied {
    why: DeniedWhy::Check,
};

const RIGHTS: Denied = Denied {
    why: DeniedWhy::Rights,
};

/// A capability, a need, and what it grants.
type Grant = (&'static [u8], u8, Result<u32, Denied>);

const GRANTS: [Grant; 13] = [
    (ALL_RIGHTS, 7, Ok(1)),
    (b"616d6f65626100000207885931e277e0", 7, Ok(2)),
    (READING, 1, Ok(1)),
    (READING, 0, Ok(1)),
    (READING, 2, Err(RIGHTS)),
    (READING, 3, Err(RIGHTS)),
    // another last digit; a right more, with the check of fewer; an object's check on another
    (b"616d6f6562610000010115d8e398af1c", 2, Err(CHECK)),
    (b"616d6f6562610000010315d8e398af1b", 8, Err(CHECK)),
    (b"616d6f6562610000020115d8e398af1b", 1, Err(CHECK)),
    // another port; no object 0; object 3 is not live; a number past the table, with a check that fits no object
    (b"616d6f6562620000010115d8e398af1c", 2, Err(NO_OBJECT)),
    (b"616d6f6562610000000115d8e398af1c", 2, Err(NO_OBJECT)),
    (b"616d6f6562610000030115d8e398af1c", 2, Err(NO_OBJECT)),
    (b"616d6f65626100003d07cb8f3b223a81", 1, Err(NO_OBJECT)),
];

#[test]
fn grants_in_order(rt: HostRuntime) -> Result<(), Fail> {
    let table = table_of(rt.alloc(), &NEW_STORE)?;
    for (text, need, answer) in GRANTS.iter() {
        let cap = Capability::of_hex(text)?;
        assert_eq!(rt; grant(&table, &cap, *need), *answer);
    }
    Ok(())
}

/// An object, rights, and the capability of them.
const MINTS: [(u32, u8, Option<&[u8]>); 5] = [
    (1, 7, Some(ALL_RIGHTS)),
    (1, 1, Some(READING)),
    (0, 7, None),
    (3, 7, None),
    (61, 7, None),
];

#[test]
fn mints_what_is_live(rt: HostRuntime) -> Result<(), Fail> {
    let table = table_of(rt.alloc(), &NEW_STORE)?;
    for (object, rights, text) in MINTS.iter() {
        let cap = mint(&table, *object, *rights);
        match text {
            Some(text) => assert_eq!(rt; cap, Some(Capability::of_hex(text)?)),
            None => assert_eq!(rt; cap, None),
        }
    }
    let last = mint(&large_table(rt.alloc())?, 4032, 255);
    let text = b"616d6f656261000fc0ffecec231d7010";
    assert_eq!(rt; last, Some(Capability::of_hex(text)?));
    Ok(())
}

/// A capability, a mask, and the capability that is left, or why there is none.
type Restrict = (&'static [u8], u8, Result<&'static [u8], Denied>);

const RESTRICTS: [Restrict; 3] = [
    (ALL_RIGHTS, 9, Ok(READING)),
    (b"616d6f6562610000010115d8e398af1c", 0, Err(CHECK)),
    (b"616d6f6562610000030115d8e398af1c", 0, Err(NO_OBJECT)),
];

#[test]
fn restricts(rt: HostRuntime) -> Result<(), Fail> {
    let table = table_of(rt.alloc(), &NEW_STORE)?;
    for (text, mask, answer) in RESTRICTS.iter() {
        let less = restrict(&table, &Capability::of_hex(text)?, *mask);
        match answer {
            Ok(text) => assert_eq!(rt; less.ok(), Capability::of_hex(text).ok()),
            Err(denied) => assert_eq!(rt; less, Err(*denied)),
        }
    }
    Ok(())
}

/// A text that is no capability, and where it is wrong.
const BAD: [(&[u8], usize); 5] = [
    (b"", 0),
    (b"616d6f6562610000010115d8e398af1", 31),
    (b"616d6f6562610000010115d8e398af1b0", 33),
    (b"616d6f65626100000107f435295ecg5g", 29),
    (b"x16d6f6562610000010115d8e398af1b", 0),
];

#[test]
fn reads_and_writes_text(rt: HostRuntime) -> Result<(), Fail> {
    let cap = Capability::of_hex(b"616D6F6562610000010115D8e398af1b")?;
    let mut text = [0; 32];
    cap.to_hex(&mut text);
    assert_eq!(rt; text.as_slice(), READING);
    assert_eq!(rt; Capability::of_bytes(&cap.to_bytes()), cap);
    assert_eq!(rt; cap.port(), *b"amoeba");
    assert_eq!(rt; (cap.object(), cap.rights()), (1, 1));
    assert_eq!(rt; cap.check(), [0x15, 0xD8, 0xE3, 0x98, 0xAF, 0x1B]);
    for (text, at) in BAD.iter() {
        assert_eq!(rt; Capability::of_hex(text).err(), Some(BadHex { at: *at }));
    }
    Ok(())
}
