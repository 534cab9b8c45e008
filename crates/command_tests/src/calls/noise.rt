//! Halves of 65,536 blocks that hold any bytes: the answer has a name, and a half with a store stands in for the other one.
use super::*;

/// How many bytes a half has.
const LEN: usize = 1024 * 65536;

/// Pseudo-random bytes, eight more than a half has: the states of a linear congruential generator.
fn noise(alloc: Global) -> Result<Vec<u8>, AllocError> {
    let mut bytes = Vec::with_capacity(alloc, LEN + 8)?;
    let mut state = 7u64;
    for _ in 0..LEN / 8 + 1 {
        state = state
            .wrapping_mul(6364136223846793005)
            .wrapping_add(1442695040888963407);
        bytes.extend_from_slice(&state.to_be_bytes())?;
    }
    Ok(bytes)
}

/// Halves with these bytes, the first eight of which half B leaves out, and with words over each half.
fn noisy(alloc: Global, bytes: &[u8], a: &str, b: &str) -> Result<MemDrives, Fail> {
    let all_but_the_last = bytes.get(..LEN).ok_or("as many as a half has")?;
    let all_but_the_first = bytes.get(8..).ok_or("as many as a half has")?;
    of_two(
        alloc,
        patched(alloc, all_but_the_last, a)?,
        patched(alloc, all_but_the_first, b)?,
    )
}

/// The table of a store of two files, 65,536 blocks and the key 7, up to its last live entry.
const TABLE: &str =
    "0.0:a55401000001000000000000000000070000000100000001ffda0d45b760bed5000000020000000132413d93a210b9d9";

/// The whole new store.
const STORE: &str = "0.0:00*3072 \
    0.0:a55401000001000000000000000000070000000100000001ffda0d45b760bed5000000020000000132413d93a210b9d9 \
    1.0:a556 1.73:010000000000000001 2.0:a556 2.73:020000000000000001";

/// What is put over each half, the status, and what is printed.
const CASES: [(&str, &str, u8, &str); 4] = [
    ("", "", 4, "bad store: block 0 closed;"),
    ("", TABLE, 4, "bad store: block 0 reference;"),
    (STORE, "", 0, "files 2 versions 2 blocks 2 free 65533;"),
    ("", STORE, 0, "files 2 versions 2 blocks 2 free 65533;"),
];

#[test]
fn halves_of_any_bytes_have_an_answer(rt: HostRuntime) -> Result<(), Fail> {
    let alloc = rt.alloc();
    let bytes = noise(alloc)?;
    for (row, (a, b, status, printed)) in CASES.iter().enumerate() {
        let (ended, out) = called(alloc, CHECK, noisy(alloc, &bytes, *a, *b)?)?;
        expect(&rt, row, (ended.status.code(), &out), (*status, *printed))?;
    }
    Ok(())
}
