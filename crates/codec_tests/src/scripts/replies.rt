//! The text of each answer.
use super::*;

fn text_of(alloc: Global, reply: &LineReply) -> Result<Vec<u8>, Fail> {
    let mut out = Vec::new(alloc);
    print_reply(alloc, reply, &mut out)?;
    Ok(out)
}

#[test]
fn prints_each_answer(rt: HostRuntime) -> Result<(), Fail> {
    let mut serials = Serials::none();
    serials.push(3);
    serials.push(18_446_744_073_709_551_615);
    let cap = Capability::of_bytes(b"amoeba\x00\x00\x3D\x07\x12\xA4\xFF\x0F\xF0\xFF");
    let (object, first, blocks) = (61, 2, 9);
    let cases: [(LineReply, &[u8]); 12] = [
        (LineReply::Base(serials), b"base 3 18446744073709551615"),
        (LineReply::Committed(Serials::none()), b"committed"),
        (
            LineReply::Stepped(Reply::Bytes(PageData::of(&[0xAB, 1]))),
            b"data ab01",
        ),
        (
            LineReply::Stepped(Reply::Bytes(PageData::empty())),
            b"data -",
        ),
        (LineReply::Stepped(Reply::Slots(0x8005)), b"slots 0 2 15"),
        (LineReply::Stepped(Reply::Slots(0)), b"slots -"),
        (LineReply::Picked, b"ok"),
        (LineReply::Created { object, cap: None }, b"created 61"),
        (
            LineReply::Created {
                object,
                cap: Some(cap),
            },
            b"created 61 616d6f65626100003d0712a4ff0ff0ff",
        ),
        (LineReply::Destroyed { blocks }, b"destroyed 9"),
        (LineReply::Pruned { first, blocks }, b"pruned 2 9"),
        (LineReply::Cap(cap), b"cap 616d6f65626100003d0712a4ff0ff0ff"),
    ];
    for (reply, text) in cases {
        assert_eq!(rt; text_of(rt.alloc(), &reply)?.as_slice(), text);
    }
    Ok(())
}

#[test]
fn prints_each_refusal(rt: HostRuntime) -> Result<(), Fail> {
    let by = ClientNo::of(16)?;
    let slot = Slot::of(15)?;
    let path = Path::root().child(Slot::first())?.child(slot)?;
    let (serial, needed, free) = (3, 2, 0);
    let data = LineRefusal::Conflict {
        serial,
        path: Path::root(),
        kind: Kind::Data,
    };
    let deeper = LineRefusal::Conflict {
        serial,
        path,
        kind: Kind::Slot(slot),
    };
    let check = LineRefusal::Denied(Denied {
        why: DeniedWhy::Check,
    });
    let cases: [(LineRefusal, &[u8]); 9] = [
        (LineRefusal::Idle, b"idle"),
        (check, b"denied check"),
        (LineRefusal::DeniedTwice, b"denied twice"),
        (LineRefusal::NoSuchPick, b"absent"),
        (LineRefusal::Locked { by }, b"locked 16"),
        (data, b"conflict 3 / data"),
        (deeper, b"conflict 3 /0/15 slot 15"),
        (LineRefusal::NoSpace { needed, free }, b"nospace 2 0"),
        (LineRefusal::Pinned { by }, b"pinned 16"),
    ];
    for (refusal, text) in cases {
        assert_eq!(rt;
            text_of(rt.alloc(), &LineReply::Refused(refusal))?.as_slice(),
            text
        );
    }
    Ok(())
}
