//! Which blocks are refused, and for which cause first.
use super::*;
use std::test::*;

#[derive(Clone, Copy, Debug)]
enum Decoder {
    Page,
    Version,
    Root,
    /// Of part 1.
    Part,
}

fn cause<T: Drop>(decoded: Result<T, BadPage>) -> Option<Why> {
    match decoded {
        Ok(_) => None,
        Err(bad) => Some(bad.why),
    }
}

fn why(decoder: Decoder, block: &Block) -> Option<Why> {
    match decoder {
        Decoder::Page => cause(decode_page(block)),
        Decoder::Version => cause(decode_version(block)),
        Decoder::Root => cause(decode_root(block)),
        Decoder::Part => cause(decode_part(block, 1)),
    }
}

/// A block that has every cause, and mends from left to right: each shows the next cause, and the last none.
type Mends = (Decoder, &'static str, &'static [(Why, &'static str)]);

const MENDS: [Mends; 5] = [
    (
        Decoder::Page,
        "2:08 4:d0000000 68:0321 1023:01",
        &[
            (Why::Closed, "0:a5"),
            (Why::Kind, "1:50"),
            (Why::Level, "2:07"),
            (Why::Code, "4:c0000000"),
            (Why::Reference, "4:00000000"),
            (Why::Length, "68:0320"),
            (Why::Zero, "1023:00"),
        ],
    ),
    (
        Decoder::Version,
        "2:01 4:d0000000 68:0321 90:11 1023:01",
        &[
            (Why::Closed, "0:a5"),
            (Why::Kind, "1:56"),
            (Why::Level, "2:00"),
            (Why::Code, "4:c0000000"),
            (Why::Reference, "4:c0000001"),
            (Why::Length, "68:0320"),
            (Why::Object, "70:00000001"),
            (Why::Serial, "74:0000000000000001"),
            (Why::Member, "90:10 91:0000000100000001*16"),
            (Why::Zero, "1023:00"),
        ],
    ),
    (
        Decoder::Root,
        "2:03 3:01 4:00010001 16:ffffffff 32:00000001 56:01",
        &[
            (Why::Closed, "0:a5"),
            (Why::Kind, "1:54"),
            (Why::Format, "2:01"),
            (Why::Blocks, "4:00000040"),
            (Why::Reference, "16:0000003f"),
            (Why::Generation, "20:00000001 36:00000001"),
            (Why::Secret, "56:00"),
            (Why::Zero, "3:00"),
        ],
    ),
    (
        Decoder::Root,
        "2:03 3:01 4:00000001 16:ffffffff",
        &[
            (Why::Closed, "0:a5"),
            (Why::Kind, "1:54"),
            (Why::Format, "2:02"),
            (Why::Blocks, "4:00000002"),
            (Why::Reference, "16:00000001"),
            (Why::Zero, "3:00"),
        ],
    ),
    (
        Decoder::Part,
        "2:02 3:01 16:10000000 40:01",
        &[
            (Why::Closed, "0:a5"),
            (Why::Kind, "1:45"),
            (Why::Index, "2:01"),
            (Why::Reference, "16:0fffffff"),
            (Why::Generation, "16:00000000"),
            (Why::Secret, "40:00"),
            (Why::Zero, "3:00"),
            (Why::Empty, "20:00000001"),
        ],
    ),
];

#[test]
fn causes_come_in_their_order(rt: HostRuntime) {
    for (decoder, text, mends) in MENDS.iter() {
        let mut block = block_of(&rt, text);
        for (cause, mend) in mends.iter() {
            assert_eq!(rt; why(*decoder, &block), Some(*cause), "{decoder:?} {mend}");
            assert!(rt; put_text(&mut block, mend).is_some());
        }
        assert_eq!(rt; why(*decoder, &block), None, "{decoder:?}");
    }
}

/// Changes to a block in the grammar, and for each the first cause that the block then has.
type Changes = (
    Decoder,
    &'static str,
    &'static [(&'static str, Option<Why>)],
);

const CHANGES: [Changes; 5] = [
    (
        Decoder::Page,
        "0:a5500100",
        &[
            ("0:00", Some(Why::Closed)),
            ("0:a5*1024", Some(Why::Kind)),
            ("1:56", Some(Why::Kind)),
            ("2:00", Some(Why::Level)),
            ("2:08", Some(Why::Level)),
            ("2:ff", Some(Why::Level)),
            ("3:01", Some(Why::Code)),
            ("4:d0000001", Some(Why::Code)),
            ("32:e0000001", Some(Why::Code)),
            ("64:f0000001", Some(Why::Code)),
            ("4:10000000", Some(Why::Reference)),
            ("64:c0000000", Some(Why::Reference)),
            ("2:07 64:00000001", Some(Why::Reference)),
            ("2:06 64:00000001", None),
            ("68:0321", Some(Why::Length)),
            ("68:ffff", Some(Why::Length)),
            ("70:01", Some(Why::Zero)),
            ("218:01", Some(Why::Zero)),
            ("219:01", Some(Why::Zero)),
            ("1018:01", Some(Why::Zero)),
            ("68:0320 1018:01", None),
            ("1019:ffff", None),
            ("1021:01", Some(Why::Zero)),
            ("1023:01", Some(Why::Zero)),
        ],
    ),
    (
        Decoder::Version,
        "0:a5560000 70:000000010000000000000001",
        &[
            ("0:00", Some(Why::Closed)),
            ("1:50", Some(Why::Kind)),
            ("2:01", Some(Why::Level)),
            ("3:0c", None),
            ("3:0d", Some(Why::Code)),
            ("3:0e", Some(Why::Code)),
            ("3:0f", Some(Why::Code)),
            ("4:d0", Some(Why::Code)),
            ("64:f0000001", Some(Why::Code)),
            ("4:00000001", None),
            ("64:10000000", Some(Why::Reference)),
            ("82:10000000", Some(Why::Reference)),
            ("86:10000000", Some(Why::Reference)),
            ("68:0321", Some(Why::Length)),
            ("70:00000000", Some(Why::Object)),
            ("74:0000000000000000", Some(Why::Serial)),
            ("74:ffffffffffffffff", None),
            ("90:11 91:0000000100000001*16", Some(Why::Member)),
            ("90:01 91:0000000000000001", Some(Why::Member)),
            ("90:01 91:0000000100000000", Some(Why::Member)),
            ("90:01 91:0000000110000000", Some(Why::Member)),
            ("90:10 91:0000000100000001*15", Some(Why::Member)),
            ("90:01 91:0000000100000001*2", Some(Why::Zero)),
            ("91:01", Some(Why::Zero)),
            ("218:01", Some(Why::Zero)),
            ("68:0001 220:01", Some(Why::Zero)),
            ("1018:01", Some(Why::Zero)),
            ("1019:ffff", None),
            ("1021:01", Some(Why::Zero)),
            ("1023:01", Some(Why::Zero)),
        ],
    ),
    (
        Decoder::Root,
        "0:a554010000000040",
        &[
            ("0:00", Some(Why::Closed)),
            ("0:a5*1024", Some(Why::Kind)),
            ("1:45", Some(Why::Kind)),
            ("2:00", Some(Why::Format)),
            ("2:03", Some(Why::Format)),
            ("4:00000001", Some(Why::Blocks)),
            ("4:00010001", Some(Why::Blocks)),
            ("16:0000004000000001", Some(Why::Reference)),
            ("960:0000004000000001", Some(Why::Reference)),
            ("960:0000003f00000001", None),
            ("16:00000001", Some(Why::Generation)),
            ("960:0000003f", Some(Why::Generation)),
            ("24:01", Some(Why::Secret)),
            ("975:01", Some(Why::Secret)),
            ("964:ffffffff", None),
            ("3:01", Some(Why::Zero)),
            ("976:01", Some(Why::Zero)),
            ("1023:01", Some(Why::Zero)),
        ],
    ),
    (
        Decoder::Root,
        "0:a554020000000040",
        &[
            ("16:00000040", Some(Why::Reference)),
            ("268:00000040", Some(Why::Reference)),
            ("268:0000003f", None),
            ("3:01", Some(Why::Zero)),
            ("272:01", Some(Why::Zero)),
            ("1023:01", Some(Why::Zero)),
        ],
    ),
    (
        Decoder::Part,
        "0:a5450100 20:00000001",
        &[
            ("0:00", Some(Why::Closed)),
            ("1:54", Some(Why::Kind)),
            ("2:00", Some(Why::Index)),
            ("2:02", Some(Why::Index)),
            ("16:10000000", Some(Why::Reference)),
            ("1008:1000000000000001", Some(Why::Reference)),
            ("1008:0fffffff00000001", None),
            ("1008:00000001", Some(Why::Generation)),
            ("24:01", Some(Why::Secret)),
            ("1023:01", Some(Why::Secret)),
            ("3:01", Some(Why::Zero)),
            ("15:01", Some(Why::Zero)),
            ("20:00000000", Some(Why::Empty)),
        ],
    ),
];

#[test]
fn each_way_to_be_refused(rt: HostRuntime) {
    for (decoder, text, changes) in CHANGES.iter() {
        for (change, cause) in changes.iter() {
            let mut block = block_of(&rt, text);
            assert!(rt; put_text(&mut block, change).is_some());
            assert_eq!(rt; why(*decoder, &block), *cause, "{decoder:?} {change}");
        }
    }
}
