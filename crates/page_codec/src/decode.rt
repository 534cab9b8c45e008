//! Pages and version pages from bytes.
ghost use Rattle.std.specs.Prelude.{◌≡◌, ℕ, ◌+◌, ◌*◌, ◌^◌, ◌<◌, ◌≤◌, ◌||◌, length, map, false, slice_index, IfOk, Ok};
ghost use Rattle.std.specs.List.{list_any};
ghost use Rattle.std.specs.Int.{w32};
ghost use Rattle.page_codec.specs.Numbers.{number_at, pieces};
ghost use Rattle.page_codec.specs.Values.{PageValue, MemberValue, VersionValue};
ghost use Rattle.page_codec.specs.Bounds.{IsPage, IsVersion};
ghost use Rattle.page_codec.specs.Spelling.{page_bytes, version_bytes};
ghost use Rattle.page_codec.specs.Reading.{slots, member_value, members_value, frame_value, version_value};
ghost use Rattle.page_codec.specs.Causes.{Reads, first_cause, page_causes, version_causes, page_of, version_of, is_bad_member, has_bad_members, has_other_past};
ghost use Rattle.page_codec.specs.Facts.{FrameFacts, PageFacts, VersionFacts};

use crate::Block;
use crate::layout::{
    BASE_AT, COMMIT_AT, COUNT_AT, DATA_AT, LENGTH_AT, MASK_AT, MEMBERS_AT, OBJECT_AT, PAGE,
    REST_AT, SERIAL_AT, VERSION,
};
use crate::member::Member;
use crate::members::Members;
use crate::page::Page;
use crate::read::{has_other, u16_at, u32_at, u64_at};
use crate::slots::{
    block_or_none, has_bad_code, has_bad_reference, has_dangling, references_of, slots_of,
};
use crate::version::VersionPage;
use crate::why::{BadPage, Why};
use afs_base::{
    BLOCK_BYTES, BLOCK_NUMBERS, BlockNo, MAX_DATA, MAX_DEPTH, MAX_MEMBERS, OPEN_GATE, PageData,
    SLOTS,
};
use ref_flags::Flags;

/// The first cause whose test is true. The tests of this crate are joined by `|` and `&`: a list of them is then one value,
/// with no branch in it.
pub fn first_cause(causes: &[(bool, Why)]) -> Option<Why>
    ensures { result ≡ first_cause causes.now }
{
    for (applies, why) in causes {
        if *applies {
            return Some(*why);
        }
    }
    None
}

/// Whether a byte behind the data, or one of the last three, is not 0.
fn has_other_past(block: &Block) -> bool
    ensures { result ≡ has_other_past block.now }
{
    let len = u16_at(block, LENGTH_AT) as usize;
    has_other(block, DATA_AT + len, MASK_AT) | has_other(block, REST_AT, BLOCK_BYTES)
}

/// Whether the member in eight bytes has no object, or a block that is none.
fn is_bad_member(bytes: &[u8], at: usize) -> bool
    requires { at + 8 ≤ length bytes.now }
    ensures { result ≡ is_bad_member (record {
      object = number_at w32 at bytes.now;
      block = number_at w32 (at + 4) bytes.now;
    }) }
{
    let block = u32_at(bytes, at + 4);
    (u32_at(bytes, at) == 0) | ((block == 0) | (block >= BLOCK_NUMBERS))
}

/// Whether one of so many members is bad.
fn is_any_bad(bytes: &[u8], count: usize) -> bool
    requires { 8 * count ≤ length bytes.now }
    ensures { result ≡ list_any is_bad_member (map member_value (pieces 8 count bytes.now)) }
{
    let mut bad = false;
    for i in 0..count {
        bad = bad | is_bad_member(bytes, 8 * i);
    }
    bad
}

/// Whether there are more than sixteen members, or a bad one.
#[tactic(auto, unfolding(crate::specs::Reading::members_value))]
fn has_bad_members(block: &Block) -> bool
    ensures { result ≡ has_bad_members block.now }
{
    let count = block[COUNT_AT] as usize;
    if count > MAX_MEMBERS {
        return true;
    }
    let bytes: &[u8] = block;
    let (_, members) = bytes.split_at(MEMBERS_AT);
    is_any_bad(members, count)
}

/// The first cause for which the block is no page below `/`.
#[tactic(auto, unfolding(crate::specs::Causes::page_causes))]
fn page_cause(block: &Block, numbers: &[u32; SLOTS]) -> Option<Why>
    requires { numbers.now ≡ slots block.now }
    ensures { result ≡ first_cause (page_causes block.now) }
{
    first_cause(&[
        (block[0] != OPEN_GATE, Why::Closed),
        (block[1] != PAGE, Why::Kind),
        (
            (block[2] == 0) | (usize::from(block[2]) > MAX_DEPTH),
            Why::Level,
        ),
        ((block[3] != 0) | has_bad_code(numbers), Why::Code),
        (has_bad_reference(block[2], numbers), Why::Reference),
        (u16_at(block, LENGTH_AT) as usize > MAX_DATA, Why::Length),
        (
            has_other(block, OBJECT_AT, DATA_AT) | has_other_past(block),
            Why::Zero,
        ),
    ])
}

/// The first cause for which the block is no version page.
#[tactic(auto, unfolding(crate::specs::Causes::version_causes))]
fn version_cause(block: &Block, numbers: &[u32; SLOTS]) -> Option<Why>
    requires { numbers.now ≡ slots block.now }
    ensures { result ≡ first_cause (version_causes block.now) }
{
    let commit = u32_at(block, COMMIT_AT);
    let base = u32_at(block, BASE_AT);
    let members_end = MEMBERS_AT + 8 * block[COUNT_AT] as usize;
    first_cause(&[
        (block[0] != OPEN_GATE, Why::Closed),
        (block[1] != VERSION, Why::Kind),
        (block[2] != 0, Why::Level),
        ((block[3] > 12) | has_bad_code(numbers), Why::Code),
        (
            has_dangling(numbers) | ((commit >= BLOCK_NUMBERS) | (base >= BLOCK_NUMBERS)),
            Why::Reference,
        ),
        (u16_at(block, LENGTH_AT) as usize > MAX_DATA, Why::Length),
        (u32_at(block, OBJECT_AT) == 0, Why::Object),
        (u64_at(block, SERIAL_AT) == 0, Why::Serial),
        (has_bad_members(block), Why::Member),
        (
            has_other(block, members_end, DATA_AT) | has_other_past(block),
            Why::Zero,
        ),
    ])
}

/// The page in a block of either kind.
#[tactic(auto, unfolding(crate::specs::Reading::frame_value))]
fn frame_at(block: &Block, numbers: &[u32; SLOTS]) -> Page
    requires slots { numbers.now ≡ slots block.now }
    requires facts { FrameFacts block.now }
    ensures { result ≡ frame_value block.now }
{
    let len = u16_at(block, LENGTH_AT) as usize;
    let bytes: &[u8] = block;
    let (_, rest) = bytes.split_at(DATA_AT);
    let (bytes, _) = rest.split_at(len);
    Page {
        level: block[2],
        modified: u16_at(block, MASK_AT),
        refs: references_of(numbers),
        bytes: PageData::of(bytes),
    }
}

/// The member in eight bytes, which is not bad.
fn member_at(bytes: &[u8], at: usize) -> Member
    requires room { at + 8 ≤ length bytes.now }
    requires good { is_bad_member (record {
      object = number_at w32 at bytes.now;
      block = number_at w32 (at + 4) bytes.now;
    }) ≡ false }
    ensures { result ≡ record {
      object = number_at w32 at bytes.now;
      block = number_at w32 (at + 4) bytes.now;
    } }
{
    Member {
        object: u32_at(bytes, at),
        block: BlockNo::at(u32_at(bytes, at + 4)),
    }
}

/// So many members, none of which is bad.
fn members_from(bytes: &[u8], count: usize) -> Members
    requires room { 8 * count ≤ length bytes.now }
    requires few { count ≤ MAX_MEMBERS }
    requires good { list_any is_bad_member (map member_value (pieces 8 count bytes.now)) ≡ false }
    ensures { result ≡ map member_value (pieces 8 count bytes.now) }
{
    let mut members = Members::none();
    for i in 0..count {
        members.push(member_at(bytes, 8 * i));
    }
    members
}

/// The version page in a block.
#[tactic(auto, unfolding(crate::specs::Reading::version_value, crate::specs::Reading::members_value))]
fn version_at(block: &Block, numbers: &[u32; SLOTS]) -> VersionPage
    requires slots { numbers.now ≡ slots block.now }
    requires facts { VersionFacts block.now }
    ensures { result ≡ version_value block.now }
{
    let root = match Flags::of_code(block[3]) {
        Ok(root) => root,
        Err(_) => unreachable!(),
    };
    let bytes: &[u8] = block;
    let (_, members) = bytes.split_at(MEMBERS_AT);
    VersionPage {
        root,
        page: frame_at(block, numbers),
        object: u32_at(block, OBJECT_AT),
        serial: u64_at(block, SERIAL_AT),
        commit: block_or_none(u32_at(block, COMMIT_AT)),
        base: block_or_none(u32_at(block, BASE_AT)),
        members: members_from(members, block[COUNT_AT] as usize),
    }
}

/// The page below `/` in a block, or the first cause.
fn read_page(block: &Block) -> Result<Page, BadPage>
    ensures { Reads result (page_of block.now) }
{
    let numbers = slots_of(block);
    match page_cause(block, &numbers) {
        Some(why) => Err(BadPage { why }),
        None => Ok(frame_at(block, &numbers)),
    }
}

/// The page below `/` in a block; an error, with the first cause, exactly where the block is the spelling of none.
pub fn decode_page(block: &Block) -> Result<Page, BadPage>
    // What is read is spelled so.
    ensures found { IfOk result (λ p. IsPage p × (block.now ≡ page_bytes p)) }
    // What is spelled so is read.
    ensures only { (p : PageValue) → IsPage p → block.now ≡ page_bytes p → Reads result (Ok p) }
    // Which cause it is.
    ensures exact { Reads result (page_of block.now) }
{
    read_page(block)
}

/// The version page in a block, or the first cause.
fn read_version(block: &Block) -> Result<VersionPage, BadPage>
    ensures { Reads result (version_of block.now) }
{
    let numbers = slots_of(block);
    match version_cause(block, &numbers) {
        Some(why) => Err(BadPage { why }),
        None => Ok(version_at(block, &numbers)),
    }
}

/// The version page in a block; an error, with the first cause, exactly where the block is the spelling of none.
pub fn decode_version(block: &Block) -> Result<VersionPage, BadPage>
    // What is read is spelled so.
    ensures found { IfOk result (λ v. IsVersion v × (block.now ≡ version_bytes v)) }
    // What is spelled so is read.
    ensures only { (v : VersionValue) → IsVersion v → block.now ≡ version_bytes v
        → Reads result (Ok v) }
    // Which cause it is.
    ensures exact { Reads result (version_of block.now) }
{
    read_version(block)
}
