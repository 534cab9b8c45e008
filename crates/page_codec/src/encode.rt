//! Pages and version pages as bytes.
ghost use Rattle.std.specs.Prelude.{◌≡◌, ℕ, ◌+◌, ◌-◌, ◌*◌, ◌^◌, ◌<◌, ◌≤◌, ◌∷◌, [], ◌++◌, take, length, IfSome};
ghost use Rattle.std.specs.List.{flat_map, AllByRecursion};
ghost use Rattle.std.specs.Int.{w16, w32};
ghost use Rattle.page_codec.specs.Numbers.{IsBytes, or_zero, big_endian, zeros};
ghost use Rattle.page_codec.specs.Bounds.{IsReference, IsMember, IsSoundPage, IsFrame, IsPage, IsVersion};
ghost use Rattle.page_codec.specs.Spelling.{reference_bytes, member_bytes, data_bytes, head_bytes, version_middle, page_bytes, version_bytes};

use crate::Block;
use crate::layout::{DATA_AT, OBJECT_AT, PAGE, VERSION};
use crate::member::Member;
use crate::page::Page;
use crate::put::{put, put_u16, put_u32, put_u64, put_zeros};
use crate::reference::Reference;
use crate::version::VersionPage;
use afs_base::{BLOCK_NUMBERS, BlockNo, MAX_DATA, MAX_MEMBERS, OPEN_GATE, SLOTS};

/// A block number as it is written: 0 where there is none.
pub fn number_of(block: Option<BlockNo>) -> u32
    ensures value { result ≡ or_zero block }
    ensures below { result < BLOCK_NUMBERS }
    ensures named { IfSome block (λ n. n < BLOCK_NUMBERS) }
{
    match block {
        Some(block) => block.get(),
        None => 0,
    }
}

/// Writes a reference, and answers the place behind it.
fn put_reference(block: &mut Block, at: usize, reference: Reference) -> usize
    requires { at + 4 ≤ 1024 }
    ensures next { result ≡ at + 4 }
    ensures front { take result block.new ≡ take at block.old ++ reference_bytes reference }
    ensures spelled { IsReference reference }
{
    let code = reference.flags.code();
    let number = number_of(reference.block);
    put_u32(block, at, u32::from(code) * BLOCK_NUMBERS + number)
}

/// Writes the references one behind the other, and answers the place behind them.
fn put_references(block: &mut Block, at: usize, references: &[Reference]) -> usize
    requires { at + 4 * length references.now ≤ 1024 }
    ensures next { result ≡ at + 4 * length references.now }
    ensures front { take result block.new
        ≡ take at block.old ++ flat_map reference_bytes references.now }
    ensures spelled { AllByRecursion IsReference references.now }
{
    let mut place = at;
    for reference in references {
        place = put_reference(block, place, *reference);
    }
    place
}

/// Writes a member, and answers the place behind it.
fn put_member(block: &mut Block, at: usize, member: Member) -> usize
    requires { at + 8 ≤ 1024 }
    ensures next { result ≡ at + 8 }
    ensures front { take result block.new ≡ take at block.old ++ member_bytes member }
    ensures spelled { IsMember member }
{
    let next = put_u32(block, at, member.object);
    put_u32(block, next, member.block.get())
}

/// Writes the members one behind the other, and answers the place behind them.
fn put_members(block: &mut Block, at: usize, members: &[Member]) -> usize
    requires { at + 8 * length members.now ≤ 1024 }
    ensures next { result ≡ at + 8 * length members.now }
    ensures front { take result block.new ≡ take at block.old ++ flat_map member_bytes members.now }
    ensures spelled { AllByRecursion IsMember members.now }
{
    let mut place = at;
    for member in members {
        place = put_member(block, place, *member);
    }
    place
}

/// Writes the data in 800 bytes, with zeros behind it, and answers the place behind them.
fn put_data(block: &mut Block, at: usize, bytes: &[u8]) -> usize
    requires room { at + MAX_DATA ≤ 1024 }
    requires short { length bytes.now ≤ MAX_DATA }
    ensures next { result ≡ at + MAX_DATA }
    ensures front { take result block.new ≡ take at block.old ++ data_bytes bytes.now }
    ensures spelled { IsBytes bytes.now }
{
    let next = put(block, at, bytes);
    put_zeros(block, next, MAX_DATA - bytes.len())
}

/// Writes what both kinds of page begin with: the head, the slots and the length of the data.
fn put_front(block: &mut Block, kind: u8, code: u8, page: &Page) -> usize
    ensures next { result ≡ OBJECT_AT }
    ensures front { take result block.new
        ≡ head_bytes kind page.now.level code ++ flat_map reference_bytes page.now.refs ++
        big_endian w16 (length page.now.bytes) }
    ensures sound { IsSoundPage page.now }
    ensures sixteen { length page.now.refs ≡ SLOTS }
    ensures each { AllByRecursion IsReference page.now.refs }
    ensures fits { length page.now.bytes ≤ MAX_DATA }
{
    let bytes = page.bytes.bytes();
    let next = put(block, 0, &[OPEN_GATE, kind, page.level, code]);
    let next = put_references(block, next, &page.refs);
    put_u16(block, next, bytes.len() as u16)
}

/// Writes what both kinds of page end with: the data, the mask of modified slots and three zeros.
fn put_back(block: &mut Block, at: usize, page: &Page) -> usize
    requires { at + 805 ≤ 1024 }
    ensures next { result ≡ at + 805 }
    ensures front { take result block.new
        ≡ take at block.old ++ data_bytes page.now.bytes ++ big_endian w16 page.now.modified ++
        zeros 3 }
    ensures mask { page.now.modified < 2 ^ 16 }
    ensures spelled { IsBytes page.now.bytes }
{
    let next = put_data(block, at, page.bytes.bytes());
    let next = put_u16(block, next, page.modified);
    put_zeros(block, next, 3)
}

/// Writes a version page's own bytes, and answers the place behind them.
#[tactic(auto, unfolding(crate::specs::Spelling::version_middle))]
fn put_middle(block: &mut Block, at: usize, version: &VersionPage) -> usize
    requires { at + (DATA_AT - OBJECT_AT) ≤ 1024 }
    ensures next { result ≡ at + (DATA_AT - OBJECT_AT) }
    ensures front { take result block.new ≡ take at block.old ++ version_middle version.now }
    ensures spelled { IsFrame version.now.page → IsVersion version.now }
{
    let _code = version.root.code();
    let members = version.members.as_slice();
    let next = put_u32(block, at, version.object);
    let next = put_u64(block, next, version.serial);
    let next = put_u32(block, next, number_of(version.commit));
    let next = put_u32(block, next, number_of(version.base));
    let next = put(block, next, &[members.len() as u8]);
    let next = put_members(block, next, members);
    put_zeros(block, next, 8 * (MAX_MEMBERS - members.len()))
}

/// Writes the one spelling of a page below `/` into all of the block; its level is 1 to 7.
#[tactic(auto, unfolding(crate::specs::Spelling::page_bytes, crate::specs::Spelling::frame_bytes))]
pub fn encode_page(page: &Page, into: &mut Block)
    requires { 1 ≤ page.now.level }
    ensures bytes { into.new ≡ page_bytes page.now }
    ensures spelled { IsPage page.now }
{
    let next = put_front(into, PAGE, 0, page);
    let next = put_zeros(into, next, DATA_AT - OBJECT_AT);
    put_back(into, next, page);
}

/// Writes the one spelling of a version page into all of the block.
#[tactic(auto, unfolding(crate::specs::Spelling::version_bytes, crate::specs::Spelling::frame_bytes))]
pub fn encode_version(page: &VersionPage, into: &mut Block)
    ensures bytes { into.new ≡ version_bytes page.now }
    ensures spelled { IsVersion page.now }
{
    let next = put_front(into, VERSION, page.root.code(), &page.page);
    let next = put_middle(into, next, page);
    put_back(into, next, &page.page);
}
