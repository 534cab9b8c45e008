// Versions that another file's last version names, and that may not be linked to their own file yet.
ghost use Rattle.std.specs.Prelude.{◌≡◌, ◌≢◌, ◌==◌, ◌&&◌, ◌+◌, ◌-◌, ◌^◌, ◌<◌, ◌≤◌, ℕ, List, [], ◌∷◌, ◌++◌, length, Option, Some, IsErrOf, IfOk, OnOk, MatchOption, slice_get, set, map};
ghost use Rattle.std.specs.Option.{is_none};
ghost use Rattle.drives.specs.declared.device.Half.{Half};
ghost use Rattle.page_codec.specs.Values.{MemberValue};
ghost use Rattle.page_codec.specs.declared.why.Why.TheVariants.{Member};
ghost use Rattle.store_model.specs.Walk.{check, done, bind};
ghost use Rattle.store_model.specs.Laid.{LaidFile, LaidVersion};
ghost use Rattle.store_model.specs.Laws.{pages_of};
ghost use Rattle.store_model.specs.Chains.{version_at};
ghost use Rattle.store_model.specs.Members.{Top as ModelTop, Linked as ModelLinked, last_in, names_none, version_linked, member_linked, members_linked, tops_linked};
ghost use Rattle.store_check.specs.Before.{PagesLie};
ghost use Rattle.store_check.specs.Since.{IsUnreadSince, is_past};
ghost use Rattle.store_check.specs.Surveyed.{IsTold, blocks_in};
ghost use Rattle.store_check.specs.declared.refused.WalkRefused.{WalkRefused};
ghost use Rattle.store_check.specs.Results.{Shows};
ghost use Rattle.store_check.specs.Versions.{prior_of, shown_of, tried_at};
ghost use Rattle.store_check.specs.Files.{LikeFiles};
ghost use Rattle.store_check.specs.Counts.{kept_in};
ghost use Rattle.store_check.specs.Tops.{AreNamed, LikeLinked, at_object, may_link, prior_in, shown_top, top_in, tops_in, unset_of, with_last};

use crate::chain::FoundFile;
use crate::refused::WalkRefused;
use crate::survey::Survey;
use crate::version::{FoundVersion, Prior, version_at};
use afs_base::{BlockNo, Memory};
use page_codec::{Member, Members, Why};
use pair_store::Blocks;
use std::alloc::Global;

/// An object whose last version names members, the block of that version, and the members.
#[derive(Debug, Drop)]
pub struct Top {
    pub object: u32,
    pub block: BlockNo,
    pub members: Members,
}

/// What is kept of the files of a store, and which objects were named as members or as tops.
#[derive(Drop)]
pub struct Linked {
    pub chains: Vec<Option<FoundFile>>,
    pub named: Vec<bool>,
}

fn copy_of(members: &Members) -> Members
    ensures { result ≡ members.now }
{
    let mut copy = Members::none();
    'members: for member in members.as_slice() {
        copy.push(*member);
    }
    copy
}

/// The object, as a top where its last version names members.
fn top_of(object: u32, version: &FoundVersion) -> Option<Top>
    ensures { MatchOption result (length version.now.members ≡ 0)
        (λ top. (length version.now.members ≢ 0)
        × (top ≡ record {
          object = object;
          block = version.now.block;
          members = version.now.members;
        })) }
{
    if version.members.is_empty() {
        return None;
    }
    Some(Top {
        object,
        block: version.block,
        members: copy_of(&version.members),
    })
}

/// Adds the object to the tops, where it is one.
fn push_top(tops: &mut Vec<Top>, object: u32, chain: &Option<FoundFile>) -> Result<(), Memory>
    ensures { OnOk result (tops.new.items ≡ tops.old.items ++ top_in object chain.now) }
{
    match chain {
        None => Ok(()),
        Some(chain) => match top_of(object, &chain.last) {
            None => Ok(()),
            Some(top) => Ok(tops.push(top)?),
        },
    }
}

/// The tops, ascending.
pub fn tops_of(alloc: Global, chains: &[Option<FoundFile>]) -> Result<Vec<Top>, Memory>
    requires { length chains.now ≤ 4032 }
    ensures { IfOk result (λ tops. tops.items ≡ tops_in 1 chains.now) }
{
    let mut tops = Vec::new(alloc);
    'objects: for i in 0..chains.len() {
        push_top(&mut tops, i as u32 + 1, &chains[i])?;
    }
    Ok(tops)
}

/// Whether no next version is named, and no members.
fn is_last(version: &FoundVersion) -> bool
    ensures { result ≡ (is_none version.now.commit && length version.now.members == 0) }
{
    version.commit.is_none() && version.members.is_empty()
}

/// A member of a top that is not linked yet: it is tried as the next version of its file.
fn tried_member<B: Blocks>(
    survey: &mut Survey<B>,
    object: u32,
    namer: BlockNo,
    n: BlockNo,
    before: &Option<Prior>,
) -> Result<FoundVersion, WalkRefused>
    ensures began { survey.new.began ≡ survey.old.began }
    ensures count { survey.new.count ≡ survey.old.count }
    ensures walk { IsTold B.Blocks survey.old → (laid : LaidVersion)
        → PagesLie (pages_of (B.content survey.old.began)) survey.old.count laid.block laid.nodes
        → before.now ≡ Some (prior_of laid)
        → Shows (is_past B.Blocks survey.new.store)
        (λ version (found : LaidVersion). (version ≡ shown_of found)
        × PagesLie (pages_of (B.content survey.old.began)) survey.old.count found.block found.nodes)
        result
        (tried_at (blocks_in B.content survey.old) object namer n laid survey.old.list)
        survey.new.list }
    ensures unread { (h : Half) → IsErrOf result (WalkRefused.ReadFault h)
        → IsUnreadSince B.Blocks survey.new.began survey.new.store h }
{
    let version = version_at(survey, object, namer, n, before)?;
    if !is_last(&version) {
        return Err(WalkRefused::BadStore {
            block: n,
            why: Why::Member,
        });
    }
    Ok(version)
}

/// Whether an object may be a member of a top.
fn may_link(top: u32, object: u32, last: &FoundVersion, mark: bool) -> bool
    ensures { result ≡ may_link top object last.now mark }
{
    object != top && last.members.is_empty() && !mark
}

/// The last version of an object that is kept so, where it may be a member of the top.
fn prior_from(
    top: &Top,
    object: u32,
    chain: &Option<FoundFile>,
    mark: bool,
) -> Result<Prior, WalkRefused>
    ensures value { result ≡ prior_in top.now object (Some chain.now) (Some mark) }
    ensures only { (h : Half) → IsErrOf result (WalkRefused.ReadFault h) → ⊥ }
{
    match chain {
        Some(chain) => {
            if may_link(top.object, object, &chain.last, mark) {
                let last = &chain.last;
                return Ok(Prior {
                    serial: last.serial,
                    block: last.block,
                });
            }
        }
        None => {}
    }
    Err(WalkRefused::BadStore {
        block: top.block,
        why: Why::Member,
    })
}

/// The last version of a member of the top, where its object is live and may be one.
fn prior_at(
    top: &Top,
    object: u32,
    chains: &[Option<FoundFile>],
    named: &[bool],
) -> Result<Prior, WalkRefused>
    requires { length named.now ≡ length chains.now }
    ensures value { result ≡ prior_in top.now object (at_object object chains.now)
        (at_object object named.now) }
    ensures range { IfOk result (λ _. (1 ≤ object) × (object ≤ length chains.now)) }
    ensures only { (h : Half) → IsErrOf result (WalkRefused.ReadFault h) → ⊥ }
{
    let at = object as usize;
    if at == 0 || at > chains.len() {
        return Err(WalkRefused::BadStore {
            block: top.block,
            why: Why::Member,
        });
    }
    prior_from(top, object, &chains[at - 1], named[at - 1])
}

/// The block of a version that names no next one.
fn unset_of(version: &FoundVersion) -> Option<BlockNo>
    ensures { result ≡ unset_of version.now }
{
    match version.commit {
        None => Some(version.block),
        Some(_) => None,
    }
}

/// What is kept of a file with one more version, which holds so many blocks.
fn with_last(chain: &FoundFile, last: FoundVersion, pages: u32) -> FoundFile
    ensures { chain.now.kept + pages < 2 ^ 32 → result ≡ with_last last pages chain.now }
{
    FoundFile {
        unset: unset_of(&chain.last),
        last,
        first: chain.first,
        kept: chain.kept.saturating_add(pages),
    }
}

/// Puts a version, which holds so many blocks, behind the last one of the file at place `i`, if it is live.
fn set_last(chains: &mut Vec<Option<FoundFile>>, i: usize, last: FoundVersion, pages: u32)
    requires { i < length chains.old.items }
    ensures set { (chain : FoundFile) → slice_get chains.old.items i ≡ Some (Some chain)
        → chain.kept + pages < 2 ^ 32
        → chains.new.items ≡ set chains.old.items i (Some (with_last last pages chain)) }
    ensures size { length chains.new.items ≡ length chains.old.items }
{
    let longer = match &chains[i] {
        None => return,
        Some(chain) => with_last(chain, last, pages),
    };
    chains[i] = Some(longer);
}

/// Marks an object as named, where there is one of this number.
fn mark(named: &mut Vec<bool>, object: u32)
    ensures marks { (list : List ℕ) → AreNamed list named.old.items
        → AreNamed (object ∷ list) named.new.items }
    ensures size { length named.new.items ≡ length named.old.items }
{
    let at = object as usize;
    if at > 0 && at <= named.len() {
        named[at - 1] = true;
    }
}

/// A member of a top: it is linked where it is the last version of its file; else it is tried as the next one, and counts as committed.
fn link_version<B: Blocks>(
    survey: &mut Survey<B>,
    namer: BlockNo,
    object: u32,
    n: BlockNo,
    prior: &Prior,
    linked: &mut Linked,
) -> Result<(), WalkRefused>
    requires low { 1 ≤ object }
    requires high { object ≤ length linked.old.chains.items }
    ensures began { survey.new.began ≡ survey.old.began }
    ensures count { survey.new.count ≡ survey.old.count }
    ensures walk { IsTold B.Blocks survey.old → (laid : LaidVersion) (files : List LaidFile)
        → LikeFiles (pages_of
        (B.content survey.old.began)) survey.old.count linked.old.chains.items files
        → kept_in files ≤ length survey.old.list
        → last_in object files ≡ Some laid → prior.now ≡ prior_of laid
        → Shows (is_past B.Blocks survey.new.store)
        (λ _ (found : List LaidFile). LikeFiles
        (pages_of (B.content survey.old.began)) survey.old.count linked.new.chains.items found
        × (kept_in found ≤ length survey.new.list)) result
        (version_linked (blocks_in B.content survey.old) namer
        (record { object = object; block = n }) laid files survey.old.list) survey.new.list }
    ensures named { linked.new.named.items ≡ linked.old.named.items }
    ensures size { length linked.new.chains.items ≡ length linked.old.chains.items }
    ensures unread { (h : Half) → IsErrOf result (WalkRefused.ReadFault h)
        → IsUnreadSince B.Blocks survey.new.began survey.new.store h }
{
    if prior.block.get() == n.get() {
        return Ok(());
    }
    let before = Some(Prior {
        serial: prior.serial,
        block: prior.block,
    });
    let found = survey.found();
    let last = tried_member(survey, object, namer, n, &before)?;
    let pages = survey.found().saturating_sub(found);
    set_last(&mut linked.chains, object as usize - 1, last, pages);
    Ok(())
}

/// A member of a top: it is linked where it is the last version of its file; else it is tried as the next one. Then it counts as named.
fn link_member<B: Blocks>(
    survey: &mut Survey<B>,
    top: &Top,
    object: u32,
    n: BlockNo,
    linked: &mut Linked,
) -> Result<(), WalkRefused>
    requires { length linked.old.named.items ≡ length linked.old.chains.items }
    ensures began { survey.new.began ≡ survey.old.began }
    ensures count { survey.new.count ≡ survey.old.count }
    ensures walk { IsTold B.Blocks survey.old → (model : ModelTop) (from : ModelLinked)
        → top.now ≡ shown_top model → LikeLinked
        (pages_of (B.content survey.old.began)) survey.old.count survey.old.list linked.old from
        → Shows (is_past B.Blocks survey.new.store)
        (λ _ (found : ModelLinked). LikeLinked
        (pages_of (B.content survey.old.began)) survey.old.count survey.new.list linked.new found)
        result
        (member_linked (blocks_in B.content survey.old) model
        (record { object = object; block = n }) from
        (last_in object from.files) survey.old.list) survey.new.list }
    ensures size { OnOk result (length linked.new.named.items ≡ length linked.new.chains.items) }
    ensures unread { (h : Half) → IsErrOf result (WalkRefused.ReadFault h)
        → IsUnreadSince B.Blocks survey.new.began survey.new.store h }
{
    let prior = prior_at(
        top,
        object,
        linked.chains.as_slice(),
        linked.named.as_slice(),
    )?;
    link_version(survey, top.block, object, n, &prior, linked)?;
    mark(&mut linked.named, object);
    Ok(())
}

/// The members of a top in their order; then the top counts as named too.
fn link_members<B: Blocks>(
    survey: &mut Survey<B>,
    top: &Top,
    linked: &mut Linked,
) -> Result<(), WalkRefused>
    requires { length linked.old.named.items ≡ length linked.old.chains.items }
    ensures began { survey.new.began ≡ survey.old.began }
    ensures count { survey.new.count ≡ survey.old.count }
    ensures walk { IsTold B.Blocks survey.old → (model : ModelTop) (from : ModelLinked)
        → top.now ≡ shown_top model → LikeLinked
        (pages_of (B.content survey.old.began)) survey.old.count survey.old.list linked.old from
        → Shows (is_past B.Blocks survey.new.store)
        (λ _ (found : ModelLinked). LikeLinked
        (pages_of (B.content survey.old.began)) survey.old.count survey.new.list linked.new found)
        result
        (members_linked (blocks_in B.content survey.old) model top.now.members from survey.old.list)
        survey.new.list }
    ensures size { OnOk result (length linked.new.named.items ≡ length linked.new.chains.items) }
    ensures unread { (h : Half) → IsErrOf result (WalkRefused.ReadFault h)
        → IsUnreadSince B.Blocks survey.new.began survey.new.store h }
{
    'members: for k in 0..top.members.len() {
        let member = top.members.get(k);
        link_member(survey, top, member.object, member.block, linked)?;
    }
    mark(&mut linked.named, top.object);
    Ok(())
}

/// All tops in their order.
pub fn link_tops<B: Blocks>(
    survey: &mut Survey<B>,
    tops: &[Top],
    linked: &mut Linked,
) -> Result<(), WalkRefused>
    requires { length linked.old.named.items ≡ length linked.old.chains.items }
    ensures began { survey.new.began ≡ survey.old.began }
    ensures count { survey.new.count ≡ survey.old.count }
    ensures walk { IsTold B.Blocks survey.old → (models : List ModelTop) (from : ModelLinked)
        → tops.now ≡ map shown_top models
        → LikeLinked (pages_of
        (B.content survey.old.began)) survey.old.count survey.old.list linked.old from
        → Shows (is_past B.Blocks survey.new.store)
        (λ _ (found : ModelLinked). LikeLinked
        (pages_of (B.content survey.old.began)) survey.old.count survey.new.list linked.new found)
        result
        (tops_linked (blocks_in B.content survey.old) models from survey.old.list) survey.new.list }
    ensures unread { (h : Half) → IsErrOf result (WalkRefused.ReadFault h)
        → IsUnreadSince B.Blocks survey.new.began survey.new.store h }
{
    'tops: for k in 0..tops.len() {
        link_members(survey, &tops[k], linked)?;
    }
    Ok(())
}
