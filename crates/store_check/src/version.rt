// A version: its root, and all of its pages.
ghost use Rattle.std.specs.Prelude.{◌≡◌, ◌<◌, ◌≤◌, ◌||◌, ◌==◌, ℕ, List, [], ◌∷◌, Option, Some, true, length, IsErrOf, option_map, ◌+◌, slice_get};
ghost use Rattle.std.specs.Option.{is_none, option_and_then};
ghost use Rattle.drives.specs.declared.device.Half.{Half};
ghost use Rattle.page_codec.specs.Values.{VersionValue};
ghost use Rattle.store_model.specs.Laid.{LaidVersion, Node, is_block};
ghost use Rattle.store_model.specs.Laws.{pages_of};
ghost use Rattle.store_model.specs.Chains.{has_no_members, version_at};
ghost use Rattle.store_model.specs.Pages.{pages_below};
ghost use Rattle.store_check.specs.Before.{AreBefore, BeforeLies, PagesLie, page_before};
ghost use Rattle.store_check.specs.Since.{IsUnreadSince, is_past};
ghost use Rattle.store_check.specs.Surveyed.{IsTold, blocks_in};
ghost use Rattle.store_check.specs.declared.refused.WalkRefused.{WalkRefused};
ghost use Rattle.store_check.specs.Results.{Gets, Shows, ShowsNone, Walks};
ghost use Rattle.store_check.specs.Versions.{OneLies, checked, follows_prior, prior_of, root_at, shown_of};

use crate::before::{Before, all_before, befores_of};
use crate::pages::pages_below;
use crate::refused::WalkRefused;
use crate::survey::{Survey, place};
use afs_base::BlockNo;
use page_codec::{Members, SLOTS, VersionPage, Why, decode_version};
use pair_store::Blocks;

/// What a version is tried against: the serial and the block of the one before it.
#[derive(Clone, Copy, Debug)]
pub struct Prior {
    pub serial: u64,
    pub block: BlockNo,
}

/// What is kept of a version: its serial, its block, the block of the next version, and its members.
#[derive(Debug, Drop)]
pub struct FoundVersion {
    pub serial: u64,
    pub block: BlockNo,
    pub commit: Option<BlockNo>,
    pub members: Members,
}

/// Whether it is this block.
fn is_block(n: BlockNo, named: Option<BlockNo>) -> bool
    ensures { result ≡ is_block n named }
{
    match named {
        Some(other) => n.get() == other.get(),
        None => false,
    }
}

/// Whether a serial, at least 1, is the next one.
fn is_next(serial: u64, prior: u64) -> bool
    requires { 1 ≤ serial }
    ensures { result ≡ (serial == prior + 1) }
{
    serial - 1 == prior
}

/// The first cause for which the version page in block `n` does not follow a version.
#[tactic(auto, unfolding(crate::specs::Versions::follows_prior, store_model::specs::Walk::bind, store_model::specs::Walk::check, store_model::specs::Walk::refuse, store_model::specs::Walk::done))]
fn follows(n: BlockNo, version: &VersionPage, before: &Option<Prior>) -> Result<(), WalkRefused>
    ensures walk { (places : List ℕ)
        → Walks (λ _. true) (λ _. true) result
        (follows_prior n version.now before.now places) places }
    ensures only { (h : Half) → IsErrOf result (WalkRefused.ReadFault h) → ⊥ }
{
    match before {
        None => Ok(()),
        Some(prior) => {
            if !is_next(version.serial, prior.serial) {
                return Err(WalkRefused::BadStore {
                    block: n,
                    why: Why::Serial,
                });
            }
            if !is_block(prior.block, version.base) {
                return Err(WalkRefused::BadStore {
                    block: n,
                    why: Why::Base,
                });
            }
            if !version.root.copied() {
                return Err(WalkRefused::BadStore {
                    block: n,
                    why: Why::Code,
                });
            }
            Ok(())
        }
    }
}

/// Whether the version page names no next version, or no members.
fn is_settled(version: &VersionPage) -> bool
    ensures { result ≡ (is_none version.now.commit || has_no_members version.now) }
{
    version.commit.is_none() || version.members.is_empty()
}

/// The version page in block `n`, where it is one of the object that follows the version before.
#[tactic(auto, unfolding(crate::specs::Versions::checked, store_model::specs::Walk::bind, store_model::specs::Walk::check, store_model::specs::Walk::refuse, store_model::specs::Walk::done))]
fn checked(
    n: BlockNo,
    version: VersionPage,
    object: u32,
    before: &Option<Prior>,
) -> Result<VersionPage, WalkRefused>
    ensures walk { (places : List ℕ)
        → Walks (λ _. true) (λ v. v) result (checked object n before.now version places) places }
    ensures only { (h : Half) → IsErrOf result (WalkRefused.ReadFault h) → ⊥ }
{
    if version.object != object {
        return Err(WalkRefused::BadStore {
            block: n,
            why: Why::Object,
        });
    }
    follows(n, &version, before)?;
    if !is_settled(&version) {
        return Err(WalkRefused::BadStore {
            block: n,
            why: Why::Member,
        });
    }
    Ok(version)
}

/// The root of a version of the object: a new place.
#[tactic(auto, unfolding(crate::specs::Versions::root_at, store_model::specs::Walk::bind, store_model::specs::Walk::decoded, store_model::specs::Walk::refuse, store_model::specs::Walk::done))]
fn root_at<B: Blocks>(
    survey: &mut Survey<B>,
    object: u32,
    namer: BlockNo,
    n: BlockNo,
    before: &Option<Prior>,
) -> Result<VersionPage, WalkRefused>
    ensures began { survey.new.began ≡ survey.old.began }
    ensures count { survey.new.count ≡ survey.old.count }
    ensures walk { IsTold B.Blocks survey.old
        → Walks (is_past B.Blocks survey.new.store) (λ v. v) result
        (root_at (blocks_in B.content survey.old) object namer n before.now survey.old.list)
        survey.new.list }
    ensures unread { (h : Half) → IsErrOf result (WalkRefused.ReadFault h)
        → IsUnreadSince B.Blocks survey.new.began survey.new.store h }
{
    let block = place(survey, namer, n)?;
    match decode_version(&block) {
        Ok(version) => checked(n, version, object, before),
        Err(bad) => Err(WalkRefused::BadStore {
            block: n,
            why: bad.why,
        }),
    }
}

/// What a version has at the slots of its root.
fn slots_of(version: &VersionPage) -> [Before; SLOTS]
    ensures { (k : ℕ) → k < 16 → slice_get result k ≡ Some
        (page_before (option_and_then (λ r. r.block) (slice_get version.now.page.refs k))) }
{
    let page = &version.page;
    befores_of(&page.refs)
}

/// What the version in block `n` has at the slots of its root.
fn version_befores<B: Blocks>(
    survey: &mut Survey<B>,
    n: BlockNo,
) -> Result<[Before; SLOTS], WalkRefused>
    ensures began { survey.new.began ≡ survey.old.began }
    ensures count { survey.new.count ≡ survey.old.count }
    ensures list { survey.new.list ≡ survey.old.list }
    ensures befores { IsTold B.Blocks survey.old → (laid : LaidVersion)
        → PagesLie (pages_of (B.content survey.old.began)) survey.old.count laid.block laid.nodes
        → n ≡ laid.block
        → Gets (is_past B.Blocks survey.new.store) (AreBefore (Some laid.nodes) []) result }
    ensures unread { (h : Half) → IsErrOf result (WalkRefused.ReadFault h)
        → IsUnreadSince B.Blocks survey.new.began survey.new.store h }
{
    // No contract says what files hold, so a block that is read again may name any number by now.
    if n.get() >= survey.count() {
        return Err(WalkRefused::BadStore {
            block: n,
            why: Why::Reference,
        });
    }
    let block = survey.read(n)?;
    match decode_version(&block) {
        Ok(version) => Ok(slots_of(&version)),
        Err(bad) => Err(WalkRefused::BadStore {
            block: n,
            why: bad.why,
        }),
    }
}

/// What the version before has at the slots of its root, where there is one.
fn root_befores<B: Blocks>(
    survey: &mut Survey<B>,
    before: &Option<Prior>,
) -> Result<[Before; SLOTS], WalkRefused>
    ensures began { survey.new.began ≡ survey.old.began }
    ensures count { survey.new.count ≡ survey.old.count }
    ensures list { survey.new.list ≡ survey.old.list }
    ensures befores { IsTold B.Blocks survey.old → (laid : Option LaidVersion)
        → OneLies (pages_of (B.content survey.old.began)) survey.old.count laid
        → before.now ≡ option_map prior_of laid
        → Gets (is_past B.Blocks survey.new.store)
        (AreBefore (option_map (λ v. v.nodes) laid) []) result }
    ensures unread { (h : Half) → IsErrOf result (WalkRefused.ReadFault h)
        → IsUnreadSince B.Blocks survey.new.began survey.new.store h }
{
    match before {
        Some(prior) => version_befores(survey, prior.block),
        None => Ok(all_before(Before::NoVersion)),
    }
}

/// The pages below the root of a version, which is in block `n`.
fn root_pages<B: Blocks>(
    survey: &mut Survey<B>,
    n: BlockNo,
    version: &VersionPage,
    befores: &[Before; SLOTS],
) -> Result<(), WalkRefused>
    ensures began { survey.new.began ≡ survey.old.began }
    ensures count { survey.new.count ≡ survey.old.count }
    ensures walk { IsTold B.Blocks survey.old → (nodes : Option (List Node))
        → BeforeLies (pages_of (B.content survey.old.began)) survey.old.count nodes
        → AreBefore nodes [] befores.now
        → ShowsNone (is_past B.Blocks survey.new.store) result
        (pages_below (blocks_in B.content survey.old) nodes 7 n [] version.now.page.refs
        survey.old.list) survey.new.list }
    ensures unread { (h : Half) → IsErrOf result (WalkRefused.ReadFault h)
        → IsUnreadSince B.Blocks survey.new.began survey.new.store h }
{
    let page = &version.page;
    pages_below(survey, n, &page.refs, befores, 7)
}

/// What is kept of the version in block `n`.
fn kept_of(n: BlockNo, version: VersionPage) -> FoundVersion
    ensures { result ≡ record {
      serial = version.serial;
      block = n;
      commit = version.commit;
      members
          = version.members;
    } }
{
    FoundVersion {
        serial: version.serial,
        block: n,
        commit: version.commit,
        members: version.members,
    }
}

/// A version of the object, with all of its pages: new places, or those of the version before.
pub fn version_at<B: Blocks>(
    survey: &mut Survey<B>,
    object: u32,
    namer: BlockNo,
    n: BlockNo,
    before: &Option<Prior>,
) -> Result<FoundVersion, WalkRefused>
    ensures began { survey.new.began ≡ survey.old.began }
    ensures count { survey.new.count ≡ survey.old.count }
    ensures walk { IsTold B.Blocks survey.old → (laid : Option LaidVersion)
        → OneLies (pages_of (B.content survey.old.began)) survey.old.count laid
        → before.now ≡ option_map prior_of laid
        → Shows (is_past B.Blocks survey.new.store)
        (λ version (found : LaidVersion). (version ≡ shown_of found)
        × OneLies (pages_of (B.content survey.old.began)) survey.old.count (Some found)) result
        (version_at (blocks_in B.content survey.old) object namer n laid survey.old.list)
        survey.new.list }
    ensures unread { (h : Half) → IsErrOf result (WalkRefused.ReadFault h)
        → IsUnreadSince B.Blocks survey.new.began survey.new.store h }
{
    let version = root_at(survey, object, namer, n, before)?;
    let befores = root_befores(survey, before)?;
    root_pages(survey, n, &version, &befores)?;
    Ok(kept_of(n, version))
}
