// The versions of a file, each one named by the commit reference of the one before.
ghost use Rattle.std.specs.Prelude.{◌≡◌, ℕ, List, Some, IsErrOf, Option};
ghost use Rattle.drives.specs.declared.device.Half.{Half};
ghost use Rattle.store_model.specs.Laid.{LaidVersion};
ghost use Rattle.store_model.specs.Laws.{pages_of};
ghost use Rattle.store_model.specs.Chains.{chain_at, chain_from, version_at};
ghost use Rattle.store_check.specs.Before.{PagesLie};
ghost use Rattle.store_check.specs.Versions.{shown_of};
ghost use Rattle.store_check.specs.Since.{IsUnreadSince, is_past};
ghost use Rattle.store_check.specs.Surveyed.{IsTold, blocks_in};
ghost use Rattle.store_check.specs.declared.refused.WalkRefused.{WalkRefused};
ghost use Rattle.store_check.specs.Results.{Shows};
ghost use Rattle.store_check.specs.Files.{AllLie, LikeVersions, chain_of};

use crate::refused::WalkRefused;
use crate::survey::Survey;
use crate::version::{FoundVersion, Prior, version_at};
use afs_base::BlockNo;
use pair_store::Blocks;

/// What is kept of a file.
#[derive(Debug, Drop)]
pub struct FoundFile {
    /// Its last version.
    pub last: FoundVersion,
    /// The serial of its first version.
    pub first: u64,
    /// The block of the version before the last one, where that names no next version: the link to the last one is outstanding.
    pub unset: Option<BlockNo>,
    /// How many blocks its versions hold, at most 65535: each version's own pages.
    pub kept: u32,
}

/// The next version of a file, in block `n`.
fn next_at<B: Blocks>(
    survey: &mut Survey<B>,
    object: u32,
    last: &FoundVersion,
    n: BlockNo,
) -> Result<FoundVersion, WalkRefused>
    ensures began { survey.new.began ≡ survey.old.began }
    ensures count { survey.new.count ≡ survey.old.count }
    ensures walk { IsTold B.Blocks survey.old → (laid : LaidVersion)
        → PagesLie (pages_of (B.content survey.old.began)) survey.old.count laid.block laid.nodes
        → last.now ≡ shown_of laid
        → Shows (is_past B.Blocks survey.new.store)
        (λ version (found : LaidVersion). (version ≡ shown_of found)
        × PagesLie (pages_of (B.content survey.old.began)) survey.old.count found.block found.nodes)
        result
        (version_at (blocks_in B.content survey.old) object laid.block n
        (Some laid) survey.old.list) survey.new.list }
    ensures unread { (h : Half) → IsErrOf result (WalkRefused.ReadFault h)
        → IsUnreadSince B.Blocks survey.new.began survey.new.store h }
{
    let before = Some(Prior {
        serial: last.serial,
        block: last.block,
    });
    version_at(survey, object, last.block, n, &before)
}

/// The last version of a chain, along the commit references from this version on.
fn last_from<B: Blocks>(
    survey: &mut Survey<B>,
    object: u32,
    first: FoundVersion,
) -> Result<FoundVersion, WalkRefused>
    ensures began { survey.new.began ≡ survey.old.began }
    ensures count { survey.new.count ≡ survey.old.count }
    ensures walk { IsTold B.Blocks survey.old → (laid : LaidVersion)
        → PagesLie (pages_of (B.content survey.old.began)) survey.old.count laid.block laid.nodes
        → first ≡ shown_of laid
        → Shows (is_past B.Blocks survey.new.store)
        (LikeVersions (pages_of (B.content survey.old.began)) survey.old.count laid.serial) result
        (chain_from (blocks_in B.content survey.old) object survey.old.count laid survey.old.list)
        survey.new.list }
    ensures unread { (h : Half) → IsErrOf result (WalkRefused.ReadFault h)
        → IsUnreadSince B.Blocks survey.new.began survey.new.store h }
{
    let mut last = first;
    'versions: for _step in 0..survey.count() {
        match last.commit {
            None => return Ok(last),
            Some(n) => last = next_at(survey, object, &last, n)?,
        }
    }
    // Each version is a new place, so a chain has ended before as many steps as there are blocks.
    Ok(last)
}

/// The whole chain of the file whose first version is in block `n`.
pub fn chain_at<B: Blocks>(
    survey: &mut Survey<B>,
    object: u32,
    namer: BlockNo,
    n: BlockNo,
) -> Result<FoundFile, WalkRefused>
    ensures began { survey.new.began ≡ survey.old.began }
    ensures count { survey.new.count ≡ survey.old.count }
    ensures walk { IsTold B.Blocks survey.old
        → Shows (is_past B.Blocks survey.new.store)
        (λ chain (versions : List LaidVersion). (Some chain ≡ chain_of versions)
        × AllLie (pages_of (B.content survey.old.began)) survey.old.count versions) result
        (chain_at (blocks_in B.content survey.old) object namer n survey.old.list) survey.new.list }
    ensures unread { (h : Half) → IsErrOf result (WalkRefused.ReadFault h)
        → IsUnreadSince B.Blocks survey.new.began survey.new.store h }
{
    let found = survey.found();
    let first = version_at(survey, object, namer, n, &None)?;
    let serial = first.serial;
    let last = last_from(survey, object, first)?;
    Ok(FoundFile {
        last,
        first: serial,
        unset: None,
        kept: survey.found().saturating_sub(found),
    })
}
