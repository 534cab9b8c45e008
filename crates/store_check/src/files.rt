// The files of a store.
ghost use Rattle.std.specs.Prelude.{◌≡◌, ◌≤◌, ◌+◌, ℕ, List, map, length, Option, Some, IsErrOf, IfOk};
ghost use Rattle.drives.specs.declared.device.Half.{Half};
ghost use Rattle.store_model.specs.Walk.{if_some};
ghost use Rattle.store_model.specs.Laid.{LaidFile, LaidVersion};
ghost use Rattle.store_model.specs.Laws.{pages_of};
ghost use Rattle.store_model.specs.Chains.{chain_at};
ghost use Rattle.store_model.specs.Tables.{files_from};
ghost use Rattle.store_check.specs.Since.{IsUnreadSince, is_past};
ghost use Rattle.store_check.specs.Surveyed.{IsTold, blocks_in};
ghost use Rattle.store_check.specs.declared.refused.WalkRefused.{WalkRefused};
ghost use Rattle.store_check.specs.Results.{Shows};
ghost use Rattle.store_check.specs.Rows.{row_of};
ghost use Rattle.store_check.specs.Files.{AllLie, LikeFiles, chain_of};

use crate::chain::{FoundFile, chain_at};
use crate::refused::WalkRefused;
use crate::rows::Row;
use crate::survey::Survey;
use pair_store::Blocks;
use std::alloc::Global;

/// The chain of an object, where it is live.
#[tactic(auto, unfolding(store_model::specs::Walk::if_some, store_model::specs::Walk::done))]
fn file_at<B: Blocks>(
    survey: &mut Survey<B>,
    object: u32,
    row: &Row,
) -> Result<Option<FoundFile>, WalkRefused>
    ensures began { survey.new.began ≡ survey.old.began }
    ensures count { survey.new.count ≡ survey.old.count }
    ensures walk { IsTold B.Blocks survey.old
        → Shows (is_past B.Blocks survey.new.store)
        (λ chain (versions : List LaidVersion). (chain ≡ chain_of versions)
        × AllLie (pages_of (B.content survey.old.began)) survey.old.count versions) result
        (if_some row.now.entry.first
        (chain_at (blocks_in B.content survey.old) object row.now.block) survey.old.list)
        survey.new.list }
    ensures unread { (h : Half) → IsErrOf result (WalkRefused.ReadFault h)
        → IsUnreadSince B.Blocks survey.new.began survey.new.store h }
{
    let entry = &row.entry;
    match entry.first {
        None => Ok(None),
        Some(first) => {
            let chain = chain_at(survey, object, row.block, first)?;
            Ok(Some(chain))
        }
    }
}

/// The chains of all objects, object 1 first.
pub fn files_from<B: Blocks>(
    survey: &mut Survey<B>,
    alloc: Global,
    rows: &[Row],
) -> Result<Vec<Option<FoundFile>>, WalkRefused>
    requires { length rows.now ≤ 4032 }
    ensures began { survey.new.began ≡ survey.old.began }
    ensures count { survey.new.count ≡ survey.old.count }
    ensures walk { IsTold B.Blocks survey.old
        → Shows (is_past B.Blocks survey.new.store)
        (λ chains (files : List LaidFile). LikeFiles
        (pages_of (B.content survey.old.began)) survey.old.count chains.items files) result
        (files_from (blocks_in B.content survey.old) 1
        (map row_of rows.now) survey.old.list) survey.new.list }
    ensures size { IfOk result (λ chains. length chains.items ≡ length rows.now) }
    ensures unread { (h : Half) → IsErrOf result (WalkRefused.ReadFault h)
        → IsUnreadSince B.Blocks survey.new.began survey.new.store h }
{
    let mut chains = Vec::new(alloc);
    'files: for i in 0..rows.len() {
        let chain = file_at(survey, i as u32 + 1, &rows[i])?;
        chains.push(chain)?;
    }
    Ok(chains)
}
