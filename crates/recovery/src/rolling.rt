// Setting the links that a commit left outstanding, and clearing members after that.
ghost use Rattle.std.specs.Prelude.{◌≡◌, ℕ, ◌+◌, ◌<◌, List, Option, Some, Err, length, slice_get};
ghost use Rattle.page_codec.specs.declared.why.Why.TheVariants.{Reference};
ghost use Rattle.pair_store.specs.Pages.{with_commit, without_members};
ghost use Rattle.store_check.specs.declared.chain.FoundFile.{FoundFile};
ghost use Rattle.recovery.specs.declared.known.Known.{Known};
ghost use Rattle.recovery.specs.declared.refused.OpenRefused.TheVariants.{BadStore};
ghost use Rattle.recovery.specs.Opening.{called};
ghost use Rattle.recovery.specs.Rolling.{Edits, IsEdited, Rolling, Rolls};

use crate::known::Known;
use crate::refused::OpenRefused;
use afs_base::BlockNo;
use page_codec::Why;
use pair_store::{Blocks, PairFault};
use store_check::FoundFile;

/// What rolling forward does with each file: all links are set, and after all of them the members
/// of each last version are cleared.
#[derive(Clone, Copy)]
pub enum Step {
    SetLinks,
    ClearMembers,
}

/// The refusal of a block of a store that is none. Where contents are told it never comes.
fn bad_reference(block: BlockNo) -> Result<(), OpenRefused>
    ensures { result ≡ Err (BadStore block Reference) }
{
    Err(OpenRefused::BadStore {
        block,
        why: Why::Reference,
    })
}

/// What a call on a block came to.
fn came_to<T: Drop>(outcome: Result<T, PairFault>) -> Result<(), OpenRefused>
    ensures { result ≡ called outcome }
{
    match outcome {
        Ok(_done) => Ok(()),
        Err(fault) => Err(OpenRefused::from(fault)),
    }
}

/// Sets the commit reference of a version page where it is nil.
fn set_commit<B: Blocks>(store: &mut B, base: BlockNo, next: BlockNo) -> Result<(), OpenRefused>
    requires block { base < B.size store.old }
    requires named { 0 < next }
    ensures { Edits B.Blocks Step.SetLinks base (with_commit next) result store.old store.new }
{
    came_to(store.test_and_set(base, next))
}

/// Clears the members of a version page.
fn clear_members<B: Blocks>(store: &mut B, block: BlockNo) -> Result<(), OpenRefused>
    requires { block < B.size store.old }
    ensures { Edits B.Blocks Step.ClearMembers block without_members result store.old store.new }
{
    came_to(store.clear_members(block))
}

/// Sets the link from the version in block `base` to the last one of its file, where both are
/// blocks of a store.
fn set_link<B: Blocks>(store: &mut B, base: BlockNo, next: BlockNo) -> Result<(), OpenRefused>
    ensures { (most : ℕ) (known : Known) (k : ℕ) (chain : FoundFile)
        → slice_get known.chains.items k ≡ Some (Some chain)
        → chain.unset ≡ Some base → chain.last.block ≡ next
        → Rolls B.Blocks most (IsEdited known) (Rolling Step.SetLinks most known k)
        (Rolling Step.SetLinks most known (k + 1))
        result store.old store.new }
{
    if base.get() >= store.blocks() {
        return bad_reference(base);
    }
    if next.get() == 0 {
        return bad_reference(next);
    }
    set_commit(store, base, next)
}

/// Clears the members of the last version of a file, where it is in a block of a store.
fn clear_last<B: Blocks>(store: &mut B, block: BlockNo) -> Result<(), OpenRefused>
    ensures { (most : ℕ) (known : Known) (k : ℕ) (chain : FoundFile)
        → slice_get known.chains.items k ≡ Some (Some chain)
        → chain.last.block ≡ block → (length chain.last.members ≡ 0 → ⊥)
        → Rolls B.Blocks most (IsEdited known) (Rolling Step.ClearMembers most known k)
        (Rolling Step.ClearMembers most known (k + 1))
        result store.old store.new }
{
    if block.get() >= store.blocks() {
        return bad_reference(block);
    }
    clear_members(store, block)
}

/// Takes a step with a file that is live: sets its link where one is outstanding, or clears the
/// members of its last version where it names any.
fn roll_live<B: Blocks>(store: &mut B, chain: &FoundFile, step: Step) -> Result<(), OpenRefused>
    ensures { (most : ℕ) (known : Known) (k : ℕ)
        → slice_get known.chains.items k ≡ Some (Some chain.now)
        → Rolls B.Blocks most (IsEdited known) (Rolling step most known k)
        (Rolling step most known (k + 1)) result store.old store.new }
{
    match step {
        Step::SetLinks => match chain.unset {
            None => Ok(()),
            Some(base) => set_link(store, base, chain.last.block),
        },
        Step::ClearMembers => {
            if chain.last.members.is_empty() {
                return Ok(());
            }
            clear_last(store, chain.last.block)
        }
    }
}

/// Takes a step with a file.
fn roll_file<B: Blocks>(
    store: &mut B,
    chain: &Option<FoundFile>,
    step: Step,
) -> Result<(), OpenRefused>
    ensures { (most : ℕ) (known : Known) (k : ℕ) → slice_get known.chains.items k ≡ Some chain.now
        → Rolls B.Blocks most (IsEdited known) (Rolling step most known k)
        (Rolling step most known (k + 1)) result store.old store.new }
{
    match chain {
        None => Ok(()),
        Some(chain) => roll_live(store, chain, step),
    }
}

/// Takes a step with all files.
fn roll_files<B: Blocks>(store: &mut B, known: &Known, step: Step) -> Result<(), OpenRefused>
    ensures { (most : ℕ) → Rolls B.Blocks most (IsEdited known.now) (Rolling step most known.now 0)
        (Rolling step most known.now (length known.now.chains.items)) result store.old store.new }
{
    let chains = known.chains.as_slice();
    'files: for i in 0..chains.len() {
        roll_file(store, &chains[i], step)?;
    }
    Ok(())
}

/// Rolls a commit forward that was cut off: sets all links that are outstanding, and then clears
/// the members.
pub fn roll_forward<B: Blocks>(store: &mut B, known: &Known) -> Result<(), OpenRefused>
    ensures { (most : ℕ) → Rolls B.Blocks most (IsEdited known.now)
        (Rolling Step.SetLinks most known.now 0)
        (Rolling Step.ClearMembers most known.now
        (length known.now.chains.items)) result store.old store.new }
{
    roll_files(store, known, Step::SetLinks)?;
    roll_files(store, known, Step::ClearMembers)
}
