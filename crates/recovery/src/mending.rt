// Mending the blocks of a store on two halves.
ghost use Rattle.std.specs.Prelude.{◌≡◌, ℕ, ◌+◌, ◌^◌, ◌<◌, ◌≤◌, ◌⊎◌, None, IfErr, IfOk, IsErrOf, OnOk};
ghost use Rattle.drives.specs.declared.device.Half.{Half};
ghost use Rattle.drives.specs.Changes.{Changes};
ghost use Rattle.pair_store.specs.Answers.{IsUntorn};
ghost use Rattle.pair_store.specs.declared.fault.PairFault.{PairFault};
ghost use Rattle.pair_store.specs.Blocks.{SameContents};
ghost use Rattle.pair_store.specs.Faults.{IsStopped, IsUnread, LaterFaults};
ghost use Rattle.pair_store.specs.Mending.{IsHalfFault};
ghost use Rattle.store_check.specs.Checked.{AreSettled};
ghost use Rattle.recovery.specs.Mended.{IsWithin, OnlyMended, SameFrom, blocks_in_table, table_in};

use afs_base::BlockNo;
use drives::Drives;
use page_codec::decode_root;
use pair_store::{Blocks, Pair, PairFault, RUN_BLOCKS, Run};
use store_check::root_block;

/// The block of this number.
fn block_of(n: u32) -> BlockNo
    requires { n < 2 ^ 28 }
    ensures { result ≡ n }
{
    match BlockNo::of(n) {
        Ok(block) => block,
        Err(_) => unreachable!(),
    }
}

/// Mends a run of blocks from `first` on, and answers how many: those that need no mending, which is
/// seen by one read of each half, and the one behind them. It ends at the first call that fails, with
/// the half that failed then.
fn mend_run<V: Drives>(
    pair: &mut Pair<V>,
    first: u32,
    count: u32,
    run: &mut Run,
) -> Result<u32, PairFault>
    requires high { first + count ≤ V.size pair.old.drives }
    requires named { first + count ≤ 2 ^ 28 }
    requires some { 0 < count }
    requires few { count ≤ 64 }
    ensures some { IfOk result (λ k. 0 < k) }
    ensures most { IfOk result (λ k. k ≤ count) }
    ensures only { IfErr result IsHalfFault }
    ensures unread { (h : Half) → IsErrOf result (PairFault.ReadFault h)
        → IsStopped (V.faults pair.old.drives) (V.faults pair.new.drives)
        (V.last_fault pair.new.drives) (V.moment pair.new.drives) h }
    ensures unwritten { (h : Half) → IsErrOf result (PairFault.WriteFault h)
        → IsStopped (V.faults pair.old.drives) (V.faults pair.new.drives)
        (V.last_fault pair.new.drives) (V.moment pair.new.drives) h }
    ensures mended { OnlyMended ⟦<Pair<V> as Blocks>⟧ (IsWithin first (first + count)) pair.old
        pair.new }
    ensures settles { V.tells → IfOk result (λ k. (n : ℕ) → first ≤ n → n < first + k
        → ⟦<Pair<V> as Blocks>⟧.settled pair.new n) }
    ensures kept { V.tells → OnOk result ((n : ℕ) → ⟦<Pair<V> as Blocks>⟧.settled pair.old n
        → ⟦<Pair<V> as Blocks>⟧.settled pair.new n) }
    ensures rest { V.tells → ⟦<Pair<V> as Blocks>⟧.rest pair.old → IsUntorn result
        → ⟦<Pair<V> as Blocks>⟧.rest pair.new }
    ensures uncounted { pair.new.operations ≡ pair.old.operations }
{
    let settled = pair.count_settled(block_of(first), count, run)?;
    if settled == count {
        return Ok(count);
    }
    pair.mend(block_of(first + settled))?;
    Ok(settled + 1)
}

/// Mends the blocks from `first` up to `end`, ascending. It ends at the first call that fails, with
/// the half that failed then; the blocks behind that one stay as they are.
fn mend_range<V: Drives>(
    pair: &mut Pair<V>,
    first: u32,
    end: u32,
    run: &mut Run,
) -> Result<(), PairFault>
    requires order { first ≤ end }
    requires high { end ≤ V.size pair.old.drives }
    requires named { end ≤ 2 ^ 28 }
    ensures only { IfErr result IsHalfFault }
    ensures unread { (h : Half) → IsErrOf result (PairFault.ReadFault h)
        → IsStopped (V.faults pair.old.drives) (V.faults pair.new.drives)
        (V.last_fault pair.new.drives) (V.moment pair.new.drives) h }
    ensures unwritten { (h : Half) → IsErrOf result (PairFault.WriteFault h)
        → IsStopped (V.faults pair.old.drives) (V.faults pair.new.drives)
        (V.last_fault pair.new.drives) (V.moment pair.new.drives) h }
    ensures mended { OnlyMended ⟦<Pair<V> as Blocks>⟧ (IsWithin first end) pair.old pair.new }
    ensures settles { V.tells → OnOk result ((n : ℕ) → first ≤ n → n < end
        → ⟦<Pair<V> as Blocks>⟧.settled pair.new n) }
    ensures kept { V.tells → OnOk result ((n : ℕ) → ⟦<Pair<V> as Blocks>⟧.settled pair.old n
        → ⟦<Pair<V> as Blocks>⟧.settled pair.new n) }
    ensures rest { V.tells → ⟦<Pair<V> as Blocks>⟧.rest pair.old → IsUntorn result
        → ⟦<Pair<V> as Blocks>⟧.rest pair.new }
    ensures uncounted { pair.new.operations ≡ pair.old.operations }
{
    let mut n = first;
    'runs: while n < end {
        n += mend_run(pair, n, (end - n).min(RUN_BLOCKS), run)?;
    }
    Ok(())
}

/// How many blocks have to be settled: all that the table in block 0 tells of, or one where that is
/// no table.
fn blocks_told<V: Drives>(pair: &mut Pair<V>) -> Result<u32, PairFault>
    ensures only { IfErr result IsHalfFault }
    ensures told { V.tells → ⟦<Pair<V> as Blocks>⟧.settled pair.old 0
        → IfOk result (λ n. n ≡ blocks_in_table
        (table_in (⟦<Pair<V> as Blocks>⟧.content pair.old 0))) }
    ensures least { IfOk result (λ n. 1 ≤ n) }
    ensures most { IfOk result (λ n. n ≤ 65536) }
    ensures unread { (h : Half) → IsErrOf result (PairFault.ReadFault h)
        → IsUnread (V.faults pair.old.drives) (V.faults pair.new.drives)
        (V.last_fault pair.new.drives) (V.moment pair.new.drives)
        (V.tells → ⟦<Pair<V> as Blocks>⟧.settled pair.old 0
        → ⟦<Pair<V> as Blocks>⟧.content pair.old 0 ≡ None) h }
    ensures unwritten { (h : Half) → IsErrOf result (PairFault.WriteFault h) → ⊥ }
    ensures same { V.tells → SameContents (⟦<Pair<V> as Blocks>⟧.content pair.old)
        (⟦<Pair<V> as Blocks>⟧.content pair.new) }
    ensures images { Changes ⟦<Pair<V> as Blocks>⟧.moment ⟦<Pair<V> as Blocks>⟧.may_leave
        pair.old pair.new SameContents }
    ensures later { LaterFaults (V.faults pair.old.drives) (V.faults pair.new.drives)
        (V.last_fault pair.old.drives) (V.last_fault pair.new.drives) }
    ensures size { V.size pair.new.drives ≡ V.size pair.old.drives }
    ensures kept { V.tells → (n : ℕ) → ⟦<Pair<V> as Blocks>⟧.settled pair.old n
        → ⟦<Pair<V> as Blocks>⟧.settled pair.new n }
    ensures rest { V.tells → ⟦<Pair<V> as Blocks>⟧.rest pair.old
        → ⟦<Pair<V> as Blocks>⟧.rest pair.new }
    ensures uncounted { pair.new.operations ≡ pair.old.operations }
{
    let mut block = [0; 1024];
    match pair.look(root_block(), &mut block) {
        Ok(()) => match decode_root(&block) {
            Ok(root) => Ok(root.blocks),
            Err(_) => Ok(1),
        },
        Err(PairFault::ReadFault { half }) => Err(PairFault::ReadFault { half }),
        Err(_) => Ok(1),
    }
}

/// Mends a store: block 0, and then the other blocks ascending, as far as the table in block 0 and
/// the halves have any. It ends at the first call that fails. No content changes, whichever call
/// fails and wherever a crash falls, so it may be begun anew.
pub fn mend_all<V: Drives>(pair: &mut Pair<V>) -> Result<(), PairFault>
    ensures only { IfErr result IsHalfFault }
    ensures unread { (h : Half) → IsErrOf result (PairFault.ReadFault h)
        → IsUnread (V.faults pair.old.drives) (V.faults pair.new.drives)
        (V.last_fault pair.new.drives) (V.moment pair.new.drives)
        (V.tells → ⟦<Pair<V> as Blocks>⟧.content pair.old 0 ≡ None) h }
    ensures unwritten { (h : Half) → IsErrOf result (PairFault.WriteFault h)
        → IsStopped (V.faults pair.old.drives) (V.faults pair.new.drives)
        (V.last_fault pair.new.drives) (V.moment pair.new.drives) h }
    ensures mended { OnlyMended ⟦<Pair<V> as Blocks>⟧ (IsWithin 0 65536) pair.old pair.new }
    // No block is written from the first one on of which the table tells nothing.
    ensures beyond { V.tells
        → Changes ⟦<Pair<V> as Blocks>⟧.moment ⟦<Pair<V> as Blocks>⟧.may_leave pair.old pair.new
        (SameFrom (blocks_in_table (table_in (⟦<Pair<V> as Blocks>⟧.content pair.old 0)))) }
    ensures settles { V.tells → OnOk result (AreSettled (⟦<Pair<V> as Blocks>⟧.settled pair.new)
        (⟦<Pair<V> as Blocks>⟧.content pair.new) (V.size pair.new.drives)) }
    ensures rest { V.tells → ⟦<Pair<V> as Blocks>⟧.rest pair.old → IsUntorn result
        → ⟦<Pair<V> as Blocks>⟧.rest pair.new }
    ensures uncounted { pair.new.operations ≡ pair.old.operations }
{
    let mut run = Run::new();
    mend_range(pair, 0, 1, &mut run)?;
    let told = blocks_told(pair)?;
    let size = pair.blocks();
    mend_range(pair, 1, told.min(size), &mut run)
}
