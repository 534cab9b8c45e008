// Two halves as a store of blocks.
ghost use Rattle.std.specs.Prelude.{◌≡◌, ◌≢◌, ◌⊎◌, ◌↔◌, ℕ, ◌+◌, ◌-◌, ◌*◌, ◌^◌, ◌<◌, ◌≤◌, min, None, Some, IfErr, IfOk, IsErrOf, OnOk};
ghost use Rattle.drives.specs.declared.device.Half.{Half};
ghost use Rattle.drives.specs.Changes.{Changes, IsAtRest, halves_seen};
ghost use Rattle.drives.specs.Crash.{LeavesSame};
ghost use Rattle.pair_store.specs.Blocks.{SameContents, SameOthers};
ghost use Rattle.pair_store.specs.Content.{ContentsLeft, IsSettled, IsSettledAlways, content_of};
ghost use Rattle.pair_store.specs.declared.fault.PairFault.{PairFault};
ghost use Rattle.pair_store.specs.Answers.{IsReadFault};
ghost use Rattle.pair_store.specs.Faults.{IsStopped, IsUnread, LaterFaults};
ghost use Rattle.drives.specs.Faults.{HasFailed};
ghost use Rattle.pair_store.specs.Found.{IsPairRead};
ghost use Rattle.pair_store.specs.Mending.{IsCopy, IsFaultOf, IsHalfFault, IsMended, WroteNothing};
ghost use Rattle.pair_store.specs.Runs.{IsSettledRun};
ghost use Rattle.drives.specs.Faults.{SameFaults};

use crate::Block;
use crate::content_read::read_content;
use crate::content_write::write_content;
use crate::fault::PairFault;
use crate::mend::mend_block;
use crate::outcome::{Mended, Tas};
use crate::runs::{Run, count_settled};
use crate::store::Blocks;
use crate::version_edit::{drop_members, set_commit};
use afs_base::BlockNo;
use drives::Drives;

/// Two halves that keep each block twice, and the number of operations on them.
#[derive(Drop)]
pub struct Pair<V> {
    drives: V,
    operations: u64,
}

impl<V: Drives> Pair<V> {
    ghost use Rattle.pair_store.specs.Pairs.{drives_of, operations_of};

    /// A pair on these drives, with no operation yet. It makes no call of them.
    pub fn over(drives: V) -> Pair<V>
        ensures drives { drives_of result ≡ drives }
        ensures operations { operations_of result ≡ 0 }
    {
        Pair {
            drives,
            operations: 0,
        }
    }

    /// The drives, as they are.
    pub fn into_drives(self) -> V
        ensures { result ≡ drives_of self }
    {
        let Pair {
            drives,
            operations: _,
        } = self;
        drives
    }

    /// The drives, for their counts of faults and the moments of their last ones.
    pub fn faults_of(&self) -> &V
        ensures { result.now ≡ drives_of self.now }
    {
        &self.drives
    }

    /// Reads a block on both halves, and makes the other half equal to the half that gives its
    /// content. No content changes, whichever call fails and wherever a crash falls, so mending may
    /// be cut off and begun anew. It ends at its first failed call, with the half that failed then,
    /// and answers no fault but `ReadFault` and `WriteFault`. It does not count as an operation.
    pub fn mend(&mut self, n: BlockNo) -> Result<Mended, PairFault>
        requires { n < V.size (drives_of self.old) }
        ensures only { IfErr result IsHalfFault }
        ensures answer { V.tells → IsMended n (halves_seen V.seen (drives_of self.old)) result }
        ensures stopped { (h : Half) → IsFaultOf h result
            → IsStopped (V.faults (drives_of self.old)) (V.faults (drives_of self.new))
            (V.last_fault (drives_of self.new)) (V.moment (drives_of self.new)) h }
        ensures unfailed { (h : Half) → (IsFaultOf h result → ⊥)
            → SameFaults (V.faults (drives_of self.old)) (V.faults (drives_of self.new))
            (V.last_fault (drives_of self.old)) (V.last_fault (drives_of self.new)) h }

        ensures contents { V.tells → SameContents (⟦<Pair<V> as Blocks>⟧.content self.old)
            (⟦<Pair<V> as Blocks>⟧.content self.new) }
        // The half that is copied from stays as it is.
        ensures source { V.tells → (from : Half) → IsCopy from result
            → V.seen (drives_of self.new) from ≡ V.seen (drives_of self.old) from }
        ensures unwritten { WroteNothing result → (h : Half)
            → (V.tells → V.seen (drives_of self.new) h ≡ V.seen (drives_of self.old) h)
            × LeavesSame (V.may_leave (drives_of self.old) h (V.moment (drives_of self.old)))
            (V.may_leave (drives_of self.new) h (V.moment (drives_of self.new))) }
        ensures reads { WroteNothing result
            → OnOk result (V.moment (drives_of self.new) ≡ min (V.moment (drives_of self.old) + 2)
            (2 ^ 64 - 1)) }
        ensures settles { V.tells → OnOk result (⟦<Pair<V> as Blocks>⟧.settled self.new n) }
        ensures kept { V.tells → (k : ℕ) → (k ≢ n) ⊎ WroteNothing result
            → ⟦<Pair<V> as Blocks>⟧.settled self.new k ↔ ⟦<Pair<V> as Blocks>⟧.settled self.old k }
        ensures kept_always { (k : ℕ) → (k ≢ n) ⊎ WroteNothing result
            → ⟦<Pair<V> as Blocks>⟧.settled_always self.old k
            → ⟦<Pair<V> as Blocks>⟧.settled_always self.new k }

        // These three hold where nothing is pending as the call begins: a crash then leaves what
        // reads give.
        ensures images { V.tells → IsAtRest V.seen V.moment V.may_leave (drives_of self.old)
            → Changes ⟦<Pair<V> as Blocks>⟧.moment ⟦<Pair<V> as Blocks>⟧.may_leave self.old self.new
            SameContents }
        ensures settles_always { V.tells → IsAtRest V.seen V.moment V.may_leave (drives_of self.old)
            → OnOk result (⟦<Pair<V> as Blocks>⟧.settled_always self.new n) }
        ensures rest { V.tells → IsAtRest V.seen V.moment V.may_leave (drives_of self.old)
            → OnOk result (IsAtRest V.seen V.moment V.may_leave (drives_of self.new)) }
        ensures images_unwritten { WroteNothing result
            → Changes ⟦<Pair<V> as Blocks>⟧.moment ⟦<Pair<V> as Blocks>⟧.may_leave self.old self.new
            SameContents }
        ensures images_others { Changes ⟦<Pair<V> as Blocks>⟧.moment ⟦<Pair<V> as Blocks>⟧.may_leave
            self.old self.new (SameOthers n) }

        ensures uncounted { operations_of self.new ≡ operations_of self.old }
        ensures later { LaterFaults (V.faults (drives_of self.old)) (V.faults (drives_of self.new))
            (V.last_fault (drives_of self.old)) (V.last_fault (drives_of self.new)) }
        ensures size { V.size (drives_of self.new) ≡ V.size (drives_of self.old) }
    {
        mend_block(&mut self.drives, n.get())
    }

    /// How many of `count` blocks, from `first` on, need no mending, before one that does: they are
    /// open and equal on both halves, or closed on both. It makes one read of each half, of half B
    /// first, and writes nothing. It ends at its first failed call, and answers no fault but
    /// `ReadFault`. It does not count as an operation.
    pub fn count_settled(
        &mut self,
        first: BlockNo,
        count: u32,
        run: &mut Run,
    ) -> Result<u32, PairFault>
        requires high { first + count ≤ V.size (drives_of self.old) }
        requires few { count ≤ 64 }
        ensures only { IfErr result (IsReadFault first) }
        ensures read { IsErrOf result (PairFault.BothClosed first) → ⊥ }
        ensures settled { V.tells → IfOk result (λ k. IsSettledRun first count k
            (halves_seen V.seen (drives_of self.old))) }
        ensures most { IfOk result (λ k. k ≤ count) }
        ensures stopped { (h : Half) → IsErrOf result (PairFault.ReadFault h)
            → IsStopped (V.faults (drives_of self.old)) (V.faults (drives_of self.new))
            (V.last_fault (drives_of self.new)) (V.moment (drives_of self.new)) h }
        ensures reads { OnOk result (V.moment (drives_of self.new)
            ≡ min (V.moment (drives_of self.old) + 2) (2 ^ 64 - 1)) }
        ensures contents { V.tells → SameContents (⟦<Pair<V> as Blocks>⟧.content self.old)
            (⟦<Pair<V> as Blocks>⟧.content self.new) }
        ensures kept { V.tells → (k : ℕ)
            → ⟦<Pair<V> as Blocks>⟧.settled self.new k ↔ ⟦<Pair<V> as Blocks>⟧.settled self.old k }
        ensures images { Changes ⟦<Pair<V> as Blocks>⟧.moment ⟦<Pair<V> as Blocks>⟧.may_leave
            self.old self.new SameContents }
        ensures rest { V.tells → IsAtRest V.seen V.moment V.may_leave (drives_of self.old)
            → IsAtRest V.seen V.moment V.may_leave (drives_of self.new) }
        ensures settles { V.tells → IfOk result (λ k. (n : ℕ) → first ≤ n → n < first + k
            → ⟦<Pair<V> as Blocks>⟧.settled self.new n) }
        ensures uncounted { operations_of self.new ≡ operations_of self.old }
        ensures later { LaterFaults (V.faults (drives_of self.old)) (V.faults (drives_of self.new))
            (V.last_fault (drives_of self.old)) (V.last_fault (drives_of self.new)) }
        ensures size { V.size (drives_of self.new) ≡ V.size (drives_of self.old) }
    {
        match count_settled(&mut self.drives, first.get(), count, run) {
            Ok(settled) => Ok(settled),
            Err(half) => Err(PairFault::ReadFault { half }),
        }
    }

    /// Reads the content of a block while a store is mended. It does not count as an operation, and
    /// nothing becomes pending by it. After an error the buffer holds anything.
    pub fn look(&mut self, n: BlockNo, into: &mut Block) -> Result<(), PairFault>
        requires { n < V.size (drives_of self.old) }
        ensures only { IfErr result (IsReadFault n) }
        ensures given { V.tells → ⟦<Pair<V> as Blocks>⟧.settled self.old n
            → OnOk result (⟦<Pair<V> as Blocks>⟧.content self.old n ≡ Some into.new) }
        ensures reads { V.tells → ⟦<Pair<V> as Blocks>⟧.reads self.old self.new n result into.new }
        ensures closed { V.tells → IsErrOf result (PairFault.BothClosed n)
            → ⟦<Pair<V> as Blocks>⟧.content self.old n ≡ None }
        ensures unread { (h : Half) → IsErrOf result (PairFault.ReadFault h)
            → IsUnread (V.faults (drives_of self.old)) (V.faults (drives_of self.new))
            (V.last_fault (drives_of self.new)) (V.moment (drives_of self.new))
            (V.tells → ⟦<Pair<V> as Blocks>⟧.settled self.old n
            → ⟦<Pair<V> as Blocks>⟧.content self.old n ≡ None) h }
        ensures contents { V.tells → SameContents (⟦<Pair<V> as Blocks>⟧.content self.old)
            (⟦<Pair<V> as Blocks>⟧.content self.new) }
        ensures kept { V.tells → (k : ℕ)
            → ⟦<Pair<V> as Blocks>⟧.settled self.new k ↔ ⟦<Pair<V> as Blocks>⟧.settled self.old k }
        ensures images { Changes ⟦<Pair<V> as Blocks>⟧.moment ⟦<Pair<V> as Blocks>⟧.may_leave
            self.old self.new SameContents }
        ensures rest { V.tells → IsAtRest V.seen V.moment V.may_leave (drives_of self.old)
            → IsAtRest V.seen V.moment V.may_leave (drives_of self.new) }
        ensures uncounted { operations_of self.new ≡ operations_of self.old }
        ensures later { LaterFaults (V.faults (drives_of self.old)) (V.faults (drives_of self.new))
            (V.last_fault (drives_of self.old)) (V.last_fault (drives_of self.new)) }
        ensures size { V.size (drives_of self.new) ≡ V.size (drives_of self.old) }
    {
        read_content(&mut self.drives, n, into)
    }
}

impl<V: Drives> Blocks for Pair<V> {
    ghost tells = { V.tells };

    ghost size = { λ p. V.size p.drives };

    ghost moment = { λ p. V.moment p.drives };

    ghost count = { λ p. p.operations };

    ghost content = { λ p. content_of (halves_seen V.seen p.drives) };

    ghost may_leave = { λ p. ContentsLeft V.may_leave p.drives };

    ghost settled = { λ p n. IsSettled n (halves_seen V.seen p.drives) };

    ghost settled_always = { λ p n. IsSettledAlways V.may_leave p.drives (V.moment p.drives) n };

    ghost rest = { λ p. IsAtRest V.seen V.moment V.may_leave p.drives };

    ghost reads = { λ p q n result bytes. IsPairRead n (halves_seen V.seen p.drives)
        (λ h. HasFailed (V.faults p.drives h) (V.faults q.drives h) (V.last_fault q.drives h))
        result bytes };

    ghost faults = { λ p. V.faults p.drives };

    ghost last_fault = { λ p. V.last_fault p.drives };

    fn blocks(&self) -> u32 {
        self.drives.blocks()
    }

    fn now(&self) -> u64 {
        self.drives.now()
    }

    fn operations(&self) -> u64 {
        self.operations
    }

    fn read(&mut self, n: BlockNo, into: &mut Block) -> Result<(), PairFault> {
        self.operations = self.operations.saturating_add(1);
        read_content(&mut self.drives, n, into)
    }

    fn write(&mut self, n: BlockNo, body: &Block) -> Result<(), PairFault> {
        self.operations = self.operations.saturating_add(1);
        write_content(&mut self.drives, n, body)
    }

    fn test_and_set(&mut self, n: BlockNo, next: BlockNo) -> Result<Tas, PairFault> {
        self.operations = self.operations.saturating_add(1);
        let mut block = [0; 1024];
        read_content(&mut self.drives, n, &mut block)?;
        match set_commit(&mut block, next) {
            Ok(Tas::Set) => {
                write_content(&mut self.drives, n, &block)?;
                Ok(Tas::Set)
            }
            Ok(taken) => Ok(taken),
            Err(e) => Err(PairFault::BadPage {
                block: n,
                why: e.why,
            }),
        }
    }

    fn clear_members(&mut self, n: BlockNo) -> Result<(), PairFault> {
        self.operations = self.operations.saturating_add(1);
        let mut block = [0; 1024];
        read_content(&mut self.drives, n, &mut block)?;
        match drop_members(&mut block) {
            Ok(()) => write_content(&mut self.drives, n, &block),
            Err(e) => Err(PairFault::BadPage {
                block: n,
                why: e.why,
            }),
        }
    }

    ghost use Rattle.std.proofs.Common.{sym, ◌∙◌};
    ghost use Rattle.pair_store.specs.PairLaws.{content_bytes, content_whole, left_content, rest_content, rest_settled};
    ghost use Rattle.pair_store.specs.PairLaws.{settled_content, settled_now};

    ghost some = { λ p. V.some p.drives };

    ghost clock = { λ p. V.clock p.drives };

    ghost fault_past = { λ p. V.fault_past p.drives };

    ghost whole = { λ p n body tells low is. content_whole n body (halves_seen V.seen p.drives)
        (V.size p.drives) (V.whole p.drives Half.A tells) (V.whole p.drives Half.B tells) low is };

    ghost bytes = { λ p n body tells is. content_bytes n body (halves_seen V.seen p.drives)
        (V.seen_bytes p.drives Half.A tells) (V.seen_bytes p.drives Half.B tells) is };

    ghost left_bytes = { λ p t f n body left is. content_bytes n body left.0
        (V.left_bytes p.drives Half.A t left.0.a left.1.0)
        (V.left_bytes p.drives Half.B t left.0.b left.1.1) (sym (left.2 n) ∙ is) };

    ghost left_read = { λ p tells. left_content V.may_leave p.drives (V.moment p.drives)
        (halves_seen V.seen p.drives) (V.left_read p.drives Half.A tells)
        (V.left_read p.drives Half.B tells) };

    ghost rest_left = { λ p f _ rest left.
        rest_content V.seen V.moment V.may_leave p.drives rest f left };

    ghost rest_settled = { λ p n _ rest settled.
        rest_settled V.seen V.moment V.may_leave p.drives rest n settled };

    ghost settled_now = { λ p n tells settled. settled_now V.may_leave p.drives (V.moment p.drives)
        (halves_seen V.seen p.drives) (V.left_read p.drives Half.A tells)
        (V.left_read p.drives Half.B tells) n settled };

    ghost settled_left = { λ p n f tells settled left. settled_content V.may_leave p.drives
        (V.moment p.drives) (halves_seen V.seen p.drives) (V.left_read p.drives Half.A tells)
        (V.left_read p.drives Half.B tells) n f settled left };
}
