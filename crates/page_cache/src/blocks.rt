//! A cache as a store of blocks. Each call has the trait's clauses, and says besides what becomes of the list.
ghost use Rattle.std.specs.Prelude.{◌≡◌, ◌≢◌, ◌⊎◌, ◌↔◌, ℕ, ◌<◌, List, Option, None, Some, true, length, slice_index, IfErr, IsErrOf, IsOk, OnOk};
ghost use Rattle.drives.specs.declared.device.Half.{Half};
ghost use Rattle.drives.specs.Changes.{Changes};
ghost use Rattle.pair_store.specs.declared.fault.PairFault.{PairFault};
ghost use Rattle.pair_store.specs.Answers.{IsCleared, IsFaultAt, IsRefused, IsReadFault, IsSet, IsTested, IsUntorn, IsWriteFault, LeftAlone};
ghost use Rattle.pair_store.specs.Blocks.{CountsOne, OldOrNew, SameContents, SameOthers};
ghost use Rattle.pair_store.specs.Faults.{IsStopped, IsUnread, LaterFaults};
ghost use Rattle.pair_store.specs.Pages.{with_commit, without_members};
ghost use Rattle.page_cache.specs.Listing.{is_listed, take_out};
ghost use Rattle.page_cache.specs.Caches.{inner_of, list_of, operations_of};
ghost use Rattle.page_cache.specs.Caching.{after_read, after_write, after_test};

use crate::cached::Cached;
use afs_base::BlockNo;
use pair_store::{Block, Blocks, PairFault, Tas};

impl<B: Blocks> Blocks for Cached<B> {
    ghost tells = { B.tells };

    ghost size = { λ c. B.size c.inner };

    ghost moment = { λ c. B.moment c.inner };

    ghost count = { λ c. c.operations };

    ghost content = { λ c. B.content c.inner };

    ghost may_leave = { λ c. B.may_leave c.inner };

    ghost settled = { λ c. B.settled c.inner };

    ghost settled_always = { λ c. B.settled_always c.inner };

    ghost rest = { λ c. B.rest c.inner };

    ghost faults = { λ c. B.faults c.inner };

    ghost last_fault = { λ c. B.last_fault c.inner };

    fn blocks(&self) -> u32 {
        self.inner.blocks()
    }

    fn now(&self) -> u64 {
        self.inner.now()
    }

    fn operations(&self) -> u64 {
        self.operations
    }

    fn read(&mut self, n: BlockNo, into: &mut Block) -> Result<(), PairFault>
        requires { n < B.size (inner_of self.old) }
        ensures only { IfErr result (IsReadFault n) }
        ensures given { B.tells → B.settled (inner_of self.old) n
            → OnOk result (B.content (inner_of self.old) n ≡ Some into.new) }
        ensures closed { B.tells → IsErrOf result (PairFault.BothClosed n)
            → B.content (inner_of self.old) n ≡ None }
        ensures unread { (h : Half) → IsErrOf result (PairFault.ReadFault h)
            → IsUnread (B.faults (inner_of self.old)) (B.faults (inner_of self.new))
            (B.last_fault (inner_of self.new)) (B.moment (inner_of self.new))
            (B.tells → B.settled (inner_of self.old) n → B.content (inner_of self.old) n ≡ None) h }

        ensures same { B.tells
            → SameContents (B.content (inner_of self.old)) (B.content (inner_of self.new)) }
        ensures kept { B.tells → (k : ℕ)
            → B.settled (inner_of self.new) k ↔ B.settled (inner_of self.old) k }
        ensures kept_always { (k : ℕ)
            → B.settled_always (inner_of self.new) k ↔ B.settled_always (inner_of self.old) k }
        ensures images { Changes B.moment B.may_leave (inner_of self.old)
            (inner_of self.new) SameContents }
        ensures rest { B.tells → B.rest (inner_of self.old) → B.rest (inner_of self.new) }

        ensures counted { CountsOne (operations_of self.old) (operations_of self.new) }
        ensures later { LaterFaults (B.faults (inner_of self.old)) (B.faults (inner_of self.new))
            (B.last_fault (inner_of self.old)) (B.last_fault (inner_of self.new)) }
        ensures size { B.size (inner_of self.new) ≡ B.size (inner_of self.old) }
        ensures hit { is_listed n (list_of self.old) ≡ true
            → IsOk result × (inner_of self.new ≡ inner_of self.old) }
        ensures listed { list_of self.new ≡ after_read n into.new result (list_of self.old) }
    {
        self.operations = self.operations.saturating_add(1);
        if self.frames.find(n, into) {
            return Ok(());
        }
        self.inner.read(n, into)?;
        self.frames.put(n, into);
        Ok(())
    }

    fn write(&mut self, n: BlockNo, body: &Block) -> Result<(), PairFault>
        requires block { n < B.size (inner_of self.old) }
        requires open { slice_index body.now 0 ≡ 165 }
        ensures only { IfErr result IsWriteFault }
        ensures stopped { (h : Half) → IsErrOf result (PairFault.WriteFault h)
            → IsStopped (B.faults (inner_of self.old)) (B.faults (inner_of self.new))
            (B.last_fault (inner_of self.new)) (B.moment (inner_of self.new)) h }

        ensures written { B.tells → OnOk result (B.content (inner_of self.new) n ≡ Some body.now) }
        // Whether it ends well or a half fails, what reads give of a settled block is its old
        // content or its new one.
        ensures either { B.tells → B.settled (inner_of self.old) n
            → OldOrNew n body.now (B.content (inner_of self.old)) (B.content (inner_of self.new)) }
        ensures others { B.tells
            → SameOthers n (B.content (inner_of self.old)) (B.content (inner_of self.new)) }
        ensures settles { B.tells → OnOk result (B.settled (inner_of self.new) n) }
        ensures settles_always { B.tells → OnOk result (B.settled_always (inner_of self.new) n) }
        ensures settles_only { B.tells → (k : ℕ) → k ≢ n → B.settled (inner_of self.new) k
            → B.settled (inner_of self.old) k }
        ensures kept { B.tells → OnOk result ((k : ℕ) → k ≢ n → B.settled (inner_of self.old) k
            → B.settled (inner_of self.new) k) }
        ensures kept_always { OnOk result ((k : ℕ) → k ≢ n → B.settled_always (inner_of self.old) k
            → B.settled_always (inner_of self.new) k) }

        ensures images { B.tells → B.settled_always (inner_of self.old) n
            → Changes B.moment B.may_leave (inner_of self.old) (inner_of self.new)
            (OldOrNew n body.now) }
        // These two hold whether or not the block was settled.
        ensures images_others { Changes B.moment B.may_leave (inner_of self.old)
            (inner_of self.new) (SameOthers n) }
        ensures images_done { B.tells → OnOk result ((f : ℕ → Option (List ℕ))
            → B.may_leave (inner_of self.new) (B.moment (inner_of self.new)) f
            → f n ≡ Some body.now) }
        // Whatever was pending before.
        ensures rest { B.tells → OnOk result (B.rest (inner_of self.new)) }

        ensures counted { CountsOne (operations_of self.old) (operations_of self.new) }
        ensures later { LaterFaults (B.faults (inner_of self.old)) (B.faults (inner_of self.new))
            (B.last_fault (inner_of self.old)) (B.last_fault (inner_of self.new)) }
        ensures size { B.size (inner_of self.new) ≡ B.size (inner_of self.old) }
        ensures listed { list_of self.new ≡ after_write n body.now result (list_of self.old) }
    {
        self.operations = self.operations.saturating_add(1);
        match self.inner.write(n, body) {
            Ok(()) => {
                self.frames.put(n, body);
                Ok(())
            }
            Err(fault) => {
                self.frames.take_out(n);
                Err(fault)
            }
        }
    }

    fn test_and_set(&mut self, n: BlockNo, next: BlockNo) -> Result<Tas, PairFault>
        requires block { n < B.size (inner_of self.old) }
        requires named { 0 < next }
        ensures only { IfErr result (IsFaultAt n) }
        ensures answer { B.tells → B.settled (inner_of self.old) n
            → IsTested n (B.content (inner_of self.old) n) result }
        ensures closed { B.tells → IsErrOf result (PairFault.BothClosed n)
            → B.content (inner_of self.old) n ≡ None }
        ensures unread { (h : Half) → IsErrOf result (PairFault.ReadFault h)
            → IsUnread (B.faults (inner_of self.old)) (B.faults (inner_of self.new))
            (B.last_fault (inner_of self.new)) (B.moment (inner_of self.new))
            (B.tells → B.settled (inner_of self.old) n → B.content (inner_of self.old) n ≡ None) h }
        ensures stopped { (h : Half) → IsErrOf result (PairFault.WriteFault h)
            → IsStopped (B.faults (inner_of self.old)) (B.faults (inner_of self.new))
            (B.last_fault (inner_of self.new)) (B.moment (inner_of self.new)) h }

        ensures written { B.tells → B.settled (inner_of self.old) n → (body : List ℕ)
            → B.content (inner_of self.old) n ≡ Some body → IsSet result
            → B.content (inner_of self.new) n ≡ Some (with_commit next body) }
        ensures either { B.tells → B.settled (inner_of self.old) n → (body : List ℕ)
            → B.content (inner_of self.old) n ≡ Some body
            → OldOrNew n (with_commit next body) (B.content (inner_of self.old))
            (B.content (inner_of self.new)) }
        ensures unwritten { B.tells → LeftAlone result
            → SameContents (B.content (inner_of self.old)) (B.content (inner_of self.new)) }
        ensures others { B.tells
            → SameOthers n (B.content (inner_of self.old)) (B.content (inner_of self.new)) }
        ensures settles { B.tells → IsSet result → B.settled (inner_of self.new) n }
        ensures settles_always { B.tells → IsSet result → B.settled_always (inner_of self.new) n }
        ensures settles_only { B.tells → (k : ℕ) → (k ≢ n) ⊎ LeftAlone result
            → B.settled (inner_of self.new) k
            → B.settled (inner_of self.old) k }
        ensures kept { B.tells → IsUntorn result → (k : ℕ) → (k ≢ n) ⊎ LeftAlone result
            → B.settled (inner_of self.old) k → B.settled (inner_of self.new) k }
        ensures kept_always { IsUntorn result → (k : ℕ) → (k ≢ n) ⊎ LeftAlone result
            → B.settled_always (inner_of self.old) k → B.settled_always (inner_of self.new) k }

        ensures images { B.tells → B.settled_always (inner_of self.old) n → (body : List ℕ)
            → B.content (inner_of self.old) n ≡ Some body
            → Changes B.moment B.may_leave (inner_of self.old) (inner_of self.new) (OldOrNew n
            (with_commit next body)) }
        ensures images_unwritten { LeftAlone result
            → Changes B.moment B.may_leave (inner_of self.old) (inner_of self.new) SameContents }
        ensures images_others { Changes B.moment B.may_leave (inner_of self.old)
            (inner_of self.new) (SameOthers n) }
        ensures images_done { B.tells → B.settled (inner_of self.old) n → (body : List ℕ)
            → B.content (inner_of self.old) n ≡ Some body → IsSet result → (f : ℕ → Option (List ℕ))
            → B.may_leave (inner_of self.new) (B.moment (inner_of self.new)) f
            → f n ≡ Some (with_commit next body) }
        ensures rest { B.tells → IsSet result → B.rest (inner_of self.new) }
        ensures rest_kept { B.tells → LeftAlone result → B.rest (inner_of self.old)
            → B.rest (inner_of self.new) }

        ensures counted { CountsOne (operations_of self.old) (operations_of self.new) }
        ensures later { LaterFaults (B.faults (inner_of self.old)) (B.faults (inner_of self.new))
            (B.last_fault (inner_of self.old)) (B.last_fault (inner_of self.new)) }
        ensures size { B.size (inner_of self.new) ≡ B.size (inner_of self.old) }
        ensures listed { list_of self.new ≡ after_test n result (list_of self.old) }
    {
        self.operations = self.operations.saturating_add(1);
        let answer = self.inner.test_and_set(n, next);
        if !matches!(&answer, Ok(Tas::Taken { .. })) {
            self.frames.take_out(n);
        }
        answer
    }

    fn clear_members(&mut self, n: BlockNo) -> Result<(), PairFault>
        requires { n < B.size (inner_of self.old) }
        ensures only { IfErr result (IsFaultAt n) }
        ensures answer { B.tells → B.settled (inner_of self.old) n
            → IsCleared n (B.content (inner_of self.old) n) result }
        ensures closed { B.tells → IsErrOf result (PairFault.BothClosed n)
            → B.content (inner_of self.old) n ≡ None }
        ensures unread { (h : Half) → IsErrOf result (PairFault.ReadFault h)
            → IsUnread (B.faults (inner_of self.old)) (B.faults (inner_of self.new))
            (B.last_fault (inner_of self.new)) (B.moment (inner_of self.new))
            (B.tells → B.settled (inner_of self.old) n → B.content (inner_of self.old) n ≡ None) h }
        ensures stopped { (h : Half) → IsErrOf result (PairFault.WriteFault h)
            → IsStopped (B.faults (inner_of self.old)) (B.faults (inner_of self.new))
            (B.last_fault (inner_of self.new)) (B.moment (inner_of self.new)) h }

        ensures written { B.tells → B.settled (inner_of self.old) n → (body : List ℕ)
            → B.content (inner_of self.old) n ≡ Some body
            → OnOk result (B.content (inner_of self.new) n ≡ Some (without_members body)) }
        ensures either { B.tells → B.settled (inner_of self.old) n → (body : List ℕ)
            → B.content (inner_of self.old) n ≡ Some body
            → OldOrNew n (without_members body) (B.content (inner_of self.old))
            (B.content (inner_of self.new)) }
        ensures unwritten { B.tells → IsRefused result
            → SameContents (B.content (inner_of self.old)) (B.content (inner_of self.new)) }
        ensures others { B.tells
            → SameOthers n (B.content (inner_of self.old)) (B.content (inner_of self.new)) }
        ensures settles { B.tells → OnOk result (B.settled (inner_of self.new) n) }
        ensures settles_always { B.tells → OnOk result (B.settled_always (inner_of self.new) n) }
        ensures settles_only { B.tells → (k : ℕ) → (k ≢ n) ⊎ IsRefused result
            → B.settled (inner_of self.new) k
            → B.settled (inner_of self.old) k }
        ensures kept { B.tells → IsUntorn result → (k : ℕ) → (k ≢ n) ⊎ IsRefused result
            → B.settled (inner_of self.old) k → B.settled (inner_of self.new) k }
        ensures kept_always { IsUntorn result → (k : ℕ) → (k ≢ n) ⊎ IsRefused result
            → B.settled_always (inner_of self.old) k → B.settled_always (inner_of self.new) k }

        ensures images { B.tells → B.settled_always (inner_of self.old) n → (body : List ℕ)
            → B.content (inner_of self.old) n ≡ Some body
            → Changes B.moment B.may_leave (inner_of self.old) (inner_of self.new) (OldOrNew n
            (without_members body)) }
        ensures images_unwritten { IsRefused result
            → Changes B.moment B.may_leave (inner_of self.old) (inner_of self.new) SameContents }
        ensures images_others { Changes B.moment B.may_leave (inner_of self.old)
            (inner_of self.new) (SameOthers n) }
        ensures images_done { B.tells → B.settled (inner_of self.old) n → (body : List ℕ)
            → B.content (inner_of self.old) n ≡ Some body
            → OnOk result ((f : ℕ → Option (List ℕ))
            → B.may_leave (inner_of self.new) (B.moment (inner_of self.new)) f
            → f n ≡ Some (without_members body)) }
        ensures rest { B.tells → OnOk result (B.rest (inner_of self.new)) }
        ensures rest_kept { B.tells → IsRefused result → B.rest (inner_of self.old)
            → B.rest (inner_of self.new) }

        ensures counted { CountsOne (operations_of self.old) (operations_of self.new) }
        ensures later { LaterFaults (B.faults (inner_of self.old)) (B.faults (inner_of self.new))
            (B.last_fault (inner_of self.old)) (B.last_fault (inner_of self.new)) }
        ensures size { B.size (inner_of self.new) ≡ B.size (inner_of self.old) }
        ensures listed { list_of self.new ≡ take_out n (list_of self.old) }
    {
        self.operations = self.operations.saturating_add(1);
        let answer = self.inner.clear_members(n);
        self.frames.take_out(n);
        answer
    }

    ghost some = { λ c. B.some c.inner };

    ghost clock = { λ c. B.clock c.inner };

    ghost fault_past = { λ c. B.fault_past c.inner };

    ghost whole = { λ c. B.whole c.inner };

    ghost bytes = { λ c. B.bytes c.inner };

    ghost left_bytes = { λ c. B.left_bytes c.inner };

    ghost left_read = { λ c. B.left_read c.inner };

    ghost rest_left = { λ c. B.rest_left c.inner };

    ghost rest_settled = { λ c. B.rest_settled c.inner };

    ghost settled_now = { λ c. B.settled_now c.inner };

    ghost settled_left = { λ c. B.settled_left c.inner };
}
