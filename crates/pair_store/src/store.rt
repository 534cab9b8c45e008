// Blocks as the layers above see them: the content of each, and what a crash at each moment may
// leave of all of them.
ghost use Rattle.std.specs.Prelude.{◌≡◌, ◌≢◌, ◌⊎◌, ◌↔◌, ℕ, ◌+◌, ◌-◌, ◌*◌, ◌^◌, ◌<◌, ◌≤◌, List, Option, None, Some, Result, length, slice_index, IfErr, IsErrOf, OnOk};
ghost use Rattle.drives.specs.declared.device.Half.{Half};
ghost use Rattle.drives.specs.Bytes.{IsBytes};
ghost use Rattle.drives.specs.Changes.{Changes};
ghost use Rattle.pair_store.specs.declared.fault.PairFault.{PairFault};
ghost use Rattle.pair_store.specs.Answers.{IsCleared, IsFaultAt, IsRefused, IsReadFault, IsSet, IsTested, IsUntorn, IsWriteFault, LeftAlone};
ghost use Rattle.pair_store.specs.Blocks.{CountsOne, OldOrNew, SameContents, SameOthers};
ghost use Rattle.pair_store.specs.Faults.{IsStopped, IsUnread, LaterFaults};
ghost use Rattle.pair_store.specs.Pages.{with_commit, without_members};

use crate::Block;
use crate::fault::PairFault;
use crate::outcome::Tas;
use afs_base::BlockNo;
use drives::Half;

/// A store of blocks of 1024 bytes, each of which changes as a whole, wherever a crash falls.
///
/// A block has content where it was written, and none where it is closed. It is settled where a
/// read can give nothing but its content, whichever half is read. What is said of images of block n
/// holds where n is settled in every image as the call begins.
pub trait Blocks {
    /// Whether the store tells its contents: always in memory, never over files.
    ghost tells: { Type 0 };

    /// How many blocks there are.
    ghost size: { Self → ℕ };

    /// How many calls of the drives have returned.
    ghost moment: { Self → ℕ };

    /// How many operations there were, a number that stands still at its last value.
    ghost count: { Self → ℕ };

    /// The content of each block, or none.
    ghost content: { Self → ℕ → Option (List ℕ) };

    /// The contents of all blocks that a crash at a moment may leave.
    ghost may_leave: { Self → ℕ → (ℕ → Option (List ℕ)) → Type 0 };

    /// A block is settled.
    ghost settled: { Self → ℕ → Type 0 };

    /// A block is settled in everything that a crash now may leave.
    ghost settled_always: { Self → ℕ → Type 0 };

    /// Nothing is pending: a crash now leaves the contents that reads give, and no others.
    ghost rest: { Self → Type 0 };

    /// What else is said of a read of a block, settled or not. By default nothing is.
    ghost reads: { Self → Self → ℕ → Result (Unit {0}) PairFault → List ℕ → Type 0 } = { λ _ _ _ _ _. Unit {0} };

    /// How often a half has failed, a number that stands still at its last value.
    ghost faults: { Self → Half → ℕ };

    /// The moment of a half's last fault, 0 before the first.
    ghost last_fault: { Self → Half → ℕ };

    /// The number of blocks, at least 1. It never changes.
    fn blocks(&self) -> u32
        ensures { result ≡ size self.now };

    /// How many calls of the drives have returned.
    fn now(&self) -> u64
        ensures { result ≡ moment self.now };

    /// How many of the four calls below were made; it stands still at 18446744073709551615.
    fn operations(&self) -> u64
        ensures { result ≡ count self.now };

    /// Reads the content of a block. After an error the buffer holds anything.
    fn read(&mut self, n: BlockNo, into: &mut Block) -> Result<(), PairFault>
        requires { n < size self.old }
        ensures only { IfErr result (IsReadFault n) }
        ensures given { tells → settled self.old n
            → OnOk result (content self.old n ≡ Some into.new) }
        ensures closed { tells → IsErrOf result (PairFault.BothClosed n)
            → content self.old n ≡ None }
        ensures unread { (h : Half) → IsErrOf result (PairFault.ReadFault h)
            → IsUnread (faults self.old) (faults self.new) (last_fault self.new) (moment self.new)
            (tells → settled self.old n → content self.old n ≡ None) h }

        ensures reads { tells → reads self.old self.new n result into.new }

        ensures same { tells → SameContents (content self.old) (content self.new) }
        ensures kept { tells → (k : ℕ) → settled self.new k ↔ settled self.old k }
        ensures kept_always { (k : ℕ) → settled_always self.new k ↔ settled_always self.old k }
        ensures images { Changes moment may_leave self.old self.new SameContents }
        ensures rest { tells → rest self.old → rest self.new }

        ensures counted { CountsOne (count self.old) (count self.new) }
        ensures later { LaterFaults (faults self.old) (faults self.new)
            (last_fault self.old) (last_fault self.new) }
        ensures size { size self.new ≡ size self.old };

    /// Writes a block with an open gate. After an error the store is used again only when the block
    /// was mended.
    fn write(&mut self, n: BlockNo, body: &Block) -> Result<(), PairFault>
        requires block { n < size self.old }
        requires open { slice_index body.now 0 ≡ 165 }
        ensures only { IfErr result IsWriteFault }
        ensures stopped { (h : Half) → IsErrOf result (PairFault.WriteFault h)
            → IsStopped (faults self.old) (faults self.new)
            (last_fault self.new) (moment self.new) h }

        ensures written { tells → OnOk result (content self.new n ≡ Some body.now) }
        // Whether it ends well or a half fails, what reads give of a settled block is its old
        // content or its new one.
        ensures either { tells → settled self.old n
            → OldOrNew n body.now (content self.old) (content self.new) }
        ensures others { tells → SameOthers n (content self.old) (content self.new) }
        ensures settles { tells → OnOk result (settled self.new n) }
        ensures settles_always { tells → OnOk result (settled_always self.new n) }
        ensures settles_only { tells → (k : ℕ) → k ≢ n → settled self.new k → settled self.old k }
        ensures kept { tells → OnOk result ((k : ℕ) → k ≢ n → settled self.old k
            → settled self.new k) }
        ensures kept_always { OnOk result ((k : ℕ) → k ≢ n → settled_always self.old k
            → settled_always self.new k) }

        ensures images { tells → settled_always self.old n
            → Changes moment may_leave self.old self.new (OldOrNew n body.now) }
        // These two hold whether or not the block was settled.
        ensures images_others { Changes moment may_leave self.old self.new (SameOthers n) }
        ensures images_done { tells → OnOk result ((f : ℕ → Option (List ℕ))
            → may_leave self.new (moment self.new) f → f n ≡ Some body.now) }
        // Whatever was pending before.
        ensures rest { tells → OnOk result (rest self.new) }

        ensures counted { CountsOne (count self.old) (count self.new) }
        ensures later { LaterFaults (faults self.old) (faults self.new)
            (last_fault self.old) (last_fault self.new) }
        ensures size { size self.new ≡ size self.old };

    /// Sets the commit reference of a version page where it is nil, by one write; else it tells
    /// which block is named.
    fn test_and_set(&mut self, n: BlockNo, next: BlockNo) -> Result<Tas, PairFault>
        requires block { n < size self.old }
        requires named { 0 < next }
        ensures only { IfErr result (IsFaultAt n) }
        ensures answer { tells → settled self.old n → IsTested n (content self.old n) result }
        ensures closed { tells → IsErrOf result (PairFault.BothClosed n)
            → content self.old n ≡ None }
        ensures unread { (h : Half) → IsErrOf result (PairFault.ReadFault h)
            → IsUnread (faults self.old) (faults self.new) (last_fault self.new) (moment self.new)
            (tells → settled self.old n → content self.old n ≡ None) h }
        ensures stopped { (h : Half) → IsErrOf result (PairFault.WriteFault h)
            → IsStopped (faults self.old) (faults self.new)
            (last_fault self.new) (moment self.new) h }

        ensures written { tells → settled self.old n → (body : List ℕ)
            → content self.old n ≡ Some body → IsSet result
            → content self.new n ≡ Some (with_commit next body) }
        ensures either { tells → settled self.old n → (body : List ℕ)
            → content self.old n ≡ Some body
            → OldOrNew n (with_commit next body) (content self.old) (content self.new) }
        ensures unwritten { tells → LeftAlone result
            → SameContents (content self.old) (content self.new) }
        ensures others { tells → SameOthers n (content self.old) (content self.new) }
        ensures settles { tells → IsSet result → settled self.new n }
        ensures settles_always { tells → IsSet result → settled_always self.new n }
        ensures settles_only { tells → (k : ℕ) → (k ≢ n) ⊎ LeftAlone result → settled self.new k
            → settled self.old k }
        ensures kept { tells → IsUntorn result → (k : ℕ) → (k ≢ n) ⊎ LeftAlone result
            → settled self.old k → settled self.new k }
        ensures kept_always { IsUntorn result → (k : ℕ) → (k ≢ n) ⊎ LeftAlone result
            → settled_always self.old k → settled_always self.new k }

        ensures images { tells → settled_always self.old n → (body : List ℕ)
            → content self.old n ≡ Some body
            → Changes moment may_leave self.old self.new (OldOrNew n (with_commit next body)) }
        ensures images_unwritten { LeftAlone result
            → Changes moment may_leave self.old self.new SameContents }
        ensures images_others { Changes moment may_leave self.old self.new (SameOthers n) }
        ensures images_done { tells → settled self.old n → (body : List ℕ)
            → content self.old n ≡ Some body → IsSet result → (f : ℕ → Option (List ℕ))
            → may_leave self.new (moment self.new) f → f n ≡ Some (with_commit next body) }
        ensures rest { tells → IsSet result → rest self.new }
        ensures rest_kept { tells → LeftAlone result → rest self.old → rest self.new }

        ensures counted { CountsOne (count self.old) (count self.new) }
        ensures later { LaterFaults (faults self.old) (faults self.new)
            (last_fault self.old) (last_fault self.new) }
        ensures size { size self.new ≡ size self.old };

    /// Writes a version page anew with no members.
    fn clear_members(&mut self, n: BlockNo) -> Result<(), PairFault>
        requires { n < size self.old }
        ensures only { IfErr result (IsFaultAt n) }
        ensures answer { tells → settled self.old n → IsCleared n (content self.old n) result }
        ensures closed { tells → IsErrOf result (PairFault.BothClosed n)
            → content self.old n ≡ None }
        ensures unread { (h : Half) → IsErrOf result (PairFault.ReadFault h)
            → IsUnread (faults self.old) (faults self.new) (last_fault self.new) (moment self.new)
            (tells → settled self.old n → content self.old n ≡ None) h }
        ensures stopped { (h : Half) → IsErrOf result (PairFault.WriteFault h)
            → IsStopped (faults self.old) (faults self.new)
            (last_fault self.new) (moment self.new) h }

        ensures written { tells → settled self.old n → (body : List ℕ)
            → content self.old n ≡ Some body
            → OnOk result (content self.new n ≡ Some (without_members body)) }
        ensures either { tells → settled self.old n → (body : List ℕ)
            → content self.old n ≡ Some body
            → OldOrNew n (without_members body) (content self.old) (content self.new) }
        ensures unwritten { tells → IsRefused result
            → SameContents (content self.old) (content self.new) }
        ensures others { tells → SameOthers n (content self.old) (content self.new) }
        ensures settles { tells → OnOk result (settled self.new n) }
        ensures settles_always { tells → OnOk result (settled_always self.new n) }
        ensures settles_only { tells → (k : ℕ) → (k ≢ n) ⊎ IsRefused result → settled self.new k
            → settled self.old k }
        ensures kept { tells → IsUntorn result → (k : ℕ) → (k ≢ n) ⊎ IsRefused result
            → settled self.old k → settled self.new k }
        ensures kept_always { IsUntorn result → (k : ℕ) → (k ≢ n) ⊎ IsRefused result
            → settled_always self.old k → settled_always self.new k }

        ensures images { tells → settled_always self.old n → (body : List ℕ)
            → content self.old n ≡ Some body
            → Changes moment may_leave self.old self.new (OldOrNew n (without_members body)) }
        ensures images_unwritten { IsRefused result
            → Changes moment may_leave self.old self.new SameContents }
        ensures images_others { Changes moment may_leave self.old self.new (SameOthers n) }
        ensures images_done { tells → settled self.old n → (body : List ℕ)
            → content self.old n ≡ Some body
            → OnOk result ((f : ℕ → Option (List ℕ)) → may_leave self.new (moment self.new) f
            → f n ≡ Some (without_members body)) }
        ensures rest { tells → OnOk result (rest self.new) }
        ensures rest_kept { tells → IsRefused result → rest self.old → rest self.new }

        ensures counted { CountsOne (count self.old) (count self.new) }
        ensures later { LaterFaults (faults self.old) (faults self.new)
            (last_fault self.old) (last_fault self.new) }
        ensures size { size self.new ≡ size self.old };

    /// There is a block.
    ghost some: { (s : Self) → 0 < size s };

    /// The clock fits its word.
    ghost clock: { (s : Self) → moment s < 2 ^ 64 };

    /// No fault was later than now.
    ghost fault_past: { (s : Self) (h : Half) → last_fault s h ≤ moment s };

    /// A content is a whole block with an open gate.
    ghost whole: { (s : Self) (n : ℕ) (body : List ℕ) → tells → n < size s
        → content s n ≡ Some body → (length body ≡ 1024) × (slice_index body 0 ≡ 165) };

    /// A content is bytes.
    ghost bytes: { (s : Self) (n : ℕ) (body : List ℕ)
        → tells → content s n ≡ Some body → IsBytes body };

    /// So is one that a crash at any moment leaves.
    ghost left_bytes: { (s : Self) (t : ℕ) (f : ℕ → Option (List ℕ)) (n : ℕ) (body : List ℕ)
        → may_leave s t f → f n ≡ Some body → IsBytes body };

    /// A crash may leave the contents that reads give.
    ghost left_read: { (s : Self) → tells → may_leave s (moment s) (content s) };

    /// Where nothing is pending, it leaves no others.
    ghost rest_left: { (s : Self) (f : ℕ → Option (List ℕ))
        → tells → rest s → may_leave s (moment s) f → SameContents (content s) f };

    /// And what is settled then is settled in everything that a crash may leave.
    ghost rest_settled: { (s : Self) (n : ℕ) → tells → rest s → settled s n → settled_always s n };

    /// What is settled in everything that a crash may leave is settled.
    ghost settled_now: { (s : Self) (n : ℕ) → tells → settled_always s n → settled s n };

    /// And a crash then leaves its content and no other.
    ghost settled_left: { (s : Self) (n : ℕ) (f : ℕ → Option (List ℕ))
        → tells → settled_always s n → may_leave s (moment s) f → f n ≡ content s n };
}
