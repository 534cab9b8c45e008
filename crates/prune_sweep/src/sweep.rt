ghost use Rattle.std.specs.Prelude.{◌≡◌, ◌<◌, ◌≤◌, ◌*◌, [], ◌∷◌, length, Some, None, IsSome, IfSome, IfNone, IfOk, OnOk, MatchOption};
ghost use Rattle.prune_sweep.specs.Marks.{left_of};
ghost use Rattle.prune_sweep.specs.Sweeps.{started, IsRefusedFor, to_give, found_blocks};
ghost use Rattle.prune_sweep.specs.Sweeping.{Begins, GoesOn, FindsFreed, KnowsReached};

use crate::mark::Mark;
use crate::marks::Marks;
use crate::progress::Progress;
use crate::room::SweepRoom;
use crate::stage::Stage;
use afs_base::{BlockNo, MAX_BLOCKS, MIN_BLOCKS, Memory};
use page_codec::{BadPage, Block};
use std::alloc::Global;
use std::marker::Model;

/// A walk over the versions of a file, from the first one on, which finds the blocks that no kept version has. It reads one page
/// at a time, and keeps a mark for each block. Contracts see how far it has come.
#[derive(Drop)]
pub struct Sweep {
    known: Progress,
    next: Option<BlockNo>,
    given: usize,
}

impl Model for Sweep {
    ghost use Rattle.prune_sweep.specs.Sweeps.{SweepState, IsSound};

    ghost Value = { SweepState };

    ghost view = { λ s. record { known = s.known; next = s.next; given = s.given } };

    ghost invariant = { λ s. IsSound (record { known = s.known; next = s.next; given = s.given }) };
}

impl Sweep {
    /// A sweep over a store of 2 to 65,536 blocks, of the file whose first version is in block `first`: up to the version with a serial,
    /// which stays, or of the whole file.
    pub fn start(
        alloc: Global,
        blocks: u32,
        first: BlockNo,
        upto: Option<u64>,
    ) -> Result<Sweep, Memory>
        requires least { MIN_BLOCKS ≤ blocks }
        requires most { blocks ≤ MAX_BLOCKS }
        requires named { 1 ≤ first }
        requires below { first < blocks }
        ensures started { IfOk result (λ sweep. sweep ≡ started blocks first upto) }
        ensures begins { IfOk result (λ sweep. Begins blocks first upto sweep) }
    {
        let room = Sweep::reserve(alloc, blocks)?;
        Ok(Sweep::start_in(room, first, upto))
    }

    /// Room for a sweep over a store of 2 to 65,536 blocks, which takes no memory then.
    pub fn reserve(alloc: Global, blocks: u32) -> Result<SweepRoom, Memory>
        requires least { MIN_BLOCKS ≤ blocks }
        requires most { blocks ≤ MAX_BLOCKS }
        ensures { IfOk result (λ room. room ≡ blocks) }
    {
        SweepRoom::make(alloc, blocks)
    }

    /// The same as `start`, in room that was reserved.
    pub fn start_in(room: SweepRoom, first: BlockNo, upto: Option<u64>) -> Sweep
        requires named { 1 ≤ first }
        requires below { first < room }
        ensures started { result ≡ started room first upto }
        ensures begins { Begins room first upto result }
        ensures most { left_of result.known.marks ≤ 2 * room }
    {
        let mut marks = room.marks;
        marks.clear();
        marks.set(first, Mark::Next);
        Sweep {
            known: Progress {
                marks,
                upto,
                stage: Stage::New,
                after: Some(first),
                reached: None,
            },
            next: Some(first),
            given: 0,
        }
    }

    /// The block that is to be read next; none where all were read.
    pub fn need(&self) -> Option<BlockNo>
        ensures value { result ≡ self.now.next }
        ensures within { IfSome result (λ n. n < length self.now.known.marks) }
        // No more reads are left than these, and each takes one.
        ensures left { IfSome result (λ _. 1 ≤ left_of self.now.known.marks) }
        ensures finds { IfNone result (FindsFreed self.now) }
    {
        self.next
    }

    /// Takes the bytes that were read from the block that is needed. A sweep that refused a block is only given up.
    pub fn feed(&mut self, block: &Block) -> Result<(), BadPage>
        requires { IsSome self.old.next }
        ensures causes { IsRefusedFor self.old block.now result }
        ensures left { OnOk result
            (left_of self.new.known.marks < left_of self.old.known.marks) }
        ensures goes { GoesOn self.old block.now result self.new }
        ensures blocks { length self.new.known.marks ≡ length self.old.known.marks }
    {
        let Some(at) = self.next else { unreachable!() };
        let result = self.known.read(at, block);
        self.next = self.known.next();
        result
    }

    /// The block of the version that stays; none before it was read, and where the whole file goes.
    pub fn upto_block(&self) -> Option<BlockNo>
        ensures value { result ≡ self.now.known.reached }
        ensures names { KnowsReached self.now.known }
    {
        self.known.reached
    }

    /// How many blocks no kept version has.
    pub fn freed(&self) -> u32
        requires { self.now.next ≡ None }
        ensures count { result ≡ length (found_blocks self.now) }
        ensures finds { FindsFreed self.now }
    {
        self.known.marks.found()
    }

    /// The next block that no kept version has, ascending; none when there is no further one.
    pub fn next_free(&mut self) -> Option<BlockNo>
        requires { self.old.next ≡ None }
        ensures given { MatchOption result
            ((to_give self.old ≡ []) × (self.new ≡ self.old))
            (λ n. to_give self.old ≡ n ∷ to_give self.new) }
        ensures same { self.new.known ≡ self.old.known }
        ensures done { self.new.next ≡ None }
    {
        let n = self.known.marks.found_behind(self.given)?;
        self.given = n.get() as usize + 1;
        Some(n)
    }

    /// The room, for the next sweep.
    pub fn end(self) -> SweepRoom
        ensures { result ≡ length self.known.marks }
    {
        SweepRoom {
            marks: self.known.marks,
        }
    }
}
