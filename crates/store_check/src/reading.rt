// A store of blocks that is read and not written.
ghost use Rattle.std.specs.Prelude.{◌≡◌, ◌<◌, ℕ, true, List, None, Some, IfErr, IsErrOf, OnOk};
ghost use Rattle.drives.specs.declared.device.Half.{Half};
ghost use Rattle.store_model.specs.Walk.{content_at};
ghost use Rattle.store_check.specs.Since.{OnlyRead, IsUnreadSince, is_past};
ghost use Rattle.pair_store.specs.declared.fault.PairFault.{PairFault};
ghost use Rattle.pair_store.specs.Answers.{IsReadFault};
ghost use Rattle.store_check.specs.Results.{refused_read};

use crate::refused::WalkRefused;
use afs_base::BlockNo;
use page_codec::Why;
use pair_store::{Block, Blocks, PairFault};
use std::marker::Model;
use std::snapshot::Snapshot;

/// A store, and as what it was given.
pub struct Reading<B: Blocks> {
    store: B,
    began: Snapshot<B>,
}

impl<B: Blocks> Model for Reading<B> {
    ghost use Rattle.store_check.specs.Since.{OnlyRead, ReadingValue};

    ghost Value = { ReadingValue B };

    ghost view = { λ r. record { store = r.store; began = r.began.value } };

    ghost invariant = { λ r. OnlyRead B.Blocks r.began.value r.store };
}

impl<B: Blocks> Reading<B> {
    ghost use Rattle.store_check.specs.declared.refused.WalkRefused.{WalkRefused};
    ghost use Rattle.store_check.specs.Results.{Walks};

    /// Begins to read a store.
    pub fn of(store: B) -> Reading<B>
        ensures store { result.store ≡ store }
        ensures began { result.began ≡ store }
    {
        let began = Snapshot::of(&store);
        Reading { store, began }
    }

    /// The store, of which blocks were read alone.
    pub fn into_store(self) -> B
        ensures store { result ≡ self.store }
        ensures only { OnlyRead B.Blocks self.began result }
    {
        let Reading { store, began: _ } = self;
        store
    }

    /// Reads the content of a block into a buffer.
    fn read_into(&mut self, n: BlockNo, into: &mut Block) -> Result<(), PairFault>
        requires { n < B.size self.old.began }
        ensures began { self.new.began ≡ self.old.began }
        ensures only { IfErr result (IsReadFault n) }
        ensures given { B.tells → B.settled self.old.began n
            → OnOk result (B.content self.old.began n ≡ Some into.new) }
        ensures closed { B.tells → IsErrOf result (PairFault.BothClosed n)
            → B.content self.old.began n ≡ None }
        // Where a call came after a fault of the half, the other half was read and found closed.
        ensures shut { B.tells → B.settled self.old.began n → (h : Half)
            → IsErrOf result (PairFault.ReadFault h) → is_past B.Blocks self.new.store h ≡ true
            → B.content self.old.began n ≡ None }
        ensures unread { (h : Half) → IsErrOf result (PairFault.ReadFault h)
            → IsUnreadSince B.Blocks self.old.began self.new.store h }
    {
        self.store.read(n, into)
    }

    /// Reads the content of a block.
    #[tactic(auto, unfolding(store_model::specs::Walk::content_at, store_model::specs::Walk::done, store_model::specs::Walk::refuse))]
    pub fn read(&mut self, n: BlockNo) -> Result<Block, WalkRefused>
        requires { n < B.size self.old.began }
        ensures began { self.new.began ≡ self.old.began }
        ensures walk { B.tells → B.settled self.old.began n → (places : List ℕ)
            → Walks (is_past B.Blocks self.new.store) (λ b. b) result
            (content_at n (B.content self.old.began n) places) places }
        ensures unread { (h : Half) → IsErrOf result (WalkRefused.ReadFault h)
            → IsUnreadSince B.Blocks self.old.began self.new.store h }
    {
        let mut block = [0; 1024];
        match self.read_into(n, &mut block) {
            Ok(()) => Ok(block),
            Err(fault) => Err(refused_read(n, fault)),
        }
    }
}

/// What a walk answers where block `n` could not be read: the fault of the half, or that the block is closed.
pub fn refused_read(n: BlockNo, fault: PairFault) -> WalkRefused
    requires { IsReadFault n fault }
    ensures { result ≡ refused_read n fault }
{
    match fault {
        PairFault::ReadFault { half } => WalkRefused::ReadFault { half },
        _ => WalkRefused::BadStore {
            block: n,
            why: Why::Closed,
        },
    }
}
