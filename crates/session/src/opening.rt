ghost use Rattle.std.specs.Prelude.{◌≡◌, ◌+◌, ◌<◌, ◌≤◌, ℕ, length, map, slice_get, Some};
ghost use Rattle.std.specs.Prelude.{IfOk, IfErr, MatchOption};
ghost use Rattle.block_map.specs.States.{held_count};
ghost use Rattle.session.specs.Names.{HasNoHead};
ghost use Rattle.session.specs.Opening.{AreGivenBack, IsGivenBack, IsOver, IsWithin, OpenedRunBegins, TellsSerials, beyond_root, told_of};
ghost use Rattle.session.specs.Safe.{IsSafeStore};
ghost use Rattle.session.specs.Shared.{room_of};

// How what the clients of a run share begins and ends, and what it tells.

use crate::common::Common;
use crate::log::Log;
use afs_base::{ClientNo, Head, MAX_CLIENTS, Memory};
use block_map::BlockMap;
use pair_store::Blocks;
use recovery::OpenedOver;
use service_model::Journal;
use std::alloc::Global;
use super_files::Locks;

/// What is told of a file, unless it is told that the file lies in block 0, where none does.
fn beyond_root(head: Option<Head>) -> Option<Head>
    ensures { result ≡ beyond_root head }
{
    let told = head?;
    if told.block.get() == 0 {
        return None;
    }
    Some(told)
}

/// The same of all files.
fn all_beyond_root(heads: &mut Vec<Option<Head>>)
    ensures { heads.new.items ≡ map beyond_root heads.old.items }
{
    for head in heads.iter_mut() {
        *head = beyond_root(*head);
    }
}

/// Gives back what the client at a place, from 0, holds.
fn give_back_at(map: &mut BlockMap, place: u8)
    requires { place < 16 }
    ensures { IsGivenBack (place + 1) map.old map.new }
{
    match ClientNo::of(place + 1) {
        Ok(client) => map.give_back(client),
        Err(_) => unreachable!(),
    }
}

/// Gives back what any client holds: as a run begins, none holds a block.
fn give_all_back(map: &mut BlockMap)
    ensures { AreGivenBack 16 map.old map.new }
{
    for place in 0..MAX_CLIENTS {
        give_back_at(map, place);
    }
}

/// Runs nothing. Its contract: over a store as an opening left it a run stands in a scene before
/// its first turn, and each client that has not begun its script has of its own what it needs.
pub fn run_begins<B: Blocks>()
    ensures { B.tells → OpenedRunBegins B.Blocks }
{}

impl<B: Blocks> Common<B> {
    /// What the clients of a run share over a store that was opened, with room for so many entries.
    /// Where there is no memory for them the store comes back.
    pub fn over(alloc: Global, opened: OpenedOver<B>, room: usize) -> Result<Common<B>, (B, Memory)>
        requires { IsWithin B.size opened }
        ensures over { IfOk result (IsOver opened) }
        ensures safe { IfOk result (IsSafeStore B.size) }
        ensures held { IfOk result (λ c. (k : ℕ) → 1 ≤ k → k ≤ 16 → held_count k c.map ≡ 0) }
        ensures room { IfOk result (λ c. room ≤ room_of c) }
        ensures back { IfErr result (λ e. e.0 ≡ opened.store) }
    {
        let OpenedOver {
            store,
            table,
            map,
            heads,
            since: _,
        } = opened;
        let mut heads = heads;
        all_beyond_root(&mut heads);
        let mut map = map;
        give_all_back(&mut map);
        match Log::make(alloc, room) {
            Ok(log) => Ok(Common {
                store,
                map,
                locks: Locks::make(),
                table,
                heads,
                log,
            }),
            Err(memory) => Err((store, memory)),
        }
    }

    /// What the run did so far.
    pub fn journal(&self) -> &Journal
        ensures { result.now ≡ self.now.log.journal }
    {
        self.log.journal()
    }

    /// How many operations on blocks were made.
    pub fn operations(&self) -> u64
        ensures { result ≡ B.count self.now.store }
    {
        self.store.operations()
    }

    /// The serials of the first and of the last version that an object's file keeps, where the
    /// object is live.
    pub fn kept(&self, object: u32) -> Option<(u64, u64)>
        ensures { MatchOption result (HasNoHead self.now.heads.items object)
            (TellsSerials self.now.heads.items object) }
    {
        let head = self.head(object)?;
        Some((head.first, head.serial))
    }

    /// How many objects there are.
    pub fn objects(&self) -> usize
        ensures { result ≡ length (told_of self.now.heads.items) }
    {
        self.heads.len()
    }

    /// The same as `kept`, of the object at a place, from 0.
    pub fn serials(&self, place: usize) -> Option<(u64, u64)>
        requires { place < length (told_of self.now.heads.items) }
        ensures { slice_get (told_of self.now.heads.items) place ≡ Some result }
    {
        let head = self.heads[place]?;
        Some((head.first, head.serial))
    }

    /// The end of the run: its store, and what it did.
    pub fn end(self) -> (B, Journal)
        ensures { result ≡ (self.store, self.log.journal) }
    {
        let Common { store, log, .. } = self;
        (store, log.into_journal())
    }
}
