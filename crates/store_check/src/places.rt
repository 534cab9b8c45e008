// The places that a walk over a store found so far.
ghost use Rattle.std.specs.Prelude.{◌≡◌, ◌+◌, ◌<◌, ◌≤◌, ◌∷◌, [], false, nat_eq, length, IfOk};
ghost use Rattle.std.specs.List.{list_any};
ghost use Rattle.block_map.specs.States.{free_count};
ghost use Rattle.store_check.specs.Marks.{Marks};

use crate::listed::Listed;
use afs_base::{BlockNo, Memory};
use block_map::{BlockMap, BlockState};
use std::alloc::Global;
use std::marker::Model;

/// Which blocks of a store are places. Clauses see how many blocks there are, and the places, the newest first.
#[derive(Drop)]
pub struct Places {
    map: BlockMap,
    list: Listed,
    count: u32,
}

impl Model for Places {
    ghost use Rattle.std.specs.Prelude.{◌≡◌, ◌+◌, ◌≤◌, length};
    ghost use Rattle.block_map.specs.States.{free_count};
    ghost use Rattle.store_check.specs.Marks.{Marks, PlacesValue};

    ghost Value = { PlacesValue };

    ghost view = { λ p. record { count = p.count; list = p.list } };

    ghost invariant = { λ p. (length p.map ≡ p.count) × Marks p.list p.map
        × (free_count p.map + 1 + length p.list ≡ p.count) };
}

impl Places {
    /// No places yet, in a store of so many blocks.
    pub fn make(alloc: Global, blocks: u32) -> Result<Places, Memory>
        requires least { 2 ≤ blocks }
        requires most { blocks ≤ 65536 }
        ensures count { IfOk result (λ places. places.count ≡ blocks) }
        ensures list { IfOk result (λ places. places.list ≡ []) }
    {
        Ok(Places {
            map: BlockMap::make(alloc, blocks)?,
            list: Listed::nothing(),
            count: blocks,
        })
    }

    /// How many blocks the store has.
    pub fn count(&self) -> u32
        ensures { result ≡ self.now.count }
    {
        self.count
    }

    /// How many places there are, at most 65535.
    pub fn found(&self) -> u32
        ensures value { result ≡ length self.now.list }
        ensures most { result < 65536 }
    {
        self.count - 1 - self.map.free()
    }

    /// Whether the block is a place.
    pub fn has(&self, n: BlockNo) -> bool
        requires low { 0 < n }
        requires high { n < self.now.count }
        ensures { result ≡ list_any (nat_eq n) self.now.list }
    {
        match self.map.state(n) {
            BlockState::Kept => true,
            BlockState::Free | BlockState::Held(_) => false,
        }
    }

    /// Adds a place that was none.
    pub fn add(&mut self, n: BlockNo)
        requires low { 0 < n }
        requires high { n < self.old.count }
        requires new { list_any (nat_eq n) self.old.list ≡ false }
        ensures list { self.new.list ≡ n ∷ self.old.list }
        ensures count { self.new.count ≡ self.old.count }
    {
        self.map.mark_kept(n);
        self.list.push(n);
    }

    /// The map of the store: block 0 and the places are kept, and all other blocks are free.
    pub fn into_map(self) -> BlockMap
        ensures size { length result ≡ self.count }
        ensures marks { Marks self.list result }
        ensures free { free_count result + 1 + length self.list ≡ self.count }
    {
        let Places {
            map,
            list: _,
            count: _,
        } = self;
        map
    }
}
