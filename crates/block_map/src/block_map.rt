ghost use Rattle.std.specs.Prelude.{◌≡◌, ◌≢◌, ◌+◌, ◌-◌, ◌<◌, ◌≤◌, ◌↔◌, ℕ, ◌∷◌, length, replicate, slice_get, slice_set, IsOk, IfOk, IfErr, OnOk, OnErr, Some};
ghost use Rattle.block_map.specs.States.{free_count, held_count, held_below, state_at, TakesLeast, Replaces};
ghost use Rattle.block_map.specs.declared.states.BlockState.TheVariants.{Free, Held, Kept};

use crate::states::{BlockState, first_held, is_held, replace_held, take_least};
use afs_base::{BlockNo, ClientNo, MAX_BLOCKS, MIN_BLOCKS, Memory};
use std::alloc::Global;
use std::marker::Model;
use thiserror::Error;

/// The state of each block of a store. Contracts see the list of the states, block 0 first. Only `make` takes memory.
#[derive(Drop)]
pub struct BlockMap {
    states: Vec<BlockState>,
    free: u32,
    /// No block below this one is free.
    least: usize,
}

impl Model for BlockMap {
    ghost use Rattle.std.specs.Prelude.{List};
    ghost use Rattle.block_map.specs.declared.states.BlockState.{BlockState};
    ghost use Rattle.block_map.specs.States.{IsSound};

    ghost Value = { List BlockState };

    ghost view = { λ m. m.states.items };

    ghost invariant = { λ m. IsSound m.states.items m.free m.least };
}

/// Fewer blocks are free than are needed.
#[derive(Clone, Copy, Debug, PartialEq, Eq, Error)]
#[error("{needed} blocks are needed and {free} are free")]
pub struct NoSpace {
    pub needed: u32,
    pub free: u32,
}

impl BlockMap {
    /// The map of a store of `blocks` blocks, of which block 0, the table, is kept and all others are free.
    pub fn make(alloc: Global, blocks: u32) -> Result<BlockMap, Memory>
        requires least { MIN_BLOCKS ≤ blocks }
        requires most { blocks ≤ MAX_BLOCKS }
        ensures states { IfOk result (λ map. map ≡ Kept ∷ replicate (blocks - 1) Free) }
        ensures free { IfOk result (λ map. free_count map ≡ blocks - 1) }
        ensures held { IfOk result (λ map. (c : ℕ) → held_count c map ≡ 0) }
    {
        let mut states = vec![in alloc; BlockState::Free; blocks as usize]?;
        states[0] = BlockState::Kept;
        Ok(BlockMap {
            states,
            free: blocks - 1,
            least: 0,
        })
    }

    /// The state of a block.
    pub fn state(&self, n: BlockNo) -> BlockState
        requires { n < length self.now }
        ensures value { slice_get self.now n ≡ Some result }
        ensures table { n ≡ 0 → result ≡ Kept }
    {
        self.states[n.get() as usize]
    }

    /// How many blocks are free. A map has at most 65536 blocks.
    pub fn free(&self) -> u32
        ensures value { result ≡ free_count self.now }
        ensures bound { result < length self.now }
        ensures most { length self.now ≤ MAX_BLOCKS }
    {
        self.free
    }

    /// Marks a free block as kept.
    pub fn mark_kept(&mut self, n: BlockNo)
        requires { slice_get self.old n ≡ Some Free }
        ensures states { self.new ≡ slice_set self.old n Kept }
        ensures free { free_count self.new + 1 ≡ free_count self.old }
        ensures held { (c : ℕ) → held_count c self.new ≡ held_count c self.old }
    {
        self.states[n.get() as usize] = BlockState::Kept;
        self.free -= 1;
    }

    /// Gives the client the `n` least free blocks, or changes nothing where fewer are free. It looks at no block twice, nor
    /// at one below which none can be free.
    pub fn hold(&mut self, client: ClientNo, n: u32) -> Result<(), NoSpace>
        requires { held_count client self.old ≡ 0 }
        ensures room { IsOk result ↔ (n ≤ free_count self.old) }
        ensures no_space { IfErr result
            (λ e. e ≡ record { needed = n; free = free_count self.old }) }
        ensures err { OnErr result (self.new ≡ self.old) }
        ensures ok { OnOk result (TakesLeast client n self.old self.new) }
        ensures free { OnOk result (free_count self.new + n ≡ free_count self.old) }
        ensures held { OnOk result (held_count client self.new ≡ n) }
        ensures others { (c : ℕ) → c ≢ client → held_count c self.new ≡ held_count c self.old }
    {
        if self.free < n {
            return Err(NoSpace {
                needed: n,
                free: self.free,
            });
        }
        self.least = take_least(&mut self.states, self.least, client, n);
        self.free -= n;
        Ok(())
    }

    /// The `k`-th block that the client holds, ascending from 0.
    pub fn held(&self, client: ClientNo, k: u32) -> BlockNo
        requires { k < held_count client self.now }
        ensures held { slice_get self.now result ≡ Some (Held client) }
        ensures place { held_below client self.now result ≡ k }
        // Block 0, the table, is always kept.
        ensures named { 0 < result }
    {
        kth_held(&self.states, client, k)
    }

    /// The first block that the client holds from `from` on. It looks at no block below that one, nor behind the one that
    /// it answers, so a walk over all held blocks looks at each block once.
    pub fn next_held(&self, client: ClientNo, from: BlockNo) -> BlockNo
        requires { held_below client self.now from < held_count client self.now }
        ensures held { slice_get self.now result ≡ Some (Held client) }
        ensures from { from ≤ result }
        ensures none_between { held_below client self.now result ≡ held_below client self.now from }
        // Block 0, the table, is always kept.
        ensures named { 0 < result }
    {
        first_held_from(&self.states, client, from.get() as usize)
    }

    /// Turns what the client holds into kept blocks.
    pub fn keep(&mut self, client: ClientNo)
        ensures kept { Replaces client Kept self.old self.new }
        ensures free { free_count self.new ≡ free_count self.old }
        ensures held { held_count client self.new ≡ 0 }
        ensures others { (c : ℕ) → c ≢ client → held_count c self.new ≡ held_count c self.old }
    {
        let _count = replace_held(&mut self.states, client, &BlockState::Kept);
    }

    /// Turns what the client holds into free blocks.
    pub fn give_back(&mut self, client: ClientNo)
        ensures freed { Replaces client Free self.old self.new }
        ensures free { free_count self.new ≡ free_count self.old + held_count client self.old }
        ensures held { held_count client self.new ≡ 0 }
        ensures others { (c : ℕ) → c ≢ client → held_count c self.new ≡ held_count c self.old }
    {
        let first = first_held(&self.states, client);
        let count = replace_held(&mut self.states, client, &BlockState::Free);
        self.free += count as u32;
        self.least = self.least.min(first);
    }

    /// Turns a kept block other than the table into a free one.
    pub fn free_kept(&mut self, n: BlockNo)
        requires kept { slice_get self.old n ≡ Some Kept }
        requires not_table { n ≢ 0 }
        ensures states { self.new ≡ slice_set self.old n Free }
        ensures free { free_count self.new ≡ free_count self.old + 1 }
        ensures held { (c : ℕ) → held_count c self.new ≡ held_count c self.old }
    {
        let at = n.get() as usize;
        self.states[at] = BlockState::Free;
        self.free += 1;
        self.least = self.least.min(at);
    }
}

/// The `k`-th block that the client holds, ascending from 0.
fn kth_held(states: &[BlockState], client: ClientNo, k: u32) -> BlockNo
    requires held { k < held_count client states.now }
    requires small { length states.now ≤ MAX_BLOCKS }
    ensures held { slice_get states.now result ≡ Some (Held client) }
    ensures place { held_below client states.now result ≡ k }
{
    let mut before = 0;
    'search: for (at, state) in states.iter().enumerate() {
        if is_held(client, *state) {
            if before == k {
                return BlockNo::at(at as u32);
            }
            before += 1;
        }
    }
    unreachable!()
}

/// The first block that the client holds from a place on.
fn first_held_from(states: &[BlockState], client: ClientNo, from: usize) -> BlockNo
    requires held { held_below client states.now from < held_count client states.now }
    requires small { length states.now ≤ MAX_BLOCKS }
    ensures held { slice_get states.now result ≡ Some (Held client) }
    ensures from { from ≤ result }
    ensures none_between { held_below client states.now result ≡ held_below client states.now from }
{
    'search: for at in from..states.len() {
        if is_held(client, states[at]) {
            return BlockNo::at(at as u32);
        }
    }
    unreachable!()
}
