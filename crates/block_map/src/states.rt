ghost use Rattle.std.specs.Prelude.{◌≡◌, ◌+◌, ◌-◌, ◌<◌, ◌≤◌, ◌≢◌, ℕ, length, true, vec_len};
ghost use Rattle.block_map.specs.States.{is_free, is_held, free_count, held_count, held_below, free_below, state_at, TakesLeast, Replaces};

use afs_base::ClientNo;

/// What a block is used for.
#[derive(Clone, Copy, Debug, PartialEq, Eq)]
pub enum BlockState {
    /// No version names it, and no client holds it.
    Free,
    /// A client's commit or creation that is under way holds it.
    Held(ClientNo),
    /// The table or a kept version has it.
    Kept,
}

/// Whether the block is free.
pub fn is_free(state: BlockState) -> bool
    ensures { result ≡ is_free state }
{
    match state {
        BlockState::Free => true,
        BlockState::Held(_) | BlockState::Kept => false,
    }
}

/// Whether the client holds the block.
pub fn is_held(client: ClientNo, state: BlockState) -> bool
    ensures { result ≡ is_held client state }
{
    match state {
        BlockState::Held(by) => by.get() == client.get(),
        BlockState::Free | BlockState::Kept => false,
    }
}

/// Gives the client the least free blocks, of which none is below `from`, and answers a place below which none is free.
pub fn take_least(states: &mut Vec<BlockState>, from: usize, client: ClientNo, n: u32) -> usize
    requires none_below { free_below states.old.items from ≡ 0 }
    requires room { n ≤ free_count states.old.items }
    ensures taken { TakesLeast client n states.old.items states.new.items }
    ensures free { free_count states.new.items + n ≡ free_count states.old.items }
    ensures held { held_count client states.new.items ≡ held_count client states.old.items + n }
    ensures others { (c : ℕ) → c ≢ client
        → held_count c states.new.items ≡ held_count c states.old.items }
    ensures none_free { free_below states.new.items result ≡ 0 }
{
    let mut left = n;
    let mut at = from;
    'search: while left > 0 && at < states.len() {
        if is_free(states[at]) {
            states[at] = BlockState::Held(client);
            left -= 1;
        }
        at += 1;
    }
    at
}

/// The least block that the client holds, or the number of blocks where it holds none.
pub fn first_held(states: &[BlockState], client: ClientNo) -> usize
    ensures none_below { held_below client states.now result ≡ 0 }
    ensures held { result < length states.now → is_held client (state_at states.now result) ≡ true }
    ensures most { result ≤ length states.now }
{
    'search: for (at, state) in states.iter().enumerate() {
        if is_held(client, *state) {
            return at;
        }
    }
    states.len()
}

/// Puts another state in the place of each block that the client holds, and answers how many these were.
pub fn replace_held(states: &mut Vec<BlockState>, client: ClientNo, by: &BlockState) -> usize
    ensures replaced { Replaces client by.now states.old.items states.new.items }
    ensures count { result ≡ held_count client states.old.items }
{
    let mut count = 0;
    'places: for at in 0..states.len() {
        if is_held(client, states[at]) {
            states[at] = *by;
            count += 1;
        }
    }
    count
}
