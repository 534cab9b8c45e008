ghost use Rattle.std.specs.Prelude.{◌≡◌, ℕ, ◌+◌, ◌<◌, ◌≤◌, length, slice_get, Some, [], ◌∷◌};
ghost use Rattle.block_map.specs.States.{held_count, held_below};
ghost use Rattle.block_map.specs.declared.states.BlockState.TheVariants.{Held};
ghost use Rattle.tree_model.specs.Accesses.{written_paths};
ghost use Rattle.version_chain.specs.Flush.{paths_of, AreHeld};

use crate::place::Place;
use afs_base::{BlockNo, ClientNo, Path};
use arrayvec::ArrayVec;
use block_map::BlockMap;
use draft_tree::{Draft, MAX_FRESH};

/// The most paths that are written: the fresh ones, or `/` alone.
pub const MAX_PLACES: usize = MAX_FRESH;

/// The paths that are written, in order: the fresh ones, or `/` where none is fresh.
fn paths_of<D: Draft>(draft: &D) -> ArrayVec<Path, MAX_PLACES>
    requires { D.is_ready draft.now }
    ensures { result.items ≡ written_paths (D.fresh_of draft.now) }
{
    let mut paths = ArrayVec::new();
    draft.list_fresh(&mut paths);
    if paths.is_empty() {
        paths.push(Path::root());
    }
    paths
}

/// The block behind one that the client holds.
fn behind(map: &BlockMap, client: ClientNo, block: BlockNo) -> BlockNo
    requires { slice_get map.now block ≡ Some (Held client) }
    ensures { held_below client map.now result ≡ held_below client map.now block + 1 }
{
    let _free = map.free();
    BlockNo::at(block.get() + 1)
}

/// The paths that are written, in order, each with the block that it goes to. The map is gone over once.
pub fn places_of<D: Draft>(
    draft: &D,
    map: &BlockMap,
    client: ClientNo,
    from: u32,
) -> ArrayVec<Place, MAX_PLACES>
    requires ready { D.is_ready draft.now }
    requires room { from + length (written_paths (D.fresh_of draft.now)) ≤ held_count client
        map.now }
    ensures paths { paths_of result.items ≡ written_paths (D.fresh_of draft.now) }
    ensures blocks { AreHeld map.now client from result.items }
{
    let paths = paths_of(draft);
    let paths = paths.as_slice();
    let mut next = map.held(client, from);
    let mut places = ArrayVec::new();
    'places: for path in paths {
        let block = map.next_held(client, next);
        places.push(Place { path: *path, block });
        next = behind(map, client, block);
    }
    places
}
