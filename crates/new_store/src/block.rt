// The blocks of a new store as bytes.
ghost use Rattle.std.specs.Prelude.{◌≡◌, ℕ, ◌+◌, ◌<◌, slice_index};
ghost use Rattle.new_store.specs.Layout.{new_block};
ghost use Rattle.new_store.specs.Sizes.{used_blocks};

use crate::store::NewStore;
use crate::table::{part_entries, table_of};
use page_codec::{Block, encode_entries, encode_root, encode_version, new_version};

/// Writes what a block of the new store holds into all of the buffer.
#[tactic(auto, unfolding(crate::specs::Layout::new_block))]
pub fn encode_block(store: &NewStore, n: u32, into: &mut Block)
    requires { n < used_blocks store.now.files }
    ensures bytes { into.new ≡ new_block store.now n }
    ensures open { slice_index into.new 0 ≡ 165 }
{
    if n == 0 {
        encode_root(&table_of(store), into);
    } else if n <= store.files {
        encode_version(&new_version(n), into);
    } else {
        let j = n - (store.files + 1);
        encode_entries(j as u8, &part_entries(store, j), into);
    }
}
