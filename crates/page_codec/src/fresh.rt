ghost use Rattle.std.specs.Prelude.{◌≡◌, ℕ, ◌+◌, ◌*◌, ◌≤◌, ◌<◌, length, IfOk};
ghost use Rattle.page_codec.specs.NewStore.{block_of, new_root, new_version};
ghost use Rattle.page_codec.specs.Spelling.{version_bytes};
ghost use Rattle.page_codec.specs.TableSpelling.{root_bytes};

use crate::encode::encode_version;
use crate::members::Members;
use crate::page::Page;
use crate::root::new_root;
use crate::table_bytes::encode_root;
use crate::version::VersionPage;
use afs_base::{BLOCK_BYTES, MAX_BLOCKS, Memory, ROOT_ENTRIES};
use ref_flags::Flags;
use std::alloc::Global;

/// The version page of a new file, whose object is at least 1.
pub fn new_version(object: u32) -> VersionPage
    requires { 1 ≤ object }
    ensures { result ≡ new_version object }
{
    VersionPage {
        root: Flags::none(),
        page: Page::empty(0),
        object,
        serial: 1,
        commit: None,
        base: None,
        members: Members::none(),
    }
}

/// Blocks 0 to `files` of a new store: the table in format 1, and for each file, 1 to 60, the version page with
/// serial 1 in the block of its number. The store has more blocks than files, and at most 65,536.
pub fn fresh_image(alloc: Global, files: u32, blocks: u32, key: u64) -> Result<Vec<u8>, Memory>
    requires some { 1 ≤ files }
    requires few { files ≤ ROOT_ENTRIES }
    requires room { files < blocks }
    requires most { blocks ≤ MAX_BLOCKS }
    ensures size { IfOk result (λ image. length image.items ≡ BLOCK_BYTES * (files + 1)) }
    ensures table { IfOk result (λ image. block_of 0 image.items
        ≡ root_bytes (new_root files blocks key)) }
    ensures pages { IfOk result (λ image. (i : ℕ) → 1 ≤ i → i ≤ files
        → block_of i image.items ≡ version_bytes (new_version i)) }
{
    let mut block = [0; BLOCK_BYTES];
    let mut image = Vec::new(alloc);
    encode_root(&new_root(files, blocks, key), &mut block);
    image.extend_from_slice(&block)?;
    for done in 0..files {
        encode_version(&new_version(done + 1), &mut block);
        image.extend_from_slice(&block)?;
    }
    Ok(image)
}
