// The two changes of a version page, on the bytes of its block.
ghost use Rattle.std.specs.Prelude.{◌≡◌, ◌<◌, Err, None, slice_index};
ghost use Rattle.page_codec.specs.Causes.{version_of};
ghost use Rattle.pair_store.specs.Edits.{ClearsMembers, SetsCommit};

use crate::Block;
use crate::outcome::Tas;
use afs_base::BlockNo;
use page_codec::{BadPage, Members, decode_version, encode_version};

/// Sets the commit reference of the version page in a block, where it is nil; else the block stays.
pub fn set_commit(block: &mut Block, next: BlockNo) -> Result<Tas, BadPage>
    requires { 0 < next }
    ensures { SetsCommit next block.old block.new result }
{
    let mut page = decode_version(block)?;
    match page.commit {
        Some(by) => Ok(Tas::Taken { by }),
        None => {
            page.commit = Some(next);
            encode_version(&page, block);
            Ok(Tas::Set)
        }
    }
}

/// Takes the members out of the version page in a block.
pub fn drop_members(block: &mut Block) -> Result<(), BadPage>
    ensures { ClearsMembers block.old block.new result }
{
    let mut page = decode_version(block)?;
    page.members = Members::none();
    encode_version(&page, block);
    Ok(())
}
