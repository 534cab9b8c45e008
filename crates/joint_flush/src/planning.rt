// Plans of the flushes of one file after the other.

ghost use Rattle.std.specs.Prelude.{◌≡◌, ◌+◌, ◌<◌, ◌≤◌, [], length, drop, slice_get, slice_index};
ghost use Rattle.std.specs.List.{AllByRecursion};
ghost use Rattle.block_map.specs.States.{held_count};
ghost use Rattle.pool_draft.specs.Sets.{roots_of, AreSameDrafts};
ghost use Rattle.joint_flush.specs.Joint.{paths_at, pages_in, IsPlanned, IsNextPlan};

use afs_base::ClientNo;
use block_map::BlockMap;
use draft_tree::Draft;
use page_codec::Members;
use pool_draft::PoolSet;
use version_chain::{Flush, same_members};

/// How many pages of the file of a number are written, `/` anyhow.
pub fn pages_of(set: &mut PoolSet, number: u8) -> u32
    requires { number < roots_of set.old }
    ensures value { result ≡ length (paths_at set.old number) }
    ensures same { AreSameDrafts set.old set.new }
{
    set.pick(number);
    set.fresh_count().max(1)
}

/// Plans which page of the file of a number goes into which block that is held, from this one of them on.
fn plan_of(
    set: &mut PoolSet,
    map: &BlockMap,
    client: ClientNo,
    number: u8,
    from: u32,
    members: Members,
) -> Flush
    requires within { number < roots_of set.old }
    requires room { from + length (paths_at set.old number) ≤ held_count client map.now }
    ensures planned { IsPlanned set.old map.now client from members number result }
    ensures same { AreSameDrafts set.old set.new }
{
    set.pick(number);
    Flush::plan(set, map, client, from, members)
}

/// Plans the pages of the file behind these members: of the next one of the files behind the first, from this one of the held blocks on,
/// and else of the first one, which has the first blocks.
pub fn plan_behind(
    set: &mut PoolSet,
    map: &BlockMap,
    client: ClientNo,
    numbers: &[u8],
    members: &Members,
    from: u32,
) -> Flush
    requires some { 0 < length numbers.now }
    requires within { AllByRecursion (λ number. number < roots_of set.old) numbers.now }
    requires room { from + pages_in set.old (drop (length members.now + 1) numbers.now)
        ≤ held_count client map.now }
    requires top_room { length (paths_at set.old (slice_index numbers.now 0))
        ≤ held_count client map.now }
    ensures next { IsNextPlan set.old map.now client numbers.now members.now from result }
    ensures same { AreSameDrafts set.old set.new }
{
    match numbers.get(members.len() + 1) {
        Some(number) => plan_of(set, map, client, *number, from, Members::none()),
        None => plan_of(set, map, client, numbers[0], 0, same_members(members)),
    }
}
