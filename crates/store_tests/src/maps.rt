use afs_base::{BlockNo, ClientNo};
use block_map::{BlockMap, BlockState, NoSpace};
use std::test::Fail;

#[test]
fn what_two_clients_hold_is_told_apart(rt: HostRuntime) -> Result<(), Fail> {
    let (one, two) = (ClientNo::first(), ClientNo::of(2)?);
    let mut map = BlockMap::make(rt.alloc(), 8)?;
    map.hold(one, 2)?;
    map.hold(two, 3)?;
    map.give_back(one);
    map.hold(one, 3)?;
    assert_eq!(rt; (map.held(one, 1).get(), map.held(one, 2).get()), (2, 6));
    map.keep(two);
    assert_eq!(rt; map.hold(two, 2), Err(NoSpace { needed: 2, free: 1 }));
    assert_eq!(rt; map.state(BlockNo::of(4)?), BlockState::Kept);
    Ok(())
}

#[test]
fn a_kept_block_is_freed_and_held_again(rt: HostRuntime) -> Result<(), Fail> {
    let block = BlockNo::of(2)?;
    let mut map = BlockMap::make(rt.alloc(), 4)?;
    map.mark_kept(block);
    map.free_kept(block);
    map.hold(ClientNo::first(), 3)?;
    assert_eq!(rt; map.held(ClientNo::first(), 1), block);
    Ok(())
}

#[test]
fn the_greatest_map_is_held_whole(rt: HostRuntime) -> Result<(), Fail> {
    let client = ClientNo::first();
    let mut map = BlockMap::make(rt.alloc(), 65_536)?;
    map.hold(client, 921)?;
    assert_eq!(rt; map.held(client, 920).get(), 921);
    map.give_back(client);
    map.hold(client, 65_535)?;
    assert_eq!(rt; (map.held(client, 65_534).get(), map.free()), (65_535, 0));
    Ok(())
}
