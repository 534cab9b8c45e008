use crate::{Links, Locked, Locks, Part};
use afs_base::{BlockNo, ClientNo};
use page_codec::{Member, Members};
use std::test::Fail;

#[test]
fn a_file_is_locked_by_one_client(rt: HostRuntime) -> Result<(), Fail> {
    let (one, sixteen) = (ClientNo::of(1)?, ClientNo::of(16)?);
    let mut locks = Locks::make();
    assert_eq!(rt; locks.lock_top(one, 5), Ok(()));
    assert_eq!(rt; locks.holder(5), Some(one));
    assert_eq!(rt; locks.holder(6), None);
    assert_eq!(rt; locks.as_slice()[0].part, Part::Top);
    assert_eq!(rt; locks.lock_inner(sixteen, 5), Err(Locked { by: one }));
    locks.release(one);
    assert_eq!(rt; locks.holder(5), None);
    Ok(())
}

#[test]
fn links_come_in_order(rt: HostRuntime) -> Result<(), Fail> {
    let block = BlockNo::of(7)?;
    let mut members = Members::none();
    members.push(Member {
        object: 3,
        block: BlockNo::of(9)?,
    });
    members.push(Member { object: 2, block });
    let mut links = Links::of(&members);
    assert_eq!(rt; links.next().map(|m| m.object), Some(3));
    assert_eq!(rt; links.next().map(|m| m.object), Some(2));
    assert!(rt; links.next().is_none());
    Ok(())
}
