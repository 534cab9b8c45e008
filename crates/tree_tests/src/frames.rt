//! Frames of a pool, and its leases.
use afs_base::PageData;
use frame_pool::Pool;
use std::test::Fail;

#[test]
fn frames_go_out_and_back(rt: HostRuntime) -> Result<(), Fail> {
    let (mut pool, mut leases) = Pool::make::<u8>(rt.alloc(), 2)?;
    let mut lease = leases.next().ok_or("no lease")?;
    let first = pool.take(&mut lease).ok_or("no frame")?;
    let second = pool.take(&mut lease).ok_or("no second frame")?;
    assert_eq!(rt; lease.left(), 1022);

    pool.page_mut(&first).bytes = PageData::of(b"a");
    pool.page_mut(&second).bytes = PageData::of(b"b");
    assert_eq!(rt; pool.page(&first).bytes, PageData::of(b"a"));
    assert_eq!(rt; pool.page(&second).bytes, PageData::of(b"b"));

    pool.give(&mut lease, second);
    assert_eq!(rt; lease.left(), 1023);
    assert_eq!(rt; leases.next().is_some(), true);
    assert_eq!(rt; leases.next().is_some(), false);
    Ok(())
}
