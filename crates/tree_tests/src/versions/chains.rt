//! The chain of a file's versions.
use super::updates::new_file;
use super::*;

#[test]
fn follows_commit_references(rt: HostRuntime) -> Result<(), Fail> {
    let first = BlockNo::of(1)?;
    let second = BlockNo::of(3)?;
    let mut chain = Chain::at(first);
    assert_eq!(rt; chain.need(), Some(first));
    let mut version = new_file();
    version.commit = Some(second);
    chain.feed(&version);
    assert_eq!(rt; chain.need(), Some(second));
    assert_eq!(rt; chain.last(), first);
    version.commit = None;
    chain.feed(&version);
    assert_eq!(rt; chain.need(), None);
    assert_eq!(rt; chain.last(), second);
    Ok(())
}
