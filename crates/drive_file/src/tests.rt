// Halves and a script over real files, through the traits.
ghost use Rattle.std.specs.Prelude.{◌≡◌, ◌+◌, ◌*◌, ◌≤◌};

use crate::*;
use drives::{Drives, Half};
use script_text::Source;
use std::fs;
use std::fs::{File, Files};
use std::os::unix::fs::symlink;
use std::test::Fail;

fn read_from<V: Drives>(drives: &mut V, half: Half, at: u64) -> [u8; 4]
    requires { at + 4 ≤ 1024 * V.size drives.old }
    ensures { V.size drives.new ≡ V.size drives.old }
{
    let mut four = [9; 4];
    match drives.read(half, at, &mut four) {
        Ok(()) => four,
        Err(_) => [0xee; 4],
    }
}

#[test]
fn halves_in_files(rt: HostRuntime) -> Result<(), Fail> {
    let mut drives = FileDrives::open(&rt, "half_a", "half_b")
        .ok()
        .ok_or("open")?;
    assert_eq!(rt; drives.blocks(), 65536);
    // New files have no bytes, and read as zeros.
    assert_eq!(rt; read_from(&mut drives, Half::A, 4096), [0; 4]);
    assert!(rt; drives.write(Half::A, 2, &[1, 2, 3]).is_ok());
    assert!(rt; drives.sync(Half::A).is_ok());
    // The bytes stand at their offset on this half; past the end there are zeros.
    assert_eq!(rt; read_from(&mut drives, Half::A, 1), [0, 1, 2, 3]);
    assert_eq!(rt; read_from(&mut drives, Half::A, 3), [2, 3, 0, 0]);
    assert_eq!(rt; read_from(&mut drives, Half::B, 1), [0; 4]);
    assert_eq!(rt; drives.now(), 6);
    // While they are open nobody else has these files as halves; afterwards what was written is there.
    assert!(rt; FileDrives::open(&rt, "half_a", "half_b").is_err());
    drop(drives);
    let mut again = FileDrives::open(&rt, "half_a", "half_b")
        .ok()
        .ok_or("open again")?;
    assert_eq!(rt; read_from(&mut again, Half::A, 2), [1, 2, 3, 0]);
    assert_eq!(rt; again.now(), 1);
    Ok(())
}

#[test]
fn files_that_cannot_be_opened(rt: HostRuntime) {
    match FileDrives::open(&rt, "new_half", "no_folder/half") {
        Ok(_) => assert!(rt; false),
        Err(e) => assert!(rt; e.half == Half::B),
    }
    match FileDrives::open(&rt, "no_folder/half", "no_folder/other") {
        Ok(_) => assert!(rt; false),
        Err(e) => assert!(rt; e.half == Half::A),
    }
    assert!(rt; FileSource::open(&rt, "no_script").is_err());
}

/// Which half cannot be opened, if one.
fn refused(rt: &impl Files<File = File>, a: &str, b: &str) -> Option<Half> {
    match FileDrives::open(rt, a, b) {
        Ok(_) => None,
        Err(e) => Some(e.half),
    }
}

#[test]
fn two_halves_are_two_files(rt: HostRuntime) -> Result<(), Fail> {
    fs::write(&rt, "one", "").ok().ok_or("write")?;
    fs::hard_link(&rt, "one", "twin").ok().ok_or("hard link")?;
    symlink(&rt, "one", "link").ok().ok_or("link")?;
    symlink(&rt, "nowhere", "dangling").ok().ok_or("dangling")?;
    let table = [
        ("one", "one", Some(Half::B)),
        ("one", "./one", Some(Half::B)),
        ("one", "twin", Some(Half::B)),
        ("link", "one", Some(Half::B)),
        ("one", "link", Some(Half::B)),
        ("one", "other", None),
        ("one", "dangling", Some(Half::B)),
        // Nothing can be put on a disk through these.
        ("/dev/null", "one", Some(Half::A)),
        ("one", ".", Some(Half::B)),
    ];
    for (a, b, expected) in table {
        assert_eq!(rt; refused(&rt, a, b), expected, "at {a} {b}");
    }
    Ok(())
}

#[test]
fn a_script_in_a_file(rt: HostRuntime) -> Result<(), Fail> {
    fs::write(&rt, "script", "begin 1\n").ok().ok_or("write")?;
    let mut source = FileSource::open(&rt, "script").ok().ok_or("open")?;
    let mut buf = [0; 16];
    assert_eq!(rt; source.read(&mut buf), Ok(8));
    assert_eq!(rt; &buf[..8], b"begin 1\n".as_slice());
    assert_eq!(rt; source.read(&mut buf), Ok(0));
    Ok(())
}
