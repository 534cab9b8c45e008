ghost use Rattle.std.specs.Prelude.{◌<◌};

use afs_base::BlockNo;

/// A version that a draft is based on: the block of its version page, which is not 0, its file, at least 1, and its serial.
#[derive(Clone, Copy, Debug)]
pub struct Base {
    pub root: BlockNo,
    pub object: u32,
    pub serial: u64,
    ghost named: { 0 < root },
    ghost some: { 0 < object },
}

/// What an unused place holds.
impl Default for Base {
    fn default() -> Base {
        Base {
            root: BlockNo::at(1),
            object: 1,
            serial: 0,
        }
    }
}
