use crate::serials::Serials;
use afs_base::{ClientNo, Kind, Path};
use caps::{Capability, Denied};
use tree_model::Reply;

/// The answer to a line of a script.
#[derive(Debug, PartialEq, Eq, Drop)]
pub enum LineReply {
    /// An update is open on these versions.
    Base(Serials),
    /// The update is committed; these are the last serials of its files as it leaves them.
    Committed(Serials),
    /// The answer to a step.
    Stepped(Reply),
    /// A file is picked.
    Picked,
    /// The update is given up.
    Abandoned,
    /// A file is made, with a capability where files are guarded.
    Created {
        object: u32,
        cap: Option<Capability>,
    },
    /// A file is removed, and so many blocks are free.
    Destroyed {
        blocks: u32,
    },
    /// The first version that a file still has, and how many blocks are free.
    Pruned {
        first: u64,
        blocks: u32,
    },
    /// A capability with fewer rights.
    Cap(Capability),
    /// The line is refused.
    Refused(LineRefusal),
}

/// Why a line is refused.
#[derive(Clone, Copy, Debug, PartialEq, Eq)]
pub enum LineRefusal {
    /// An update is open.
    Open,
    /// No update is open.
    Idle,
    /// The file is not there, or its capability does not allow this.
    Denied(Denied),
    /// Two of the files are one object.
    DeniedTwice,
    /// The capability that opened the update does not allow this step.
    DeniedRights,
    /// The update has done as many steps as it may.
    Full,
    /// The update has no such file to pick.
    NoSuchPick,
    /// Another client's update of several files has the file.
    Locked { by: ClientNo },
    /// What the update read was written by a later version, the one with this serial.
    Conflict { serial: u64, path: Path, kind: Kind },
    /// The file has the last serial that there is.
    Worn,
    /// Fewer blocks are free than are needed.
    NoSpace { needed: u32, free: u32 },
    /// Another client's maintenance is under way.
    Busy { by: ClientNo },
    /// Another client's update is on the file.
    Pinned { by: ClientNo },
    /// No object is left for a new file.
    TableFull,
}
