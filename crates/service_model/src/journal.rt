use crate::named::Named17;
use afs_base::{ClientNo, Kind, Path};

/// What a run did to the store and which lines it answered, in the order in which it was done.
#[derive(Debug, Drop)]
pub struct Journal {
    /// What is known to be done.
    pub entries: Vec<Entry>,
    /// What may be done or not: there only where a fault of the drives fell within the one block write that does it.
    pub doubt: Option<Entry>,
}

/// One step of a client's line.
#[derive(Debug, Drop)]
pub struct Entry {
    /// Whose line it is.
    pub client: ClientNo,
    /// The number of the line in the client's script, from 1.
    pub line: u32,
    pub what: What,
}

/// Why a commit is refused.
#[derive(Clone, Copy, Debug)]
pub enum Refusal {
    /// What the update read was written by a later version, the one with this serial.
    Conflict { serial: u64, path: Path, kind: Kind },
    /// Another client's update of several files has the file.
    Locked { by: ClientNo },
    /// Fewer blocks are free than are needed.
    NoSpace { needed: u32, free: u32 },
    /// The file has the last serial that there is.
    Worn,
}

/// What a step did. The numbers `at` count the device calls that had returned when it was done.
#[derive(Debug, Drop)]
pub enum What {
    /// An update was opened on these base versions.
    Began {
        bases: Named17,
    },
    /// So many free blocks were taken for the pages of a commit, or of a new file.
    Held {
        blocks: u32,
    },
    /// The update was committed, and made these versions: none where it wrote nothing.
    Committed {
        made: Named17,
        at: u64,
    },
    /// The commit was refused, and the update is over.
    Refused {
        why: Refusal,
    },
    /// The update was given up.
    GivenUp,
    /// Maintenance began.
    Started,
    /// A file was made.
    Created {
        object: u32,
        at: u64,
    },
    /// A file was removed, and so many blocks will be free.
    Destroyed {
        object: u32,
        blocks: u32,
        at: u64,
    },
    /// The versions before this one were removed, and so many blocks will be free.
    Pruned {
        object: u32,
        first: u64,
        blocks: u32,
        at: u64,
    },
    /// The line was answered.
    Answered,
}
