//! The limits of the service, once.

/// The number of bytes of a block.
pub const BLOCK_BYTES: usize = 1024;

/// The first byte of a block that was written whole: its gate is open.
pub const OPEN_GATE: u8 = 0xa5;

/// Block numbers are below this.
pub const BLOCK_NUMBERS: u32 = 0x1000_0000;

/// The least number of blocks of a half: the table and a page.
pub const MIN_BLOCKS: u32 = 2;

/// The greatest number of blocks of a half.
pub const MAX_BLOCKS: u32 = 65_536;

/// The greatest number of bytes of data of a page.
pub const MAX_DATA: usize = 800;

/// The number of slots of a page.
pub const SLOTS: usize = 16;

/// The greatest number of slots of a path.
pub const MAX_DEPTH: usize = 7;

/// The greatest number of clients, who count from 1.
pub const MAX_CLIENTS: u8 = 16;

/// The greatest number of files that a version page names beside its own.
pub const MAX_MEMBERS: usize = 16;

/// The number of entries of a table that is block 0 alone.
pub const ROOT_ENTRIES: usize = 60;

/// The number of entries of a part of a table in parts.
pub const PART_ENTRIES: usize = 63;

/// The number of parts of a table in parts.
pub const PARTS: usize = 64;

/// The greatest number of an object, and the number of entries of a table in parts.
pub const MAX_OBJECTS: u32 = 4_032;

/// The number of bytes of a file's secret.
pub const SECRET_BYTES: usize = 8;

/// The greatest number of steps of an update.
pub const MAX_STEPS: u8 = 128;

/// The greatest number of files of an update: its own, and its members.
pub const MAX_FILES: usize = 17;

/// The greatest number of bytes of a script.
pub const MAX_SCRIPT_BYTES: usize = 65_536;

/// The greatest number of lines of a script.
pub const MAX_SCRIPT_LINES: u32 = 1_000;
