//! Where what stands in a block, in bytes from its first one, and the letters of the kinds. docs/FORMAT.md has the tables.

/// The kind of a page below `/`: `P`.
pub const PAGE: u8 = 0x50;
/// The kind of a version page: `V`.
pub const VERSION: u8 = 0x56;
/// The kind of block 0: `T`.
pub const TABLE: u8 = 0x54;
/// The kind of a part of a table: `E`.
pub const PART: u8 = 0x45;

/// Where the slots of a page begin.
pub const SLOTS_AT: usize = 4;
/// Where the length of a page's data stands, behind the slots.
pub const LENGTH_AT: usize = 68;
/// Where a version page's own bytes begin, with its object.
pub const OBJECT_AT: usize = 70;
/// Where the serial of a version stands.
pub const SERIAL_AT: usize = 74;
/// Where the block of the next version stands.
pub const COMMIT_AT: usize = 82;
/// Where the block of the version before stands.
pub const BASE_AT: usize = 86;
/// Where the number of members stands.
pub const COUNT_AT: usize = 90;
/// Where the members begin.
pub const MEMBERS_AT: usize = 91;
/// Where a page's data begins, behind what only a version page has.
pub const DATA_AT: usize = 219;
/// Where the mask of the modified slots stands, behind the data.
pub const MASK_AT: usize = 1019;
/// Where the last three bytes begin, which are 0.
pub const REST_AT: usize = 1021;

/// Where the number of blocks of a store stands.
pub const BLOCKS_AT: usize = 4;
/// Where the key of a store stands.
pub const KEY_AT: usize = 8;
/// Where the entries of a table, the blocks of its parts and the entries of a part begin.
pub const ENTRIES_AT: usize = 16;
/// Where the blocks of the parts end.
pub const PARTS_END: usize = 272;
/// Where the entries of block 0 end.
pub const ROOT_END: usize = 976;
