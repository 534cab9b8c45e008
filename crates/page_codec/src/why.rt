use thiserror::Error;

/// Why a block, or a store, is refused. The order is no order of trial: each decoder's own causes have one.
#[derive(Clone, Copy, Debug, PartialEq, Eq)]
pub enum Why {
    /// The gate is not 0xA5.
    Closed,
    /// The block is of another kind.
    Kind,
    /// The level is out of its range, or not the length of the path.
    Level,
    /// A flag code is above 12, or stands where none may.
    Code,
    /// A block number that may not stand there.
    Reference,
    /// The data is longer than 800 bytes.
    Length,
    /// The object is 0, or another than the table's.
    Object,
    /// The serial is 0, or not one more than the last.
    Serial,
    /// A member that may not stand there, or more than sixteen.
    Member,
    /// A byte is not 0 that must be.
    Zero,
    /// The table's format is neither 1 nor 2.
    Format,
    /// The number of blocks is out of its range, or above the drives'.
    Blocks,
    /// A live entry has generation 0.
    Generation,
    /// An entry that is not live has a secret.
    Secret,
    /// The base reference is not the version before.
    Base,
    /// The block stands at another place already.
    Seen,
    /// A part has another index.
    Index,
    /// A part has no file, and never had one.
    Empty,
}

/// The error for a block outside its grammar, with the first cause that applies.
#[derive(Clone, Copy, Debug, PartialEq, Eq, Error)]
#[error("the block is refused: {why:?}")]
pub struct BadPage {
    pub why: Why,
}
