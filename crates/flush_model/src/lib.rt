//! A draft that was flushed is the next version of its file, as the walk of a store reads it. Laws
//! alone, over a draft, its plan and what the blocks hold; what commits a version cites them.
#![tactic(auto)]

ghost use Rattle.flush_model.specs.Flushed.{FlushedIsRead, FlushedIsReady, FlushedTogether};
ghost use Rattle.flush_model.specs.Several.{FlushedAreNext, FlushedIsCommitted};

/// Runs nothing. Its contract says that where a flush is done, the walk of the store reads the next
/// version: its serial, its tree, its fresh paths, its marks, and the blocks that it lies in.
pub fn flushed_is_read()
    ensures { FlushedIsRead }
{}

/// Runs nothing. Its contract says that such a version may be committed: writing the commit
/// reference of the last version appends it, `alone`, or together with the next versions of its
/// members' files.
pub fn flushed_is_ready()
    ensures alone { FlushedIsReady }
    ensures together { FlushedTogether }
{}

/// Runs nothing. Its contract says that where the flushes of several files are done, the members of
/// the first one's version are the next versions of their files, each read after those before it,
/// as a commit of several files wants them.
pub fn flushed_are_next()
    ensures { FlushedAreNext }
{}

/// Runs nothing. Its contract is the law of commits, from the flushes on: one write of a commit
/// reference gives each file of an update, be it one or several, its next version, and changes
/// nothing else.
pub fn flushed_is_committed()
    ensures { FlushedIsCommitted }
{}
