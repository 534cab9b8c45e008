// The record of calls from which the images of past moments are made.
use std::snapshot::Snapshot;

/// What a call did to a half.
#[derive(Drop)]
pub enum What {
    Write { at: u64, bytes: Vec<u8> },
    Tear { at: u64, len: u64 },
    Sync,
}

/// What the call of this number did to a half.
#[derive(Drop)]
pub struct Call {
    pub when: u64,
    pub what: What,
}

/// What a call meant for a half, whether or not there was memory to record it. Clauses alone see
/// it.
#[derive(Drop)]
pub enum Event {
    Made(Snapshot<What>),
    Lost { at: u64, len: u64 },
    Idle,
}

/// What a crash leaves in the ranges that were written since the last sync.
#[derive(Clone, Copy, Debug)]
pub enum Pick {
    /// The bytes of the last sync.
    Old,
    /// The bytes written.
    New,
    /// This byte everywhere.
    Fill(u8),
}
