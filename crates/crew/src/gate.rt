//! Where a worker passes before each of its lines.
use afs_base::ClientNo;

/// Where each worker passes before each of its lines. It may keep a worker waiting; no clause says how long.
pub trait Gate {
    /// Returns once the client may do the line of this number.
    fn pass(&self, client: ClientNo, line: u32);
}

/// The gate that lets all pass at once.
#[derive(Clone, Copy, Debug)]
pub struct OpenGate;

impl Gate for OpenGate {
    fn pass(&self, _client: ClientNo, _line: u32) {}
}
