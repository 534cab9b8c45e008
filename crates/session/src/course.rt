// How far a client has come in its script.

use crate::log::Replies;
use crate::stage::Stage;
use afs_base::{ClientNo, MAX_FILES};
use arrayvec::ArrayVec;
use pool_draft::PoolSet;

/// How far a client has come: the answers to its lines so far, the drafts of its open update in frames that
/// were reserved for them, the rights to each of its files, how many blocks it holds, and how far its line has come and in
/// how many turns. No update is open where there is no draft.
#[derive(Drop)]
pub struct Course {
    pub(crate) client: ClientNo,
    pub(crate) replies: Replies,
    pub(crate) drafts: PoolSet,
    pub(crate) rights: ArrayVec<u8, MAX_FILES>,
    pub(crate) held: u32,
    pub(crate) stage: Stage,
    pub(crate) turns: u64,
}
