/// Who did the job of the pair that waited.
#[derive(Clone, Copy, Debug)]
pub enum Settled {
    /// No pair waited.
    NoPair,
    /// What was offered, since it was the outcome of this job.
    ByOffer,
    /// The walk itself.
    ByWalk,
}
