ghost use Rattle.std.specs.Prelude.{◌≡◌, ◌≤◌, vec_capacity};
ghost use Rattle.frame_pool.specs.Leasing.{left};

use crate::run::Run;

/// 1,024 frames of a pool, and room for as many rows, in which the holder notes what lies in them.
#[derive(Drop)]
pub struct Lease<R> {
    pub run: Run,
    /// They have room for 1,024, and are empty in a lease that nobody had.
    pub rows: Vec<R>,
    ghost room: { 1024 ≤ vec_capacity rows },
}

impl<R> Lease<R> {
    /// How many frames the lease can still give.
    pub fn left(&self) -> u32
        ensures left { result ≡ left self.now.run }
        ensures most { result ≤ 1024 }
    {
        self.run.left()
    }
}
