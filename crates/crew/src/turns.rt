//! What a worker is.
ghost use Rattle.std.specs.Prelude.{◌≡◌, ◌≢◌, ℕ, Option, None};

use afs_base::ClientNo;

/// A worker that does the lines of one client, one by one.
pub trait Turns {
    /// What a mark is: plain data.
    ghost Mark: { Type 0 };

    /// What the worker keeps from line to line.
    ghost mark: { Self → Mark };

    /// The client whose lines it does.
    ghost client_of: { Self → ℕ };

    /// The number of its next line, or none at the end.
    ghost next_of: { Self → Option ℕ };

    /// The client whose lines it does.
    fn client(&self) -> ClientNo
        ensures { result ≡ client_of self.now };

    /// The number of the next line, or none at the end.
    fn next_line(&self) -> Option<u32>
        ensures { result ≡ next_of self.now };

    /// Does the next line. It may wait for other workers.
    fn line(&mut self)
        requires { next_of self.old ≢ None }
        ensures mark { mark self.new ≡ mark self.old }
        ensures client { client_of self.new ≡ client_of self.old };
}
