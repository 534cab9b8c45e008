ghost use Rattle.std.specs.Prelude.{ℕ, List, Option, OnOk, OnErr};
ghost use Rattle.std.specs.Io.KnownBytes.{Appends};
ghost use Rattle.afs_base.specs.Causes.{HasCause};
ghost use Rattle.script_text.specs.Front.{AppendsFront};

use afs_base::Failed;

/// Where what a run prints goes to.
pub trait Sink {
    // The bytes that were written, where the sink tells them.
    ghost written: { Self → Option (List ℕ) };

    // How many calls failed. The count stands still at the end of a u64.
    ghost faults: { Self → ℕ };

    /// Appends a line. A call that fails has appended a front of it.
    fn put(&mut self, line: &[u8]) -> Result<(), Failed>
        ensures ok { OnOk result (Appends (written self.old) (written self.new) line.now) }
        ensures failed { OnErr result
            (AppendsFront (written self.old) (written self.new) line.now) }
        ensures cause { HasCause (faults self.old) (faults self.new) result };
}
