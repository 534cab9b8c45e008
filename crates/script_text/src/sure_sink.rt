ghost use Rattle.std.specs.Prelude.{◌≡◌, IsOk, None, OnOk, OnErr};
ghost use Rattle.std.specs.Io.KnownBytes.{Appends};
ghost use Rattle.afs_base.specs.Causes.{HasCause};
ghost use Rattle.script_text.specs.Front.{AppendsFront};

use crate::sink::Sink;
use afs_base::Failed;

/// A sink in memory that never fails, takes no memory and keeps no bytes.
#[derive(Clone, Copy, Debug)]
pub struct SureSink;

impl SureSink {
    /// The sink, of which there is but one. It takes no memory.
    pub fn make() -> SureSink
        ensures { (sink : SureSink) → result ≡ sink }
    {
        SureSink
    }
}

impl Sink for SureSink {
    ghost use Rattle.std.specs.Prelude.{None};

    ghost written = { λ _. None };

    ghost faults = { λ _. 0 };

    fn put(&mut self, _line: &[u8]) -> Result<(), Failed>
        ensures ok { OnOk result (Appends None None _line.now) }
        ensures failed { OnErr result (AppendsFront None None _line.now) }
        ensures cause { HasCause 0 0 result }
        ensures sure { IsOk result }
    {
        Ok(())
    }
}
