ghost use Rattle.std.specs.Prelude.{◌≡◌, IsErr, is_err, OnOk, OnErr, Some};
ghost use Rattle.std.specs.Io.KnownBytes.{Appends};
ghost use Rattle.afs_base.specs.Causes.{HasCause};
ghost use Rattle.script_text.specs.Calls.{IsListed, CountsCall, SinkState};
ghost use Rattle.script_text.specs.Front.{AppendsFront};

use crate::sink::Sink;
use afs_base::Failed;
use std::marker::Model;

/// A sink in memory whose calls fail at given numbers, the first call having number 1. A line that finds no memory
/// fails and counts in the same way.
#[derive(Drop)]
pub struct MemSink {
    buffer: Vec<u8>,
    fails: Vec<u64>,
    calls: u64,
    faults: u64,
}

impl Model for MemSink {
    ghost use Rattle.script_text.specs.Calls.{SinkState};

    ghost Value = { SinkState };

    ghost view = { λ s. record {
      written = s.buffer.items;
      fails = s.fails.items;
      calls = s.calls;
      faults = s.faults;
    } };
}

impl MemSink {
    /// The sink that appends to `buffer`, whose calls fail where their number is in `fails`. It takes no memory.
    pub fn of(buffer: Vec<u8>, fails: Vec<u64>) -> MemSink
        ensures { result
            ≡ record { written = buffer.items; fails = fails.items; calls = 0; faults = 0 } }
    {
        MemSink {
            buffer,
            fails,
            calls: 0,
            faults: 0,
        }
    }

    /// The bytes of the buffer.
    pub fn bytes(&self) -> &[u8]
        ensures { result.now ≡ self.now.written }
    {
        self.buffer.as_slice()
    }
}

impl Sink for MemSink {
    ghost use Rattle.std.specs.Prelude.{Some};

    ghost written = { λ s. Some s.written };

    ghost faults = { λ s. s.faults };

    fn put(&mut self, line: &[u8]) -> Result<(), Failed>
        ensures ok { OnOk result
            (Appends (Some self.old.written) (Some self.new.written) line.now) }
        ensures failed { OnErr result
            (AppendsFront (Some self.old.written) (Some self.new.written) line.now) }
        ensures cause { HasCause self.old.faults self.new.faults result }
        ensures whole { OnErr result (self.new.written ≡ self.old.written) }
        ensures listed { IsListed self.old.fails self.old.calls → IsErr result }
        ensures counts { CountsCall (is_err result) self.old.fails self.new.fails self.old.calls
            self.new.calls self.old.faults self.new.faults }
    {
        self.calls = self.calls.saturating_add(1);
        if self.fails.contains(&self.calls) {
            self.faults = self.faults.saturating_add(1);
            return Err(Failed);
        }
        match self.buffer.extend_from_slice(line) {
            Ok(()) => Ok(()),
            Err(_) => {
                self.faults = self.faults.saturating_add(1);
                Err(Failed)
            }
        }
    }
}
