ghost use Rattle.std.specs.Prelude.{◌≡◌, None};

use afs_base::Failed;
use script_text::Sink;
use std::io;

/// Standard output as a sink. It counts its faults, and tells nothing of what it wrote.
#[derive(Drop)]
pub struct StdSink<'a, R> {
    rt: &'a R,
    faults: u64,
}

impl<'a, R: Print> StdSink<'a, R> {
    /// The standard output of this runtime.
    pub fn over(rt: &'a R) -> StdSink<'a, R>
        ensures { result.faults ≡ 0 }
    {
        StdSink { rt, faults: 0 }
    }
}

impl<R: Print> Sink for StdSink<'_, R> {
    ghost written = { λ _. None };

    ghost faults = { λ s. s.faults };

    fn put(&mut self, line: &[u8]) -> Result<(), Failed> {
        match io::Write::write_all(&mut io::writer(self.rt), line) {
            Ok(()) => Ok(()),
            Err(_) => {
                self.faults = self.faults.saturating_add(1);
                Err(Failed)
            }
        }
    }
}
