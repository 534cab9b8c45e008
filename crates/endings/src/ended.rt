// What comes back from a call.
ghost use Rattle.std.specs.Prelude.{◌≡◌};
ghost use Rattle.endings.specs.Noted.{IsNothingNoted};

use crate::status::Status;
use service_model::Journal;
use std::alloc::Global;

/// How a call ended: its status, the halves that it was given, and what it did to the store they hold.
#[derive(Drop)]
pub struct Ended<V> {
    pub status: Status,
    pub drives: V,
    pub journal: Journal,
}

impl<V> Ended<V> {
    /// A call that ended so, and did nothing to the store.
    pub fn without_journal(alloc: Global, status: Status, drives: V) -> Ended<V>
        ensures status { result.status ≡ status }
        ensures drives { result.drives ≡ drives }
        ensures noted { IsNothingNoted result.journal }
    {
        Ended {
            status,
            drives,
            journal: Journal {
                entries: Vec::new(alloc),
                doubt: None,
            },
        }
    }
}
