ghost use Rattle.std.specs.Prelude.{ℕ, ◌+◌, Some, None, if◌then◌else◌, nat_lt};

use crate::{Gate, OpenGate, Turns, run_crew};
use afs_base::ClientNo;
use std::sync::atomic::{AtomicU64, Ordering};
use std::test::Fail;

// How often a waiting client looks for the other, at most.
const LIMIT: u64 = 1_000_000_000;

// A worker that counts its lines, from line 1 on.
#[derive(Drop)]
struct Counting {
    client: ClientNo,
    done: u32,
    last: u32,
}

impl Turns for Counting {
    ghost Mark = { ℕ };

    ghost mark = { λ w. w.last };

    ghost client_of = { λ w. w.client };

    ghost next_of = { λ w. if nat_lt w.done w.last then Some (w.done + 1) else None };

    fn client(&self) -> ClientNo {
        self.client
    }

    fn next_line(&self) -> Option<u32> {
        if self.done < self.last {
            Some(self.done + 1)
        } else {
            None
        }
    }

    fn line(&mut self) {
        self.done = self.done.saturating_add(1);
    }
}

// A gate at which two clients wait before their lines 1 and 2, until the other has come to the same line.
#[derive(Drop)]
struct Meeting {
    first: AtomicU64,
    second: AtomicU64,
    met: AtomicU64,
}

impl Meeting {
    fn new() -> Meeting {
        Meeting {
            first: AtomicU64::new(0),
            second: AtomicU64::new(0),
            met: AtomicU64::new(0),
        }
    }

    // Comes to a line, and waits for the other, so many looks at most.
    fn wait_for_both(&self, come: &AtomicU64) {
        come.fetch_add(1, Ordering::SeqCst);
        for _ in 0..LIMIT {
            if come.load(Ordering::SeqCst) == 2 {
                self.met.fetch_add(1, Ordering::SeqCst);
                return;
            }
        }
    }
}

impl Gate for Meeting {
    fn pass(&self, _client: ClientNo, line: u32) {
        match line {
            1 => self.wait_for_both(&self.first),
            2 => self.wait_for_both(&self.second),
            _ => {}
        }
    }
}

#[test]
fn two_workers_meet_at_the_gate(rt: HostRuntime) -> Result<(), Fail> {
    let (Ok(one), Ok(two)) = (ClientNo::of(1), ClientNo::of(2)) else {
        panic!(rt; "client numbers")
    };
    let mut workers = [
        Counting {
            client: one,
            done: 0,
            last: 3,
        },
        Counting {
            client: two,
            done: 0,
            last: 5,
        },
    ];
    let gate = Meeting::new();
    run_crew(&rt, &mut workers, &gate);
    assert!(rt; workers[0].done == 3 && workers[1].done == 5);
    assert!(rt; gate.met.load(Ordering::SeqCst) == 4);
    run_crew(&rt, &mut workers, &OpenGate);
    assert!(rt; workers[0].done == 3 && workers[1].done == 5);
    Ok(())
}
