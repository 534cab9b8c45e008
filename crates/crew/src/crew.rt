//! The crew at work.
ghost use Rattle.crew.specs.Workers.{AllHaveEnded, HasEnded};

use crate::gate::Gate;
use crate::turns::Turns;
use std::sync::Wait;
use std::thread;
use std::thread::Threads;

// Does a worker's lines to the end, each after the gate.
fn run_worker<R: Wait, W: Turns, G: Gate>(rt: &R, worker: &mut W, gate: &G)
    ensures { HasEnded W.mark W.client_of W.next_of worker.old worker.new }
{
    for _ in rt.forever() {
        let Some(line) = worker.next_line() else {
            return;
        };
        gate.pass(worker.client(), line);
        worker.line();
    }
    unreachable!()
}

/// Runs each worker to its end, in a thread of its own, and returns when all have ended.
pub fn run_crew<R: Threads + Wait + Sync, W: Turns + Send, G: Gate + Sync>(
    rt: &R,
    workers: &mut [W],
    gate: &G,
)
    ensures { AllHaveEnded W.mark W.client_of W.next_of workers.old workers.new }
{
    if workers.is_empty() {
        return;
    }
    let count = workers.len();
    thread::for_each_mut(
        rt,
        workers,
        count,
        &|_, worker| run_worker(rt, worker, gate),
    );
}
