// How a call ends after its run.
ghost use Rattle.std.specs.Prelude.{◌≡◌, ◌≤◌, ◌++◌, IfOk};
ghost use Rattle.afs_base.specs.Causes.{Rose};
ghost use Rattle.endings.specs.Printing.{DoneEnds, HaltsOn};
ghost use Rattle.endings.specs.Texts.{drive_text};
ghost use Rattle.playing.specs.Running.{AreAnswered, IsShown};
ghost use Rattle.playing.specs.Statuses.{IsBeforeOpening};
ghost use Rattle.service_model.specs.Print.{answers_printed, printed};
ghost use Rattle.service_model.specs.Standing.{Standing};

use crate::played::Played;
use crate::printed::{answered_text, printed_text};
use afs_base::Memory;
use drives::Half;
use endings::{Status, drive_line, end_memory, finish, print_text};
use script_text::Sink;
use std::alloc::Global;

/// Ends a call whose run came to its end: prints the answers and the files.
pub fn finish_run<R: Played, K: Sink>(alloc: Global, out: &mut K, run: &R) -> Status
    ensures ends { (s : Standing) → IsShown (R.answers run.now) (R.told run.now) s
        → DoneEnds (K.written out.old) (K.written out.new)
        (Rose (K.faults out.old) (K.faults out.new)) (printed (R.scripts run.now) s) result }
    ensures kept { result ≡ Status.Success → K.faults out.new ≡ K.faults out.old }
    ensures sound { result ≡ Status.DriveFault → ⊥ }
    ensures opened { IsBeforeOpening result → ⊥ }
    ensures later { K.faults out.old ≤ K.faults out.new }
{
    match printed_text(alloc, run) {
        Ok(text) => finish(out, &text),
        Err(_) => end_memory(out),
    }
}

/// The answers so far, and then the line that names a half.
fn stopped_text<R: Played>(alloc: Global, run: &R, half: Half) -> Result<Vec<u8>, Memory>
    ensures { IfOk result (λ text. (s : Standing) → AreAnswered (R.answers run.now) s.clients
        → text.items ≡ answers_printed (R.scripts run.now) s ++ drive_text half) }
{
    let mut text = answered_text(alloc, run)?;
    text.extend_from_slice(drive_line(half))?;
    Ok(text)
}

/// Ends a call whose run this half stopped: prints the answers so far, and names the half.
pub fn halt_run<R: Played, K: Sink>(alloc: Global, out: &mut K, run: &R, half: Half) -> Status
    ensures ends { (s : Standing) → AreAnswered (R.answers run.now) s.clients
        → HaltsOn K.written K.faults out.old out.new
        (answers_printed (R.scripts run.now) s ++ drive_text half) Status.DriveFault result }
    ensures opened { IsBeforeOpening result → ⊥ }
    ensures later { K.faults out.old ≤ K.faults out.new }
{
    match stopped_text(alloc, run, half) {
        Ok(text) => {
            print_text(out, &text);
            Status::DriveFault
        }
        Err(_) => end_memory(out),
    }
}
