// Printing lines.
ghost use Rattle.std.specs.Prelude.{◌≡◌, ℕ, ◌<◌, ◌≤◌, List, Option, OnOk, OnErr, length, take, drop};
ghost use Rattle.std.specs.Io.KnownBytes.{Appends};
ghost use Rattle.afs_base.specs.Causes.{HasCause};
ghost use Rattle.script_text.specs.Front.{AppendsFront};
ghost use Rattle.endings.specs.Printing.{FinishesOn, IsFirstLine, PrintsOn};

use crate::status::Status;
use afs_base::Failed;
use script_text::Sink;

/// The length of the first line of a text, with its line feed; of a text without a line feed it is that of all.
fn first_line_len(text: &[u8]) -> usize
    requires { 0 < length text.now }
    ensures within { result ≤ length text.now }
    ensures line { IsFirstLine text.now (take result text.now) (drop result text.now) }
{
    match text.iter().position(|b| *b == b'\n') {
        Some(at) => at + 1,
        None => text.len(),
    }
}

/// Prints a text, each line of it in one call of the sink. The first line that the sink refuses is the last.
pub fn put_text<K: Sink>(out: &mut K, text: &[u8]) -> Result<(), Failed>
    ensures ok { OnOk result (Appends (K.written out.old) (K.written out.new) text.now) }
    ensures failed { OnErr result (AppendsFront (K.written out.old) (K.written out.new) text.now) }
    ensures cause { HasCause (K.faults out.old) (K.faults out.new) result }
{
    let mut rest = text;
    'lines: while !rest.is_empty() {
        let (line, others) = rest.split_at(first_line_len(rest));
        out.put(line)?;
        rest = others;
    }
    Ok(())
}

/// Prints a line for a status, which stays where the line is refused.
pub fn put_line<K: Sink>(out: &mut K, line: &[u8])
    ensures prints { PrintsOn K.written K.faults out.old out.new line.now }
    ensures later { K.faults out.old ≤ K.faults out.new }
{
    match out.put(line) {
        Ok(()) => {}
        Err(_) => {}
    }
}

/// Prints a text for a status, which stays where a line is refused.
pub fn print_text<K: Sink>(out: &mut K, text: &[u8])
    ensures prints { PrintsOn K.written K.faults out.old out.new text.now }
    ensures later { K.faults out.old ≤ K.faults out.new }
{
    match put_text(out, text) {
        Ok(()) => {}
        Err(_) => {}
    }
}

/// Prints what a call that has done all is to print, and says how it ends.
pub fn finish<K: Sink>(out: &mut K, text: &[u8]) -> Status
    ensures ends { FinishesOn K.written K.faults out.old out.new text.now result }
    ensures kept { result ≡ Status.Success → K.faults out.new ≡ K.faults out.old }
    ensures later { K.faults out.old ≤ K.faults out.new }
{
    match put_text(out, text) {
        Ok(()) => Status::Success,
        Err(_) => Status::SinkFault,
    }
}
