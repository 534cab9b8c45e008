// How calls end that did not do all.
ghost use Rattle.std.specs.Prelude.{◌≡◌, ◌⊎◌, ◌≤◌, IfOk, string_bytes};
ghost use Rattle.drives.specs.declared.device.Half.{Half};
ghost use Rattle.endings.specs.Printing.{HaltsOn, PrintsOn};
ghost use Rattle.endings.specs.Texts.{bad_store_text, drive_text, memory_text, usage_text, why_word};

use crate::put::put_line;
use crate::status::Status;
use afs_base::BlockNo;
use drives::Half;
use page_codec::Why;
use script_text::Sink;
use std::alloc::{AllocError, Global};

/// Ends a call whose words are no command.
pub fn end_usage<K: Sink>(out: &mut K) -> Status
    ensures status { result ≡ Status.Usage }
    ensures prints { PrintsOn K.written K.faults out.old out.new usage_text }
    ensures later { K.faults out.old ≤ K.faults out.new }
{
    put_line(out, b"usage\n");
    Status::Usage
}

/// Ends a call for want of memory.
pub fn end_memory<K: Sink>(out: &mut K) -> Status
    ensures status { result ≡ Status.Memory }
    ensures prints { PrintsOn K.written K.faults out.old out.new memory_text }
    ensures later { K.faults out.old ≤ K.faults out.new }
{
    put_line(out, b"memory\n");
    Status::Memory
}

/// The line that names a half.
pub fn drive_line(half: Half) -> &'static [u8]
    ensures { result.now ≡ drive_text half }
{
    match half {
        Half::A => b"drive A\n",
        Half::B => b"drive B\n",
    }
}

/// Ends a call that this half stopped.
pub fn end_drive<K: Sink>(out: &mut K, half: Half) -> Status
    ensures status { result ≡ Status.DriveFault }
    ensures prints { PrintsOn K.written K.faults out.old out.new (drive_text half) }
    ensures later { K.faults out.old ≤ K.faults out.new }
{
    put_line(out, drive_line(half));
    Status::DriveFault
}

/// The word for a cause.
pub fn why_word(why: Why) -> &'static str
    ensures { result.now ≡ why_word why }
{
    match why {
        Why::Closed => "closed",
        Why::Kind => "kind",
        Why::Level => "level",
        Why::Code => "code",
        Why::Reference => "reference",
        Why::Length => "length",
        Why::Object => "object",
        Why::Serial => "serial",
        Why::Member => "member",
        Why::Zero => "zero",
        Why::Format => "format",
        Why::Blocks => "blocks",
        Why::Generation => "generation",
        Why::Secret => "secret",
        Why::Base => "base",
        Why::Seen => "seen",
        Why::Index => "index",
        Why::Empty => "empty",
    }
}

/// The line that names a block of a store that is not lawful, and why.
fn bad_store_line(alloc: Global, block: BlockNo, why: Why) -> Result<String, AllocError>
    ensures { IfOk result
        (λ line. string_bytes line ≡ bad_store_text (record { block = block; why = why })) }
{
    let number = block.get();
    let word = why_word(why);
    format!(in alloc; "bad store: block {number} {word}\n")
}

/// Ends a call over a store that is not lawful.
pub fn end_bad_store<K: Sink>(alloc: Global, out: &mut K, block: BlockNo, why: Why) -> Status
    ensures ends { HaltsOn K.written K.faults out.old out.new
        (bad_store_text (record { block = block; why = why })) Status.BadStore result }
    ensures later { K.faults out.old ≤ K.faults out.new }
{
    match bad_store_line(alloc, block, why) {
        Ok(line) => {
            put_line(out, line.as_bytes());
            Status::BadStore
        }
        Err(_) => end_memory(out),
    }
}
