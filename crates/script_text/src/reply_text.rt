ghost use Rattle.std.specs.Prelude.{◌≡◌, ◌++◌, IfOk, OnOk, OnErr, codes};
ghost use Rattle.std.specs.String.{string_bytes};
ghost use Rattle.std.specs.List.{flat_map};
ghost use Rattle.hex.specs.Hex.{encode_lower};
ghost use Rattle.script_text.specs.declared.reply.LineRefusal.TheVariants.{Conflict};
ghost use Rattle.script_text.specs.ReplyText.{spaced, slots_text, data_text, step_text, path_text, kind_text, why_text, refusal_text, created_text, reply_text};

use crate::reply::{LineRefusal, LineReply};
use crate::serials::Serials;
use afs_base::{Kind, Memory, Path};
use caps::{Capability, DeniedWhy};
use std::alloc::{AllocError, Global};
use std::fmt::Write;
use tree_model::Reply;

/// Appends the text of an answer, without a line feed. Without memory for it nothing is appended.
pub fn print_reply(alloc: Global, reply: &LineReply, out: &mut Vec<u8>) -> Result<(), Memory>
    ensures ok { OnOk result (out.new.items ≡ out.old.items ++ reply_text reply.now) }
    ensures err { OnErr result (out.new.items ≡ out.old.items) }
{
    let text = reply_text(alloc, reply)?;
    out.extend_from_slice(text.as_bytes())?;
    Ok(())
}

fn reply_text(alloc: Global, reply: &LineReply) -> Result<String, AllocError>
    ensures { IfOk result (λ text. string_bytes text ≡ reply_text reply.now) }
{
    match reply {
        LineReply::Base(serials) => base_text(alloc, serials),
        LineReply::Committed(serials) => committed_text(alloc, serials),
        LineReply::Stepped(reply) => step_text(alloc, reply),
        LineReply::Picked => String::from_str(alloc, "ok"),
        LineReply::Abandoned => String::from_str(alloc, "abandoned"),
        LineReply::Created { object, cap } => created_text(alloc, *object, cap),
        LineReply::Destroyed { blocks } => format!(in alloc; "destroyed {blocks}"),
        LineReply::Pruned { first, blocks } => format!(in alloc; "pruned {first} {blocks}"),
        LineReply::Cap(cap) => cap_text(alloc, cap),
        LineReply::Refused(refusal) => refusal_text(alloc, refusal),
    }
}

fn base_text(alloc: Global, serials: &Serials) -> Result<String, AllocError>
    ensures { IfOk result
        (λ text. string_bytes text ≡ codes "base" ++ flat_map spaced serials.now) }
{
    let words = serials_text(alloc, serials.as_slice())?;
    format!(in alloc; "base{words}")
}

fn committed_text(alloc: Global, serials: &Serials) -> Result<String, AllocError>
    ensures { IfOk result
        (λ text. string_bytes text ≡ codes "committed" ++ flat_map spaced serials.now) }
{
    let words = serials_text(alloc, serials.as_slice())?;
    format!(in alloc; "committed{words}")
}

/// The serials, each after a space.
fn serials_text(alloc: Global, serials: &[u64]) -> Result<String, AllocError>
    ensures { IfOk result (λ text. string_bytes text ≡ flat_map spaced serials.now) }
{
    let mut text = String::new(alloc);
    for serial in serials {
        write!(text, " {serial}")?;
    }
    Ok(text)
}

fn created_text(alloc: Global, object: u32, cap: &Option<Capability>) -> Result<String, AllocError>
    ensures { IfOk result (λ text. string_bytes text ≡ created_text object cap.now) }
{
    match cap {
        None => format!(in alloc; "created {object}"),
        Some(cap) => {
            let digits = hex_text(alloc, cap)?;
            format!(in alloc; "created {object} {digits}")
        }
    }
}

fn cap_text(alloc: Global, cap: &Capability) -> Result<String, AllocError>
    ensures { IfOk result (λ text. string_bytes text ≡ codes "cap " ++ encode_lower cap.now) }
{
    let digits = hex_text(alloc, cap)?;
    format!(in alloc; "cap {digits}")
}

/// A capability's 32 digits in lower case.
fn hex_text(alloc: Global, cap: &Capability) -> Result<String, AllocError>
    ensures { IfOk result (λ text. string_bytes text ≡ encode_lower cap.now) }
{
    let bytes = cap.to_bytes();
    hex::encode(alloc, bytes.as_slice())
}

fn step_text(alloc: Global, reply: &Reply) -> Result<String, AllocError>
    ensures { IfOk result (λ text. string_bytes text ≡ step_text reply.now) }
{
    match reply {
        Reply::Bytes(bytes) => data_text(alloc, bytes.bytes()),
        Reply::Slots(mask) => slots_text(alloc, *mask),
        Reply::Done => String::from_str(alloc, "ok"),
        Reply::Absent => String::from_str(alloc, "absent"),
        Reply::Present => String::from_str(alloc, "present"),
    }
}

fn data_text(alloc: Global, bytes: &[u8]) -> Result<String, AllocError>
    ensures { IfOk result (λ text. string_bytes text ≡ data_text bytes.now) }
{
    if bytes.is_empty() {
        return String::from_str(alloc, "data -");
    }
    let digits = hex::encode(alloc, bytes)?;
    format!(in alloc; "data {digits}")
}

fn slots_text(alloc: Global, mask: u16) -> Result<String, AllocError>
    ensures { IfOk result (λ text. string_bytes text ≡ slots_text mask) }
{
    if mask == 0 {
        return String::from_str(alloc, "slots -");
    }
    let mut text = String::from_str(alloc, "slots")?;
    for slot in 0..16u16 {
        if (mask >> slot) % 2 == 1 {
            write!(text, " {slot}")?;
        }
    }
    Ok(text)
}

fn path_text(alloc: Global, path: &Path) -> Result<String, AllocError>
    ensures { IfOk result (λ text. string_bytes text ≡ path_text path.now) }
{
    let slots = path.as_slice();
    if slots.is_empty() {
        return String::from_str(alloc, "/");
    }
    let mut text = String::new(alloc);
    for slot in slots {
        let number = slot.get();
        write!(text, "/{number}")?;
    }
    Ok(text)
}

fn kind_text(alloc: Global, kind: Kind) -> Result<String, AllocError>
    ensures { IfOk result (λ text. string_bytes text ≡ kind_text kind) }
{
    match kind {
        Kind::Data => String::from_str(alloc, "data"),
        Kind::Slot(slot) => {
            let number = slot.get();
            format!(in alloc; "slot {number}")
        }
    }
}

fn conflict_text(alloc: Global, serial: u64, path: &Path, kind: Kind) -> Result<String, AllocError>
    ensures { IfOk result
        (λ text. string_bytes text ≡ refusal_text (Conflict serial path.now kind)) }
{
    let path = path_text(alloc, path)?;
    let kind = kind_text(alloc, kind)?;
    format!(in alloc; "conflict {serial} {path} {kind}")
}

fn why_text(alloc: Global, why: DeniedWhy) -> Result<String, AllocError>
    ensures { IfOk result (λ text. string_bytes text ≡ why_text why) }
{
    match why {
        DeniedWhy::NoObject => String::from_str(alloc, "denied object"),
        DeniedWhy::Check => String::from_str(alloc, "denied check"),
        DeniedWhy::Rights => String::from_str(alloc, "denied rights"),
    }
}

/// A word and a client's number.
fn by_text(alloc: Global, word: &str, client: u8) -> Result<String, AllocError>
    ensures { IfOk result (λ text. string_bytes text ≡ word.now ++ spaced client) }
{
    format!(in alloc; "{word} {client}")
}

fn refusal_text(alloc: Global, refusal: &LineRefusal) -> Result<String, AllocError>
    ensures { IfOk result (λ text. string_bytes text ≡ refusal_text refusal.now) }
{
    match refusal {
        LineRefusal::Open => String::from_str(alloc, "open"),
        LineRefusal::Idle => String::from_str(alloc, "idle"),
        LineRefusal::Denied(denied) => why_text(alloc, denied.why),
        LineRefusal::DeniedTwice => String::from_str(alloc, "denied twice"),
        LineRefusal::DeniedRights => String::from_str(alloc, "denied rights"),
        LineRefusal::Full => String::from_str(alloc, "full"),
        LineRefusal::NoSuchPick => String::from_str(alloc, "absent"),
        LineRefusal::Locked { by } => by_text(alloc, "locked", by.get()),
        LineRefusal::Conflict { serial, path, kind } => conflict_text(alloc, *serial, path, *kind),
        LineRefusal::Worn => String::from_str(alloc, "worn"),
        LineRefusal::NoSpace { needed, free } => format!(in alloc; "nospace {needed} {free}"),
        LineRefusal::Busy { by } => by_text(alloc, "busy", by.get()),
        LineRefusal::Pinned { by } => by_text(alloc, "pinned", by.get()),
        LineRefusal::TableFull => String::from_str(alloc, "tablefull"),
    }
}
