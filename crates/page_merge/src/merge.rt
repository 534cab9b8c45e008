ghost use Rattle.std.specs.Prelude.{◌≡◌, ◌+◌, ◌-◌, ◌^◌, ◌<◌, ◌≤◌, ◌&&◌, min, length, false, if◌then◌else◌};
ghost use Rattle.std.specs.List.{list_any};
ghost use Rattle.page_places.specs.Places.{has_bit};
ghost use Rattle.page_codec.specs.Bounds.{is_used};
ghost use Rattle.page_merge.specs.Jobs.{clash_of, first_shared, merged, merged_slot, merged_slots, outcome_of};

use crate::clash::Clash;
use crate::job::Job;
use afs_base::{Kind, SLOTS, Slot, Steps};
use page_codec::{Page, Reference};

/// Whether the slot's bit is set.
fn has_bit(mask: u16, slot: usize) -> bool
    requires { slot < SLOTS }
    ensures { result ≡ has_bit mask slot }
{
    mask >> slot & 1 == 1
}

/// The least slot that is in both masks.
fn first_shared(a: u16, b: u16) -> Option<Slot>
    ensures { result ≡ first_shared a b }
{
    for slot in 0..SLOTS {
        if has_bit(a, slot) && has_bit(b, slot) {
            return Some(Slot::at(slot as u8));
        }
    }
    None
}

/// What one update read and the other wrote: the data, else the least slot.
fn clash_of(job: &Job) -> Option<Kind>
    ensures { result ≡ clash_of job.now }
{
    if job.marks.read() && job.changed.written() {
        return Some(Kind::Data);
    }
    match first_shared(job.searched, job.theirs.modified) {
        Some(slot) => Some(Kind::Slot(slot)),
        None => None,
    }
}

/// A slot of the merged page.
fn merged_slot(kept: bool, changed: bool, mine: &Reference, theirs: &Reference) -> Reference
    ensures { result ≡ merged_slot kept changed mine.now theirs.now }
{
    if kept {
        Reference {
            flags: mine.flags,
            block: theirs.block.or(mine.block),
        }
    } else if changed {
        *mine
    } else {
        *theirs
    }
}

/// Writes the slots of the merged page.
fn fill_slots(
    kept: u16,
    changed: u16,
    mine: &[Reference],
    theirs: &[Reference],
    refs: &mut [Reference],
)
    requires mine { length mine.now ≡ SLOTS }
    requires theirs { length theirs.now ≡ SLOTS }
    requires refs { length refs.old ≡ SLOTS }
    ensures { refs.new ≡ merged_slots kept changed 0 mine.now theirs.now }
{
    for slot in 0..SLOTS {
        refs[slot] = merged_slot(
            has_bit(kept, slot),
            has_bit(changed, slot),
            &mine[slot],
            &theirs[slot],
        );
    }
}

/// The page of both: my level, my data where I wrote it, and the mask of the slots that I changed.
fn joined(mine: &Page, theirs: &Page, wrote: bool, changed: u16, kept: u16) -> Page
    requires { mine.now.level ≡ theirs.now.level }
    ensures { result ≡ record {
      level = mine.now.level;
      modified = changed;
      refs = merged_slots kept changed 0 mine.now.refs theirs.now.refs;
      bytes = if wrote then mine.now.bytes else theirs.now.bytes;
    } }
{
    let mut refs = theirs.refs;
    fill_slots(kept, changed, &mine.refs, &theirs.refs, &mut refs);
    Page {
        level: mine.level,
        modified: changed,
        refs,
        bytes: if wrote { mine.bytes } else { theirs.bytes },
    }
}

/// The page of both, where they do not clash.
fn merged(job: &Job) -> Page
    ensures { result ≡ merged job.now }
{
    joined(
        &job.mine,
        &job.theirs,
        job.marks.written(),
        job.modified,
        job.kept,
    )
}

/// Merges two pages at one path. A clash exactly where I read the data and they wrote it, else where I read a slot and they wrote it, and
/// then it is the least such slot. Otherwise the page has my data where I wrote it and theirs elsewhere; of a child that I keep my marks,
/// and their block where they have one; my slot where I changed it; and their slot elsewhere. Its level and its mask are mine. One step.
/// Takes no memory.
pub fn merge_page(job: &Job, steps: &mut Steps) -> Result<Page, Clash>
    ensures value { result ≡ outcome_of job.now }
    ensures steps { steps.new ≡ min (steps.old + 1) (2 ^ 64 - 1) }
{
    steps.tick();
    match clash_of(job) {
        Some(kind) => Err(Clash { kind }),
        None => Ok(merged(job)),
    }
}
