//! How often each kind of answer came.
use super::lines::Answer;
use super::paths::Kind;

/// How many kinds of answers are told apart.
pub const KINDS: usize = 17;

/// Their names. A commit makes no version, or one after its base, or is merged with later ones.
pub const NAMES: [&str; KINDS] = [
    "base",
    "open",
    "denied",
    "idle",
    "full",
    "absent",
    "present",
    "ok",
    "data",
    "slots",
    "unchanged",
    "next",
    "merged",
    "conflict data",
    "conflict slot",
    "nospace",
    "abandoned",
];

/// The counts, in the order of the names.
#[derive(Drop)]
pub struct Tally {
    counts: [u32; KINDS],
}

/// The place of an answer's kind among the names.
fn kind_of(answer: &Answer) -> usize {
    match answer {
        Answer::Base(_) => 0,
        Answer::Open => 1,
        Answer::Denied => 2,
        Answer::Idle => 3,
        Answer::Full => 4,
        Answer::Absent => 5,
        Answer::Present => 6,
        Answer::Done => 7,
        Answer::Bytes(_) => 8,
        Answer::Slots(_) => 9,
        Answer::Committed(serial, base) => kind_of_commit(*base, *serial),
        Answer::Conflict(_, place) => match place.kind {
            Kind::Data => 13,
            Kind::Slot(_) => 14,
        },
        Answer::NoSpace(_, _) => 15,
        Answer::Abandoned => 16,
    }
}

/// The place of a commit's kind, by the serials of the base and of the version that it answers.
fn kind_of_commit(base: u64, serial: u64) -> usize {
    match serial.saturating_sub(base) {
        0 => 10,
        1 => 11,
        _ => 12,
    }
}

impl Tally {
    pub fn new() -> Tally {
        Tally { counts: [0; KINDS] }
    }

    /// Counts an answer.
    pub fn note(&mut self, answer: &Answer) {
        if let Some(count) = self.counts.get_mut(kind_of(answer)) {
            *count = count.saturating_add(1);
        }
    }

    /// Adds the counts of another tally.
    pub fn add(&mut self, other: &Tally) {
        for (count, more) in self.counts.iter_mut().zip(other.counts.iter()) {
            *count = count.saturating_add(*more);
        }
    }

    pub fn counts(&self) -> &[u32] {
        &self.counts
    }
}
