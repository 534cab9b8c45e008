ghost use Rattle.std.specs.Prelude.{◌≡◌, ◌≤◌, ◌<◌, ◌++◌, ◌∷◌, [], length, IfOk, None, Some};
ghost use Rattle.std.specs.Prelude.{option_copied, slice_get, vec_len};

// What a run did so far, and what a client was answered, in room that was made before: no turn takes
// memory.

use afs_base::Memory;
use script_text::LineReply;
use service_model::{Entry, Journal};
use std::alloc::Global;
use std::marker::Model;

/// What a run did so far, in room for so many entries.
#[derive(Debug, Drop)]
pub struct Log {
    journal: Journal,
    ghost whole: { vec_len journal.entries ≡ length journal.entries.items },
}

impl Log {
    ghost use Rattle.session.specs.Values.{IsNoted, entries_in, room_in};

    /// Nothing yet, in room for so many entries.
    pub(crate) fn make(alloc: Global, room: usize) -> Result<Log, Memory>
        ensures { IfOk result (λ l. (entries_in l ≡ []) × (l.journal.doubt ≡ None)
            × (room ≤ room_in l)) }
    {
        let mut entries = Vec::new(alloc);
        entries.reserve(room)?;
        Ok(Log {
            journal: Journal {
                entries,
                doubt: None,
            },
        })
    }

    /// Notes an entry.
    pub(crate) fn note(&mut self, entry: Entry)
        requires { length (entries_in self.old) < room_in self.old }
        ensures { IsNoted self.old self.new (entry ∷ []) }
    {
        self.journal.entries.push_reserved(entry);
    }

    /// Notes an entry that may be done or not.
    pub(crate) fn doubt(&mut self, entry: Entry)
        ensures entries { self.new.journal.entries ≡ self.old.journal.entries }
        ensures doubt { self.new.journal.doubt ≡ Some entry }
    {
        self.journal.doubt = Some(entry);
    }

    /// The journal.
    pub fn journal(&self) -> &Journal
        ensures { result.now ≡ self.now.journal }
    {
        &self.journal
    }

    /// The journal, by itself.
    pub fn into_journal(self) -> Journal
        ensures { result ≡ self.journal }
    {
        let Log { journal } = self;
        journal
    }
}

/// The answers to a client's lines so far, in room for so many.
#[derive(Debug, Drop)]
pub struct Replies {
    list: Vec<LineReply>,
}

impl Model for Replies {
    ghost use Rattle.std.specs.Prelude.{◌≡◌, length, vec_len, vec_capacity};
    ghost use Rattle.session.specs.Values.{RepliesValue};

    ghost Value = { RepliesValue };

    ghost view = { λ r. record { items = r.list.items; room = vec_capacity r.list } };

    ghost invariant = { λ r. vec_len r.list ≡ length r.list.items };
}

impl Replies {
    /// No answers, in room for so many.
    pub(crate) fn make(alloc: Global, room: usize) -> Result<Replies, Memory>
        ensures { IfOk result (λ r. (r.items ≡ []) × (room ≤ r.room)) }
    {
        let mut list = Vec::new(alloc);
        list.reserve(room)?;
        Ok(Replies { list })
    }

    /// How many lines were answered.
    pub fn len(&self) -> usize
        ensures { result ≡ length self.now.items }
    {
        self.list.len()
    }

    /// The answer to the line at a place, from 0, where it is answered.
    pub fn get(&self, place: usize) -> Option<&LineReply>
        ensures { option_copied result ≡ slice_get self.now.items place }
    {
        self.list.get(place)
    }

    /// Adds the answer to the next line.
    pub(crate) fn push(&mut self, reply: LineReply)
        requires { length self.old.items < self.old.room }
        ensures { self.new ≡ record self.old { items = self.old.items ++ reply ∷ [] } }
    {
        self.list.push_reserved(reply);
    }
}
