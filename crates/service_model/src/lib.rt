//! What a run did, as a journal of entries, and the definitions that say when a journal is lawful, what state it
//! leads to and what it prints. The definitions stand in `specs/`; docs/DEFINITIONS.md has them in plain words.
//! Functions that run nothing have the laws of journals as their contracts.
#![tactic(auto)]

mod journal;
mod laws;
mod named;
mod sayable;

pub use journal::{Entry, Journal, Refusal, What};
pub use laws::{
    commit_does_alike, commit_takes_need, entry_keeps_room, entry_keeps_sound, free_is_the_rest,
    front_reaches, held_is_not_refused, journal_goes_on, journal_has_room, journal_is_sound,
    legal_appends, legal_front, legal_rest, line_keeps_sound, merged_is_unclashed, next_reaches,
    others_stay, serials_rise, standing_appends, start_has_room, start_is_sound,
    unclashed_do_alike,
};
pub use named::{MAX_NAMED, Named, Named17};
pub use sayable::{command_is_sayable, script_is_sayable, scripts_are_sayable, step_is_sayable};
