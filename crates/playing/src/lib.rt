//! Playing scripts over a store: how the scripts of the clients are read from their sources, how a
//! run goes through the order of play, and how it is printed.
#![tactic(auto)]

mod answers;
mod ends;
mod files;
mod line;
mod play;
mod played;
mod printed;
mod run;
mod scripts;
mod shown;
mod text;
mod texts;
mod unread;

pub use answers::{append_answer, append_answers, append_client};
pub use ends::{finish_run, halt_run};
pub use files::{append_files, ends_tell};
pub use line::{LineEnd, play_line};
pub use play::afs_play;
pub use played::Played;
pub use printed::{answered_text, printed_text};
pub use run::play_all;
pub use scripts::read_scripts;
pub use unread::{Unread, end_unread};

#[cfg(test)]
mod tests;
