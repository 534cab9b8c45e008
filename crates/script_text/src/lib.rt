//! What comes into the service as text and what goes out of it: scripts, the answers to their lines, and the traits of
//! sources and sinks.
#![tactic(auto)]

mod command;
mod copy;
mod data_word;
mod file_word;
mod files;
mod grammar;
mod keyword;
mod line;
mod mem_sink;
mod mem_source;
mod number;
mod path_word;
mod reading;
mod refused;
mod reply;
mod reply_text;
mod script;
mod serials;
mod sink;
mod source;
mod sure_sink;
mod sure_source;
mod verdict;
mod word;

pub use crate::command::{Command, FileName};
pub use crate::files::Files17;
pub use crate::grammar::grammar_law;
pub use crate::mem_sink::MemSink;
pub use crate::mem_source::MemSource;
pub use crate::number::number_in;
pub use crate::reading::parse;
pub use crate::refused::{LineWhy, ScriptRefused};
pub use crate::reply::{LineRefusal, LineReply};
pub use crate::reply_text::print_reply;
pub use crate::script::{Line, Mode, Script};
pub use crate::serials::Serials;
pub use crate::sink::Sink;
pub use crate::source::Source;
pub use crate::sure_sink::SureSink;
pub use crate::sure_source::SureSource;
pub use crate::verdict::MAX_LINES;
