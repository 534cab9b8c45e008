// Reading the scripts of all clients.
ghost use Rattle.std.specs.Prelude.{◌≡◌, ◌≤◌, ℕ, List, IfErr, IfOk, OnOk, MatchOption, MatchResult, length};
ghost use Rattle.std.specs.List.{All};
ghost use Rattle.afs_base.specs.declared.limits.TheConstants.{MAX_CLIENTS};
ghost use Rattle.session.specs.Built.{AreBuilt, is_built};
ghost use Rattle.playing.specs.Parsing.{AreSaid, IsRefusedFor, IsUnbuiltFor, IsUnparsed, refused_for};
ghost use Rattle.playing.specs.Sources.{AreLater, AreTaken, script_of};
ghost use Rattle.playing.specs.Taking.{bytes_of};
ghost use Rattle.playing.specs.Unread.{AreRead, IsUnbuiltAt, IsUnread};
ghost use Rattle.script_text.specs.declared.script.Mode.TheVariants.{Numbers};
ghost use Rattle.script_text.specs.Grammar.{IsInGrammar};
ghost use Rattle.script_text.specs.ScriptValue.{ScriptValue};

use crate::texts::{client_at, read_texts};
use crate::unread::Unread;
use afs_base::{ClientNo, MAX_CLIENTS};
use script_text::{Command, Mode, Script, ScriptRefused, Source, parse};
use std::alloc::Global;

/// Why the script of a client is not played whose text was refused.
fn refused_for(client: ClientNo, refused: ScriptRefused) -> Unread
    ensures { result ≡ refused_for client refused }
{
    match refused {
        ScriptRefused::BadLine { line, why } => Unread::Line { client, line, why },
        ScriptRefused::Memory => Unread::Memory,
    }
}

/// Parses the text of a client.
fn parse_text(alloc: Global, client: ClientNo, text: &[u8]) -> Result<Script, Unread>
    ensures said { IfOk result (λ s. s ≡ script_of text.now) }
    ensures grammar { OnOk result (IsInGrammar Numbers text.now) }
    ensures refused { IfErr result (IsRefusedFor client text.now) }
{
    match parse(alloc, Mode::Numbers, text) {
        Ok(script) => Ok(script),
        Err(refused) => Err(refused_for(client, refused)),
    }
}

/// Parses texts, client 1 first. The first that is outside the grammar is the last.
fn parse_texts(alloc: Global, texts: &[Vec<u8>]) -> Result<Vec<Script>, Unread>
    requires { length texts.now ≤ MAX_CLIENTS }
    ensures { MatchResult result (λ v. AreSaid (bytes_of texts.now) v.items)
        (IsUnparsed (bytes_of texts.now)) }
{
    let mut scripts = Vec::new(alloc);
    for place in 0..texts.len() {
        let script = parse_text(alloc, client_at(place), &texts[place])?;
        scripts.push(script)?;
    }
    Ok(scripts)
}

/// Whether a line of this kind is played.
fn is_built(command: &Command) -> bool
    ensures { result ≡ is_built command.now }
{
    match command {
        Command::Begin { .. } | Command::Pick { .. } | Command::Do { .. } => true,
        Command::Commit | Command::Abandon => true,
        Command::Super { .. } | Command::Create | Command::Destroy { .. } => false,
        Command::Prune { .. } | Command::Restrict { .. } => false,
    }
}

/// The number of the first line of a script that is not played.
fn unbuilt_line(script: &Script) -> Option<u32>
    ensures { MatchOption result (AreBuilt script.now) (IsUnbuiltAt script.now.lines) }
{
    for place in 0..script.len() {
        let line = script.line(place);
        if !is_built(&line.command) {
            return Some(line.number);
        }
    }
    None
}

/// Refuses scripts with lines that are not played.
fn check_built(scripts: &[Script]) -> Result<(), Unread>
    requires { length scripts.now ≤ MAX_CLIENTS }
    ensures { MatchResult result (λ _. All AreBuilt scripts.now) (IsUnbuiltFor scripts.now) }
{
    for place in 0..scripts.len() {
        match unbuilt_line(&scripts[place]) {
            Some(line) => {
                let client = client_at(place);
                return Err(Unread::Unbuilt { client, line });
            }
            None => {}
        }
    }
    Ok(())
}

/// Reads the scripts of all clients, each to the end of its source, and parses them once all are
/// there: files are named by numbers. The least client with a text outside the grammar, and then
/// the least with a line of a kind that is not played, is told with its least such line.
pub fn read_scripts<S: Source>(alloc: Global, sources: &mut [S]) -> Result<Vec<Script>, Unread>
    requires some { 1 ≤ length sources.old }
    requires few { length sources.old ≤ MAX_CLIENTS }
    ensures read { IfOk result (λ v. AreRead S.Source sources.old sources.new v.items) }
    ensures unread { IfErr result (IsUnread S.Source sources.old sources.new) }
    ensures taken { AreTaken S.Source sources.old sources.new }
    ensures later { AreLater S.Source sources.old sources.new }
{
    let texts = read_texts(alloc, sources)?;
    let scripts = parse_texts(alloc, &texts)?;
    check_built(&scripts)?;
    Ok(scripts)
}
