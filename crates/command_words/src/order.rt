// The clients of `play`, in the order in which they come to move.
ghost use Rattle.std.specs.Prelude.{◌≡◌, ◌≤◌, ℕ, List, IfOk, OnErr, MatchBool, MatchOption};
ghost use Rattle.afs_base.specs.declared.limits.TheConstants.{MAX_CLIENTS};
ghost use Rattle.command_words.specs.Orders.{AreClients, IsOrder};
ghost use Rattle.command_words.specs.Words.{bytes_of};
ghost use Rattle.script_text.specs.Says.{IsNumberIn};

use afs_base::{MAX_CLIENTS, Memory};
use script_text::number_in;
use std::alloc::{AllocError, Global};
use std::marker::Model;

/// Clients, each by its number, in the order in which they come to move. Contracts see the list.
#[derive(Debug, Drop)]
pub struct Order {
    clients: Vec<u8>,
}

impl Model for Order {
    ghost use Rattle.std.specs.Prelude.{ℕ, List};

    ghost Value = { List ℕ };

    ghost view = { λ o. o.clients.items };
}

impl Order {
    /// The clients' numbers.
    pub fn as_slice(&self) -> &[u8]
        ensures { result.now ≡ self.now }
    {
        self.clients.as_slice()
    }
}

/// The client, from 1 to the number of scripts, that a word names.
fn client_of(word: &[u8], scripts: u8) -> Option<u8>
    ensures { MatchOption result ((k : ℕ) → IsNumberIn 1 scripts word.now k → ⊥)
        (IsNumberIn 1 scripts word.now) }
{
    match number_in(1, u64::from(scripts), word) {
        Some(client) => Some(client as u8),
        None => None,
    }
}

/// Whether each word names a client.
fn name_clients(words: &[String], scripts: u8) -> bool
    ensures { MatchBool result
        ((clients : List ℕ) × AreClients scripts (bytes_of words.now) clients)
        ((clients : List ℕ) → AreClients scripts (bytes_of words.now) clients → ⊥) }
{
    for word in words {
        match client_of(word.as_bytes(), scripts) {
            Some(_client) => {}
            None => return false,
        }
    }
    true
}

/// The clients that words name.
fn clients_of(alloc: Global, words: &[String], scripts: u8) -> Result<Order, AllocError>
    requires { (clients : List ℕ) × AreClients scripts (bytes_of words.now) clients }
    ensures { IfOk result (AreClients scripts (bytes_of words.now)) }
{
    let mut clients = Vec::new(alloc);
    for word in words {
        match client_of(word.as_bytes(), scripts) {
            Some(client) => clients.push(client)?,
            None => unreachable!(),
        }
    }
    Ok(Order { clients })
}

/// The clients that words name, with so many scripts. Memory is taken only where they do.
pub(crate) fn order_of(
    alloc: Global,
    words: &[String],
    scripts: usize,
) -> Result<Option<Order>, Memory>
    ensures named { IfOk result (λ found. MatchOption found
        ((clients : List ℕ) → IsOrder scripts (bytes_of words.now) clients → ⊥)
        (IsOrder scripts (bytes_of words.now))) }
    ensures memory { OnErr result
        ((clients : List ℕ) × IsOrder scripts (bytes_of words.now) clients) }
{
    if scripts < 1 || scripts > usize::from(MAX_CLIENTS) {
        return Ok(None);
    }
    let scripts = scripts as u8;
    if !name_clients(words, scripts) {
        return Ok(None);
    }
    Ok(Some(clients_of(alloc, words, scripts)?))
}
