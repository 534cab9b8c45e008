ghost use Rattle.std.specs.Prelude.{◌≡◌, ◌≢◌, ◌⊎◌, Option, Some, None, MatchResult, if◌then◌else◌};
ghost use Rattle.prune_sweep.specs.Keeping.{IsOpenTo, left_by};

use afs_base::ClientNo;
use std::marker::Model;
use thiserror::Error;

/// Whose maintenance is under way: that of one client at the most. Contracts see the client.
#[derive(Clone, Copy, Debug)]
pub struct Keeper1 {
    holder: Option<ClientNo>,
}

impl Model for Keeper1 {
    ghost use Rattle.std.specs.Prelude.{ℕ, Option};

    ghost Value = { Option ℕ };

    ghost view = { λ k. k.holder };

    ghost inverse = { λ holder. record { holder = holder } };
}

/// Another client's maintenance is under way.
#[derive(Clone, Copy, Debug, PartialEq, Eq, Error)]
#[error("maintenance of client {} is under way", by.get())]
pub struct Busy {
    pub by: ClientNo,
}

impl Keeper1 {
    /// No maintenance is under way.
    pub fn make() -> Keeper1
        ensures { result ≡ None }
    {
        Keeper1 { holder: None }
    }

    /// Begins a client's maintenance, unless another client's is under way; then nothing changes.
    pub fn take(&mut self, client: ClientNo) -> Result<(), Busy>
        ensures { MatchResult result (λ _. IsOpenTo client self.old × (self.new ≡ Some client))
            (λ e. (self.old ≡ Some e.by) × (e.by ≢ client) × (self.new ≡ self.old)) }
    {
        if let Some(by) = other(self.holder, client) {
            return Err(Busy { by });
        }
        self.holder = Some(client);
        Ok(())
    }

    /// Ends a client's maintenance. Another client's goes on.
    pub fn leave(&mut self, client: ClientNo)
        ensures { self.new ≡ left_by client self.old }
    {
        self.holder = other(self.holder, client);
    }
}

/// The holder, where that is another client.
fn other(holder: Option<ClientNo>, client: ClientNo) -> Option<ClientNo>
    ensures { result ≡ left_by client holder }
{
    match holder {
        Some(by) => { if by == client { None } else { Some(by) } }
        None => None,
    }
}
