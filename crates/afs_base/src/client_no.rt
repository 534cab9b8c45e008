ghost use Rattle.std.specs.Prelude.{◌≡◌, ℕ, ◌<◌, ◌≤◌, ◌⊎◌, MatchResult};

use crate::limits::MAX_CLIENTS;
use std::marker::Model;
use thiserror::Error;

/// The number of a client, 1 to 16. Contracts see the number.
#[derive(Clone, Copy, Debug, PartialEq, Eq, PartialOrd, Ord, Hash)]
pub struct ClientNo {
    number: u8,
}

impl Model for ClientNo {
    ghost use Rattle.std.specs.Prelude.{ℕ, ◌≤◌};
    ghost use Rattle.afs_base.specs.declared.limits.TheConstants.{MAX_CLIENTS};

    ghost Value = { ℕ };

    ghost view = { λ c. c.number };

    ghost invariant = { λ c. (1 ≤ c.number) × (c.number ≤ MAX_CLIENTS) };

    ghost inverse = { λ n. record { number = n } };
}

/// The number is outside 1 to 16, so it names no client.
#[derive(Clone, Copy, Debug, PartialEq, Eq, Error)]
#[error("{n} is not a client from 1 to 16")]
pub struct ClientRange {
    pub n: u8,
}

impl ClientNo {
    /// The client of this number, 1 to 16; any other number is refused.
    pub fn of(n: u8) -> Result<ClientNo, ClientRange>
        ensures { MatchResult result (λ c. (1 ≤ n) × (n ≤ MAX_CLIENTS) × (c ≡ n))
            (λ e. ((n ≡ 0) ⊎ (MAX_CLIENTS < n)) × (e.n ≡ n)) }
    {
        if n == 0 || n > MAX_CLIENTS {
            Err(ClientRange { n })
        } else {
            Ok(ClientNo { number: n })
        }
    }

    /// Client 1, who is there whenever anyone is.
    pub fn first() -> ClientNo
        ensures { result ≡ 1 }
    {
        ClientNo { number: 1 }
    }

    /// The client's number, 1 to 16.
    pub fn get(self) -> u8
        ensures value { result ≡ self }
        ensures low { 1 ≤ result }
        ensures high { result ≤ MAX_CLIENTS }
    {
        self.number
    }
}
