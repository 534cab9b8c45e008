ghost use Rattle.std.specs.Prelude.{◌≡◌, ◌≢◌, ◌<◌, ◌≤◌, ℕ, List, [], ◌∷◌, ◌++◌, length, MatchOption, MatchResult, find, option_map};
ghost use Rattle.super_files.specs.Locks.{Holds, IsOpenTo, held_count, is_on, without};

use afs_base::{ClientNo, MAX_CLIENTS, MAX_FILES};
use arrayvec::ArrayVec;
use std::marker::Model;
use thiserror::Error;

/// The most locks that stand: sixteen clients hold those of an update of seventeen files each.
const MAX_LOCKS: usize = MAX_CLIENTS as usize * MAX_FILES;

/// Which file of an update a lock is on.
#[derive(Clone, Copy, Debug, PartialEq, Eq)]
pub enum Part {
    /// The first one, whose commit is that of all of them.
    Top,
    /// One of the others.
    Inner,
}

/// A lock of a file, which keeps all other clients from committing there.
#[derive(Clone, Copy, Debug, PartialEq, Eq)]
pub struct Lock {
    pub client: ClientNo,
    pub object: u32,
    pub part: Part,
}

/// Another client holds a lock of the file.
#[derive(Clone, Copy, Debug, PartialEq, Eq, Error)]
#[error("client {} holds the file", by.get())]
pub struct Locked {
    pub by: ClientNo,
}

/// What an unused place holds.
impl Default for Lock {
    fn default() -> Lock {
        Lock {
            client: ClientNo::first(),
            object: 0,
            part: Part::Top,
        }
    }
}

/// The locks that stand, in the order in which they were taken.
#[derive(Debug, Drop)]
pub struct Locks {
    list: ArrayVec<Lock, MAX_LOCKS>,
}

impl Model for Locks {
    ghost use Rattle.std.specs.Prelude.{List};
    ghost use Rattle.super_files.specs.declared.locks.Lock.{Lock};

    ghost Value = { List Lock };

    ghost view = { λ l. l.list.items };

    ghost use Rattle.super_files.specs.Locks.{AreLocks};

    ghost invariant = { λ l. AreLocks l.list.items };
}

impl Locks {
    /// No locks.
    pub fn make() -> Locks
        ensures { result ≡ [] }
    {
        Locks {
            list: ArrayVec::new(),
        }
    }

    /// Locks the first file of a client's update, unless another client holds it; then nothing changes.
    pub fn lock_top(&mut self, client: ClientNo, object: u32) -> Result<(), Locked>
        requires { held_count client self.old < MAX_FILES }
        ensures { MatchResult result (λ _. IsOpenTo client object self.old
            × (self.new
            ≡ self.old ++ record { client = client; object = object; part = Part.Top } ∷
            [])) (λ e. (e.by ≢ client) × Holds e.by object self.old × (self.new ≡ self.old)) }
    {
        self.lock(Lock {
            client,
            object,
            part: Part::Top,
        })
    }

    /// Locks another file of a client's update, unless another client holds it; then nothing changes.
    pub fn lock_inner(&mut self, client: ClientNo, object: u32) -> Result<(), Locked>
        requires { held_count client self.old < MAX_FILES }
        ensures { MatchResult result (λ _. IsOpenTo client object self.old
            × (self.new
            ≡ self.old ++ record { client = client; object = object; part = Part.Inner } ∷
            [])) (λ e. (e.by ≢ client) × Holds e.by object self.old × (self.new ≡ self.old)) }
    {
        self.lock(Lock {
            client,
            object,
            part: Part::Inner,
        })
    }

    /// The client that holds a lock of the object, of either kind; none where nobody does.
    pub fn holder(&self, object: u32) -> Option<ClientNo>
        ensures { MatchOption result ((k : ℕ) → ¬ (Holds k object self.now))
            (λ k. Holds k object self.now) }
    {
        first_on(self.list.as_slice(), object)
    }

    /// Gives up all locks of a client.
    pub fn release(&mut self, client: ClientNo)
        ensures { self.new ≡ without client self.old }
    {
        self.list.retain(|lock| lock.client != client);
    }

    /// All locks that stand.
    pub fn as_slice(&self) -> &[Lock]
        ensures { result.now ≡ self.now }
    {
        self.list.as_slice()
    }

    fn lock(&mut self, lock: Lock) -> Result<(), Locked>
        requires { held_count lock.client self.old < MAX_FILES }
        ensures { MatchResult result
            (λ _. IsOpenTo lock.client lock.object self.old × (self.new ≡ self.old ++ lock ∷ []))
            (λ e. (e.by ≢ lock.client) × Holds e.by lock.object self.old × (self.new ≡ self.old)) }
    {
        match self.other_holder(lock.client, lock.object) {
            Some(by) => Err(Locked { by }),
            None => {
                let _number = lock.client.get();
                self.list.push(lock);
                Ok(())
            }
        }
    }

    /// Another client that holds a lock of the object.
    fn other_holder(&self, client: ClientNo, object: u32) -> Option<ClientNo>
        ensures { MatchOption result (IsOpenTo client object self.now)
            (λ by. (by ≢ client) × Holds by object self.now) }
    {
        let _locks = &self.list;
        match self.holder(object) {
            Some(by) if by != client => Some(by),
            _ => None,
        }
    }
}

/// The client of the first lock on an object.
fn first_on(locks: &[Lock], object: u32) -> Option<ClientNo>
    ensures { result ≡ option_map (λ lock. lock.client) (find (is_on object) locks.now) }
{
    locks
        .iter()
        .find(|lock| lock.object == object)
        .map(|lock| lock.client)
}
