ghost use Rattle.std.specs.Prelude.{◌≡◌, ◌+◌, ◌≤◌, [], vec_len, IfNone, IfOk, IfSome};
ghost use Rattle.frame_pool.specs.Leasing.{unused_run, left};

use crate::lease::Lease;
use crate::run::{FRAMES, Run};
use afs_base::Memory;
use std::alloc::Global;
use std::marker::Model;

/// The leases of a pool that were not given out yet. Contracts see the number of the next one, from 0, and how many there are in all.
#[derive(Drop)]
pub struct Leases<R> {
    // The next one is the last of these.
    rest: Vec<Lease<R>>,
    clients: u32,
}

impl<R> Model for Leases<R> {
    ghost use Rattle.std.specs.Prelude.{◌≡◌, ◌-◌, ◌≤◌, vec_len};
    ghost use Rattle.frame_pool.specs.Leasing.{Waiting, waiting, AreUnused};

    ghost Value = { Waiting };

    ghost view = { λ s. waiting (s.clients - vec_len s.rest) s.clients };

    ghost invariant = { λ s. (vec_len s.rest ≤ s.clients)
        × AreUnused (λ l. l.run) (λ l. l.rows.items) s.clients s.rest.items };
}

impl<R: Drop> Leases<R> {
    /// The leases of so many clients, 1 to 16.
    pub(crate) fn make(alloc: Global, clients: u32) -> Result<Leases<R>, Memory>
        requires { (1 ≤ clients) × (clients ≤ 16) }
        ensures { IfOk result (λ s. (s.next ≡ 0) × (s.clients ≡ clients)) }
    {
        let mut rest = Vec::with_capacity(alloc, clients as usize)?;
        for k in 0..clients {
            rest.push(Lease {
                run: Run::make(alloc, clients - 1 - k)?,
                rows: Vec::with_capacity(alloc, FRAMES as usize)?,
            })?;
        }
        Ok(Leases { rest, clients })
    }
}

impl<R> Leases<R> {
    /// The next lease: the k-th has the frames from number 1,024 k on, none of which is out, and no rows. None exactly after so many as there
    /// are clients.
    pub fn next(&mut self) -> Option<Lease<R>>
        ensures some { IfSome result (λ l. (l.run ≡ unused_run self.old.next)
            × (left l.run ≡ 1024) × (l.rows.items ≡ [])
            × (self.new.next ≡ self.old.next + 1)) }
        ensures none { IfNone result
            ((self.old.next ≡ self.old.clients) × (self.new.next ≡ self.old.next)) }
        ensures clients { self.new.clients ≡ self.old.clients }
    {
        match self.rest.pop() {
            Some(lease) => Some(lease),
            None => None,
        }
    }
}
