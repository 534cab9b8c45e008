//! The lock and its passes.
ghost use Rattle.std.specs.Prelude.{◌≡◌, ◌≢◌, ℕ, ◌+◌, ◌<◌, [], ◌∷◌, IfErr, IfOk, Some, None};
ghost use Rattle.turn_lock.specs.declared.view.Standing.TheVariants.{Idle, Held};
ghost use Rattle.turn_lock.specs.Carried.{carried_by};
ghost use Rattle.turn_lock.specs.Views.{standing};

use crate::named::Named;
use crate::rule::{Copying, Ending, Law, Release, Shut, Try};
use crate::view::View;
use afs_base::Memory;
use atomic_table::{Refused, Seat, Shared, Table};
use std::alloc::Global;
use std::snapshot::Snapshot;
use std::sync::Wait;
use std::sync::atomic::{AtomicU64, Ordering};

/// A lock over one value. Whoever has the value has the turn. A lock is closed at its end, which gives the value.
pub struct TurnLock<T: Named> {
    table: Table<Option<T>, View<T::Name>, Snapshot<T>, Law, Global>,
    // How many threads may be asleep, so that a turn without a rival asks nothing of the system.
    sleepers: AtomicU64,
    ghost sized: { (table.shared.table_id.words ≡ 1) × (table.shared.table_id.slots ≡ 1) },
}

/// The right to try for the turn. It has no bytes, and it cannot be dropped: it ends by `join` or by `close`.
pub struct Pass<T: Named> {
    seat: Seat<Option<T>, View<T::Name>>,
    ghost carries: { seat.me.1 ≡ carried_by seat.me.0.standing },
}

impl<T: Named> Pass<T> {
    ghost use Rattle.turn_lock.specs.Passes.{lock_of, standing_of, view_of};

    fn into_seat(self) -> Seat<Option<T>, View<T::Name>>
        ensures own { result.table_id ≡ lock_of self }
        ensures view { result.me.0 ≡ view_of self }
        ensures carries { result.me.1 ≡ carried_by (standing_of self) }
    {
        let Self { seat } = self;
        seat
    }
}

/// The turn was not free: a try read this holder word, which is 1 where another pass holds.
#[derive(Clone, Copy, Debug, Drop, PartialEq, Eq)]
pub struct Busy {
    pub word: u64,
}

impl<T: Named> TurnLock<T> {
    ghost use Rattle.turn_lock.specs.Passes.{IsIdleAt, IsOf, IsSamePass, TakesTurn, lock_of, pass_name, standing_of, tries_of, view_of, word_of};

    /// A lock over the value, and its first pass, which holds nothing. Without memory the value comes back.
    pub fn make(alloc: Global, value: T) -> Result<(TurnLock<T>, Pass<T>), (T, Memory)>
        ensures made { IfOk result (λ r. IsIdleAt r.1 r.0 × (pass_name r.1 ≡ Some (T.name value))) }
        ensures back { IfErr result (λ e. e.0 ≡ value) }
    {
        let Ok(mut slots) = Vec::with_capacity(alloc, 1) else {
            return Err((value, Memory));
        };
        let like = Snapshot::of(&value);
        slots.push_reserved(Some(value));
        match Table::new(alloc, &[0], slots, &like) {
            Ok((table, seat)) => {
                let sleepers = AtomicU64::new(0);
                Ok((TurnLock { table, sleepers }, Pass { seat }))
            }
            Err(Refused { mut slots }) => {
                let Some(Some(value)) = slots.pop() else {
                    unreachable!()
                };
                slots.destroy_empty();
                Err((value, Memory))
            }
        }
    }

    /// One try for the turn. It does not wait.
    pub fn try_hold(&self, pass: &mut Pass<T>) -> Result<T, Busy>
        requires own { IsOf pass.old self.now }
        requires idle { standing_of pass.old ≡ Idle }
        ensures same { IsSamePass pass.old pass.new }
        ensures tried { tries_of pass.new ≡ tries_of pass.old + 1 }
        ensures held { IfOk result (TakesTurn pass.old pass.new) }
        ensures idle { IfErr result (λ b. standing_of pass.new ≡ Idle) }
        ensures busy { IfErr result (λ b. (b.word ≡ word_of pass.new) × (b.word ≢ 0)) }
    {
        let word = self
            .table
            .shared
            .compare_exchange::<Try>(&mut pass.seat, 0, 0, 1);
        if word == 0 {
            Ok(self.table.shared.exchange(&mut pass.seat, 0, None).unwrap())
        } else {
            Err(Busy { word })
        }
    }

    /// Waits for the turn.
    pub fn hold<R: Wait>(&self, rt: &R, pass: &mut Pass<T>) -> T
        requires own { IsOf pass.old self.now }
        requires idle { standing_of pass.old ≡ Idle }
        ensures same { IsSamePass pass.old pass.new }
        ensures tried { tries_of pass.old < tries_of pass.new }
        ensures held { TakesTurn pass.old pass.new result }
    {
        for _ in rt.forever() {
            match self.try_hold(pass) {
                Ok(value) => return value,
                Err(_) => self.sleep(rt),
            }
        }
        unreachable!()
    }

    // Sleeps while the turn is taken. The word is read once more after this thread is counted, so a turn that is given
    // back meanwhile is not slept through: whoever gives it either sees the count, or has stored 0 before that reading.
    fn sleep<R: Wait>(&self, rt: &R) {
        self.sleepers.fetch_add(1, Ordering::SeqCst);
        self.table.shared.park(rt, 0, 1);
        self.sleepers.fetch_sub(1, Ordering::SeqCst);
    }

    /// Gives the value back, and wakes one thread that waits for it.
    pub fn give(&self, pass: &mut Pass<T>, value: T)
        requires own { IsOf pass.old self.now }
        requires held { standing_of pass.old ≡ Held }
        requires named { pass_name pass.old ≡ Some (T.name value) }
        ensures own { lock_of pass.new ≡ lock_of pass.old }
        ensures idle { view_of pass.new ≡ standing Idle (view_of pass.old) }
    {
        put_back(&self.table.shared, &mut pass.seat, value);
        self.table.shared.store::<Release>(&mut pass.seat, 0, 0);
        if self.sleepers.load(Ordering::SeqCst) > 0 {
            self.table.shared.wake_one(0);
        }
    }

    /// One more pass, which knows as much and holds nothing.
    pub fn split(&self, pass: &mut Pass<T>) -> Pass<T>
        requires own { IsOf pass.old self.now }
        requires idle { standing_of pass.old ≡ Idle }
        ensures own { (lock_of pass.new ≡ lock_of pass.old) × (lock_of result ≡ lock_of pass.old) }
        ensures same { (view_of pass.new ≡ view_of pass.old) × (view_of result ≡ view_of pass.old) }
    {
        let seat = self.table.shared.split_seat::<Copying>(&mut pass.seat);
        Pass { seat }
    }

    /// Ends the other pass.
    pub fn join(&self, pass: &mut Pass<T>, other: Pass<T>)
        requires idle { IsIdleAt pass.old self.now }
        requires other_idle { IsIdleAt other self.now }
        ensures own { lock_of pass.new ≡ lock_of pass.old }
        ensures same { view_of pass.new ≡ view_of pass.old }
    {
        let seat = other.into_seat();
        self.table.shared.join_seat::<Ending>(&mut pass.seat, seat);
    }

    /// Waits for the turn, and ends the lock.
    pub fn close<R: Wait>(rt: &R, lock: TurnLock<T>, pass: Pass<T>) -> T
        requires own { IsOf pass lock }
        requires idle { standing_of pass ≡ Idle }
        ensures { pass_name pass ≡ Some (T.name result) }
    {
        let mut pass = pass;
        let value = lock.hold(rt, &mut pass);
        let mut seat = pass.into_seat();
        let TurnLock { table, sleepers: _ } = lock;
        put_back(&table.shared, &mut seat, value);
        table.shared.store::<Shut>(&mut seat, 0, 2);
        let mut closed = table.close_with(seat);
        let value = closed.take(0).unwrap();
        closed.free();
        value
    }
}

// The slot, which is out and empty, gets the value.
fn put_back<T: Named>(
    shared: &Shared<Option<T>, View<T::Name>, Snapshot<T>, Law>,
    seat: &mut Seat<Option<T>, View<T::Name>>,
    value: T,
)
    requires own { seat.old.table_id ≡ shared.now.table_id }
    requires out { seat.old.me.1 ≡ (0, None) ∷ [] }
    ensures own { (seat.new.table_id ≡ seat.old.table_id) × (seat.new.id ≡ seat.old.id) }
    ensures put { seat.new.me ≡ (seat.old.me.0, (0, Some value) ∷ []) }
{
    let old = shared.exchange(seat, 0, Some(value));
    let None = old else { unreachable!() };
}
