// Values that clauses alone read: what was, kept without a byte of memory.
ghost use Rattle.std.specs.Prelude.{◌≡◌, List, [], ◌∷◌};

use std::marker::Model;
use std::snapshot::Snapshot;

/// A list that only clauses see, the newest first. It takes no memory.
#[cycle(remembered)]
#[derive(Drop)]
pub struct Remembered<T> {
    top: Link<T>,
}

#[cycle(remembered)]
#[derive(Drop)]
enum Link<T> {
    End,
    More(Snapshot<T>, Snapshot<Remembered<T>>),
}

impl<T> Model for Remembered<T> {
    ghost use Rattle.std.specs.Prelude.{List, ℕ, length};

    ghost Value = { List T };

    ghost use Rattle.drives.specs.Remembered.{links};

    ghost view = { λ r. links r.top };

    ghost size = { length };

    ghost use Rattle.std.proofs.Common.{arith};

    ghost size_decreases = { λ a h. Prim.grind arith };
}

impl<T> Remembered<T> {
    /// Nothing is remembered.
    pub fn nothing() -> Remembered<T>
        ensures { result ≡ [] }
    {
        Remembered { top: Link::End }
    }

    /// Remembers one more value.
    pub fn push(&mut self, value: Snapshot<T>)
        ensures { self.new ≡ value.value ∷ self.old }
    {
        let earlier = Snapshot::of(self);
        self.top = Link::More(value, earlier);
    }
}

/// A range of a half's bytes that a write named.
#[derive(Drop)]
pub struct Span {
    pub at: u64,
    pub len: u64,
}
