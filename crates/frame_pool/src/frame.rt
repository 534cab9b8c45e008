ghost use Rattle.std.specs.Prelude.{◌≡◌};

use std::marker::Model;

/// A frame that is out. It is not copied, and goes back by `Pool::give`. Contracts see its number among the frames of its pool.
#[derive(Debug, Drop)]
pub struct Frame {
    number: u32,
}

impl Model for Frame {
    ghost use Rattle.std.specs.Prelude.{ℕ};

    ghost Value = { ℕ };

    ghost view = { λ f. f.number };
}

impl Frame {
    /// The frame of a number.
    pub(crate) fn numbered(number: u32) -> Frame
        ensures { result ≡ number }
    {
        Frame { number }
    }

    /// Its number among the frames of its pool.
    pub(crate) fn number(&self) -> u32
        ensures { result ≡ self.now }
    {
        self.number
    }

    /// Its place among the frames of its pool.
    pub(crate) fn place(&self) -> usize
        ensures { result ≡ self.now }
    {
        self.number as usize
    }
}
