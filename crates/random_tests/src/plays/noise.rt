//! Scripts and orders of play, drawn from the states of a linear congruential generator.
use super::lines::{Data, Line, NO_DATA, Step};
use super::paths::Path;
use std::alloc::{AllocError, Global};

/// What a store and its scripts are drawn by.
#[derive(Clone, Copy)]
pub struct Mix {
    /// How many blocks the store has.
    pub blocks: usize,
    /// How many lines a script has at least; up to twice as many are drawn.
    pub lines: u64,
    /// In how many slots of a page pages lie, and how deep at most.
    pub slots: u64,
    pub depth: u64,
    /// One line in so many ends the update that is open.
    pub ends: u64,
}

/// A generator, by its state.
#[derive(Drop)]
pub struct Noise {
    state: u64,
}

impl Noise {
    pub fn of(seed: u64) -> Noise {
        Noise { state: seed }
    }

    /// A number below a bound, which is not 0.
    pub fn draw(&mut self, bound: u64) -> u64 {
        self.state = self
            .state
            .wrapping_mul(6364136223846793005)
            .wrapping_add(1442695040888963407);
        (self.state >> 33) % bound.max(1)
    }

    /// Whether one of so many cases is drawn.
    fn is_one_in(&mut self, cases: u64) -> bool {
        self.draw(cases) == 0
    }

    fn slot(&mut self, slots: u64) -> u8 {
        u8::try_from(self.draw(slots)).unwrap_or(0)
    }

    fn path(&mut self, mix: &Mix) -> Path {
        let mut path = Path::ROOT;
        let depth = self.draw(mix.depth.saturating_add(1));
        for _ in 0..depth {
            let slot = self.slot(mix.slots);
            path = path.child(slot).unwrap_or(path);
        }
        path
    }

    /// None or few bytes, now and then as many as a page has at most.
    fn data(&mut self) -> Data {
        let byte = u8::try_from(self.draw(256)).unwrap_or(0);
        let count = if self.is_one_in(40) {
            800
        } else {
            self.draw(4)
        };
        Data {
            byte,
            count: count as usize,
        }
    }

    fn step(&mut self, mix: &Mix) -> Line {
        let at = self.path(mix);
        let step = match self.draw(12) {
            0 | 1 => Step::Read,
            2 => Step::List,
            3 | 4 | 5 | 6 => Step::Write(self.data()),
            7 | 8 | 9 | 10 if !at.is_root() => Step::Make,
            11 if !at.is_root() => Step::Drop,
            _ => Step::Read,
        };
        Line::Do(step, at)
    }

    /// A line where no update is open: mostly a begin, of file 1 more often than of file 2; file 3 is none.
    fn line_outside(&mut self, mix: &Mix) -> Line {
        match self.draw(24) {
            0 => Line::Note,
            1 => Line::Commit,
            2 => Line::Abandon,
            3 => self.step(mix),
            4 => Line::Begin(3),
            5 | 6 | 7 => Line::Begin(2),
            _ => Line::Begin(1),
        }
    }

    /// A line where an update is open.
    fn line_inside(&mut self, mix: &Mix) -> Line {
        if self.is_one_in(mix.ends) {
            return if self.is_one_in(6) {
                Line::Abandon
            } else {
                Line::Commit
            };
        }
        match self.draw(40) {
            0 => Line::Note,
            1 => Line::Begin(1),
            _ => self.step(mix),
        }
    }

    /// The lines of a script.
    pub fn script(&mut self, alloc: Global, mix: &Mix) -> Result<Vec<Line>, AllocError> {
        let mut lines = Vec::new(alloc);
        let mut is_inside = false;
        let count = mix.lines.saturating_add(self.draw(mix.lines));
        for _ in 0..count {
            let line = if is_inside {
                self.line_inside(mix)
            } else {
                self.line_outside(mix)
            };
            is_inside = is_inside_after(is_inside, &line);
            lines.push(line)?;
        }
        Ok(lines)
    }

    /// The words of an order: some of the lines of four clients.
    pub fn order(&mut self, alloc: Global, mix: &Mix) -> Result<Vec<u8>, AllocError> {
        let mut order = Vec::new(alloc);
        for _ in 0..self.draw(mix.lines.saturating_mul(6)) {
            order.push(self.slot(4).saturating_add(1))?;
        }
        Ok(order)
    }
}

/// Whether an update is open after a line, where one is or is not before it.
fn is_inside_after(is_inside: bool, line: &Line) -> bool {
    match line {
        Line::Begin(file) => is_inside || *file < 3,
        Line::Commit | Line::Abandon => false,
        Line::Note | Line::Do(_, _) => is_inside,
    }
}
