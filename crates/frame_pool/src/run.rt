ghost use Rattle.std.specs.Prelude.{◌≡◌, ◌+◌, ◌<◌, ◌≤◌, ◌^◌, false, length, slice_index_or, IfNone, IfOk, IfSome};
ghost use Rattle.frame_pool.specs.Leasing.{unused_run, left, taken_out, put_back, IsIn, IsOut, AreOut};

use crate::frame::Frame;
use afs_base::Memory;
use std::alloc::Global;
use std::marker::Model;

/// How many frames a lease has.
pub const FRAMES: u32 = 1024;

/// The least place that is not taken, where all before `from` are.
fn first_in(taken: &[bool], from: usize) -> Option<usize>
    requires within { from ≤ length taken.now }
    requires before { AreOut from taken.now }
    ensures some { IfSome result (λ at. (at < length taken.now) × AreOut at taken.now
        × (slice_index_or taken.now at false ≡ false)) }
    ensures none { IfNone result (AreOut (length taken.now) taken.now) }
{
    'search: for at in from..taken.len() {
        if !taken[at] {
            return Some(at);
        }
    }
    None
}

/// 1,024 frames in a row, each of which is out or not. Contracts see the number of the first, and which are out.
#[derive(Drop)]
pub struct Run {
    first: u32,
    taken: Vec<bool>,
    unused: u32,
    // All frames before this place are out.
    full: u32,
}

impl Model for Run {
    ghost use Rattle.std.specs.Prelude.{◌≡◌, ◌<◌, ◌≤◌, ◌^◌, length};
    ghost use Rattle.frame_pool.specs.Leasing.{Leased, leased, leased_code, left, AreOut};

    ghost Value = { Leased };

    ghost coded = { leased_code };

    ghost view = { λ r. leased r.first r.taken.items };

    ghost invariant = { λ r. (length r.taken.items ≡ 1024) × (r.first < 2 ^ 16)
        × (r.unused ≡ left (leased r.first r.taken.items))
        × (r.full ≤ 1024) × AreOut r.full r.taken.items };
}

impl Run {
    /// The k-th run, from 0. None of its frames is out.
    pub(crate) fn make(alloc: Global, number: u32) -> Result<Run, Memory>
        requires { number < 16 }
        ensures { IfOk result (λ r. r ≡ unused_run number) }
    {
        let taken = vec![in alloc; false; FRAMES as usize]?;
        Ok(Run {
            first: FRAMES * number,
            taken,
            unused: FRAMES,
            full: 0,
        })
    }

    /// How many frames are not out.
    pub fn left(&self) -> u32
        ensures left { result ≡ left self.now }
        ensures most { result ≤ 1024 }
    {
        self.unused
    }

    /// Takes a frame out. None exactly where none is left.
    pub(crate) fn take(&mut self) -> Option<Frame>
        ensures some { IfSome result (λ f. IsIn self.old f × (self.new ≡ taken_out self.old f)
            × (left self.new + 1 ≡ left self.old)) }
        ensures none { IfNone result ((self.new ≡ self.old) × (left self.old ≡ 0)) }
    {
        match first_in(&self.taken, self.full as usize) {
            Some(at) => {
                self.taken[at] = true;
                self.unused -= 1;
                self.full = at as u32 + 1;
                Some(Frame::numbered(self.first + at as u32))
            }
            None => None,
        }
    }

    /// Takes back a frame that is out.
    pub(crate) fn give(&mut self, frame: Frame)
        requires { IsOut self.old frame }
        ensures back { self.new ≡ put_back self.old frame }
        ensures left { left self.new ≡ left self.old + 1 }
    {
        let at = frame.number() - self.first;
        self.taken[at as usize] = false;
        self.unused += 1;
        self.full = self.full.min(at);
    }
}
