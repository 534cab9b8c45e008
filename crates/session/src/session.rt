ghost use Rattle.session.specs.Built.{AreBuilt};

// A client of a run.

use crate::common::Common;
use crate::course::Course;
use crate::log::Replies;
use crate::stage::Stage;
use crate::turned::Turned;
use afs_base::{ClientNo, Memory};
use arrayvec::ArrayVec;
use frame_pool::Pool;
use page_merge::Done;
use pair_store::Blocks;
use pool_draft::PoolSet;
use script_text::{LineReply, Script};
use std::alloc::Global;
use std::mem;

/// A client of a run: its script, how far it has come in it, and how many pairs of pages it merged itself.
#[derive(Drop)]
pub struct Session {
    pub(crate) script: Script,
    pub(crate) course: Course,
    pub(crate) merges: u64,
    ghost built: { AreBuilt script },
}

impl Session {
    ghost use Rattle.std.specs.Prelude.{◌≡◌, ◌≢◌, ◌≤◌, ◌+◌, ◌↔◌, ℕ, length, IfOk, IsTrue, MatchOption, option_copied, slice_get};
    ghost use Rattle.script_text.specs.declared.reply.LineReply.{LineReply};
    ghost use Rattle.session.specs.Calls.{TurnCall, waiting_in};
    ghost use Rattle.session.specs.Own.{IsOwn};
    ghost use Rattle.session.specs.Safe.{IsSafe, IsSafeStore, entries_left};
    ghost use Rattle.session.specs.Sessions.{IsNewcomer, IsNumbered, IsReplyTo};
    ghost use Rattle.session.specs.Shared.{entries_of, room_of};
    ghost use Rattle.session.specs.Walks.{CountsMerge};

    /// A client that has not begun its script. All memory that its turns need is taken here.
    pub fn make(alloc: Global, client: ClientNo, script: Script) -> Result<Session, Memory>
        requires built { AreBuilt script }
        ensures { IfOk result (λ s. IsNewcomer client script s) }
    {
        let (pool, mut leases) = Pool::make(alloc, 1)?;
        let Some(lease) = leases.next() else {
            unreachable!()
        };
        let replies = Replies::make(alloc, script.len())?;
        Ok(Session {
            script,
            course: Course {
                client,
                replies,
                drafts: PoolSet::over(pool, lease),
                rights: ArrayVec::new(),
                held: 0,
                stage: Stage::Resting,
                turns: 0,
            },
            merges: 0,
        })
    }

    /// The client's number.
    pub fn client(&self) -> ClientNo
        ensures { result ≡ self.now.course.client }
    {
        self.course.client
    }

    /// The client's script.
    pub fn script(&self) -> &Script
        ensures { result.now ≡ self.now.script }
    {
        &self.script
    }

    /// The answer to the line at a place, from 0, where it is answered.
    pub fn reply(&self, place: usize) -> Option<&LineReply>
        ensures { option_copied result ≡ slice_get self.now.course.replies.items place }
    {
        self.course.replies.get(place)
    }

    /// How many pairs of pages the client merged itself, a number that stands still at its last
    /// value.
    pub fn merges(&self) -> u64
        ensures { result ≡ self.now.merges }
    {
        self.merges
    }

    /// Whether the line at a place, from 0, has this number.
    fn is_line(&self, place: usize, line: u32) -> bool
        ensures { IsTrue result ↔ IsNumbered self.now.script place line }
    {
        place < self.script.len() && self.script.line(place).number == line
    }

    /// The answer to the line with this number, where it is answered.
    pub fn reply_to(&self, line: u32) -> Option<&LineReply>
        ensures { MatchOption result
            ((reply : LineReply) → IsReplyTo self.now.script self.now.course line reply → ⊥)
            (λ reply. IsReplyTo self.now.script self.now.course line reply.now) }
    {
        'answers: for place in 0..self.course.replies.len() {
            if self.is_line(place, line) {
                return self.course.replies.get(place);
            }
        }
        None
    }

    /// One turn of the client: at most one operation on a block. What is offered as the outcome of
    /// the pages that wait to be merged is taken where it is that of these very pages.
    pub fn turn<B: Blocks>(&mut self, common: &mut Common<B>, offer: Option<&Done>) -> Turned
        requires store { IsSafeStore B.size common.old }
        requires safe { IsSafe (B.size common.old.store) common.old.map self.old.script
            self.old.course }
        requires room { length (entries_of common.old)
            + entries_left self.old.script self.old.course ≤ room_of common.old }
        ensures script { self.new.script ≡ self.old.script }
        ensures finished { length self.old.course.replies.items ≡ length self.old.script.lines
            → result ≡ Turned.Finished }
        ensures still { result ≡ Turned.Finished
            → (self.new ≡ self.old) × (common.new ≡ common.old) }
        ensures turn { TurnCall B.Blocks IsOwn self.old.script common.old common.new
            self.old.course self.new.course result }
        ensures merges { result ≢ Turned.Finished
            → CountsMerge (waiting_in self.old.course.stage) (option_copied offer.entry)
            self.old.merges self.new.merges }
    {
        if self.course.replies.len() == self.script.len() {
            return Turned::Finished;
        }
        // A stage is large, so it is not moved where the client rests, as in most turns.
        if let Stage::Resting = &self.course.stage {
            return self.course.begin_line(common, &self.script);
        }
        match mem::replace(&mut self.course.stage, Stage::Resting) {
            Stage::Resting => unreachable!(),
            Stage::Naming { next } => self.course.open_next(common, next),
            Stage::Walking { walk } => {
                self.course
                    .walk_on(common, &self.script, walk, offer, &mut self.merges)
            }
            Stage::Writing { flush } => self.course.write_on(common, &self.script, flush),
        }
    }
}
