ghost use Rattle.std.specs.Prelude.{◌≡◌, ◌≢◌, false};
ghost use Rattle.draft_model.specs.Told.{TellsWrites};
ghost use Rattle.script_text.specs.declared.command.Command.TheVariants.{Commit};
ghost use Rattle.service_model.specs.Replies.{refusal_of};
ghost use Rattle.session.specs.Answers.{IsAtCommand, IsRefusing};
ghost use Rattle.session.specs.Calls.{IsReady, TurnCall};
ghost use Rattle.session.specs.Own.{IsAtRest, IsCommitting, IsMerged};
ghost use Rattle.session.specs.Safe.{drafts_of, object_of, view_of};
ghost use Rattle.super_files.specs.Locks.{Holds};

// A line that commits an update.

use crate::common::Common;
use crate::course::Course;
use crate::lines::one_serial;
use crate::turned::{Fault, Turned};
use afs_base::ClientNo;
use draft_tree::Draft;
use page_codec::Why;
use pair_store::Blocks;
use script_text::{LineRefusal, LineReply, Script};
use service_model::{Named17, Refusal, What};

/// The answer by which a refused commit is told.
fn refusal_of(why: &Refusal) -> LineRefusal
    ensures { result ≡ refusal_of why.now }
{
    match why {
        Refusal::Conflict { serial, path, kind } => LineRefusal::Conflict {
            serial: *serial,
            path: *path,
            kind: *kind,
        },
        Refusal::Locked { by } => LineRefusal::Locked { by: *by },
        Refusal::NoSpace { needed, free } => LineRefusal::NoSpace {
            needed: *needed,
            free: *free,
        },
        Refusal::Worn => LineRefusal::Worn,
    }
}

impl Course {
    /// The first turn of a commit.
    pub(crate) fn commit<B: Blocks>(&mut self, common: &mut Common<B>, script: &Script) -> Turned
        requires ready { IsReady B.Blocks script.now common.old self.old }
        requires command { IsAtCommand script.now self.old Commit }
        ensures { TurnCall B.Blocks IsAtRest script.now common.old common.new self.old self.new
            result }
    {
        if self.drafts.roots() == 0 {
            return self.refuse(common, script, LineRefusal::Idle);
        }
        if self.drafts.has_writes() {
            self.decide(common, script)
        } else {
            self.commit_nothing(common, script)
        }
    }

    /// Commits an update that wrote nothing: no version is made.
    fn commit_nothing<B: Blocks>(&mut self, common: &mut Common<B>, script: &Script) -> Turned
        requires ready { IsReady B.Blocks script.now common.old self.old }
        requires command { IsAtCommand script.now self.old Commit }
        requires draft { drafts_of self.old ≡ 1 }
        requires nothing { TellsWrites (view_of self.old) false }
        ensures { TurnCall B.Blocks IsAtRest script.now common.old common.new self.old self.new
            result }
    {
        let serial = self.drafts.serial();
        let made = Named17::none();
        let at = common.store.now();
        self.note(common, script, What::Committed { made, at });
        self.drafts.clear();
        self.answer(common, script, LineReply::Committed(one_serial(serial)))
    }

    /// Refuses a commit: its update is over, and the blocks that it holds are given back.
    pub(crate) fn refuse_commit<B: Blocks>(
        &mut self,
        common: &mut Common<B>,
        script: &Script,
        why: Refusal,
    ) -> Turned
        requires ready { IsReady B.Blocks script.now common.old self.old }
        requires draft { drafts_of self.old ≡ 1 }
        ensures { TurnCall B.Blocks (IsRefusing why) script.now common.old common.new self.old
            self.new result }
    {
        if self.held > 0 {
            common.map.give_back(self.client);
            self.held = 0;
        }
        let reply = LineReply::Refused(refusal_of(&why));
        self.note(common, script, What::Refused { why });
        self.drafts.clear();
        self.answer(common, script, reply)
    }

    /// Refuses a commit of a file that another client has locked.
    pub(crate) fn refuse_locked<B: Blocks>(
        &mut self,
        common: &mut Common<B>,
        script: &Script,
        by: ClientNo,
    ) -> Turned
        requires ready { IsReady B.Blocks script.now common.old self.old }
        requires draft { drafts_of self.old ≡ 1 }
        requires other { by ≢ self.old.client }
        requires holds { Holds by (object_of self.old) common.old.locks }
        ensures { TurnCall B.Blocks IsCommitting script.now common.old common.new self.old self.new
            result }
    {
        // The number of a client that has a lock is at least 1.
        let _number = by.get();
        self.refuse_commit(common, script, Refusal::Locked { by })
    }

    /// Goes on with a commit whose draft is merged with the versions up to its base: it is refused
    /// where another client has the file locked; else it goes over the next version, where there is
    /// one; else its pages are written.
    pub(crate) fn decide<B: Blocks>(&mut self, common: &mut Common<B>, script: &Script) -> Turned
        requires ready { IsReady B.Blocks script.now common.old self.old }
        requires draft { drafts_of self.old ≡ 1 }
        ensures { TurnCall B.Blocks IsMerged script.now common.old common.new self.old self.new
            result }
    {
        let object = self.drafts.object();
        if let Some(by) = common.locked_by(self.client, object) {
            return self.refuse_locked(common, script, by);
        }
        match common.head(object) {
            Some(head) if self.drafts.serial() < head.serial => self.find_next(common),
            Some(_) => self.take_blocks(common, script),
            None => {
                let block = self.drafts.root();
                let why = Why::Object;
                Turned::Stopped {
                    fault: Fault::Bad { block, why },
                }
            }
        }
    }
}
