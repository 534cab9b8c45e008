ghost use Rattle.std.specs.Prelude.{◌≡◌, ℕ, ◌<◌, ◌≤◌, ◌+◌, ◌^◌, length, Err, OnOk, OnErr, IfErr, IfSome};
ghost use Rattle.session.specs.Own.{IsDeciding, IsHolding, IsUnworn, IsWritingBy};
ghost use Rattle.block_map.specs.States.{free_count};
ghost use Rattle.ground_model.specs.Lines.{in_line};
ghost use Rattle.session.specs.Blocks.{DoubtsAlone, HasDraft, IsAppended, IsFinished, IsNeeded, made_at};
ghost use Rattle.session.specs.Answers.{IsAtCommand, IsCaused, IsCleared, NotesAlone};
ghost use Rattle.session.specs.Calls.{IsReady, MoveCall, TurnCall};
ghost use Rattle.session.specs.Own.{IsAtRest, IsMerged, IsNaming, IsWalkingOn, IsWritingOut, IsDrafting};
ghost use Rattle.session.specs.Safe.{IsSafe, IsSafeFlush, IsSafeStore, drafts_of, entries_left, line_of, serial_of, object_of, root_of, view_of};
ghost use Rattle.session.specs.Shared.{entries_of, room_of};
ghost use Rattle.session.specs.Links.{TriesToLink};
ghost use Rattle.session.specs.declared.common.Common.{Common};
ghost use Rattle.super_files.specs.Locks.{IsOpenTo};
ghost use Rattle.version_chain.specs.Flush.{Plan};

// How a commit takes blocks, writes its pages into them, and sets its link.

use crate::common::{Common, fault_of};
use crate::course::Course;
use crate::lines::one_serial;
use crate::stage::Stage;
use crate::turned::{Fault, Turned};
use afs_base::{BlockNo, Head};
use block_map::NoSpace;
use draft_tree::Draft;
use page_codec::{Members, Why};
use pair_store::{Blocks, PairFault, Tas};
use script_text::{LineReply, Script};
use service_model::{Entry, Named, Named17, Refusal, What};
use version_chain::Flush;

/// The last serial that there is.
const LAST_SERIAL: u64 = u64::MAX;

impl Course {
    /// Takes the blocks of a commit that is merged with all versions, where they are not held yet, and writes
    /// the first page; or refuses the commit, where no serial is left or too few blocks are free.
    pub(crate) fn take_blocks<B: Blocks>(
        &mut self,
        common: &mut Common<B>,
        script: &Script,
    ) -> Turned
        requires ready { IsReady B.Blocks script.now common.old self.old }
        requires draft { drafts_of self.old ≡ 1 }
        ensures { TurnCall B.Blocks IsDeciding script.now common.old
            common.new self.old self.new result }
    {
        if self.drafts.serial() == LAST_SERIAL {
            return self.refuse_commit(common, script, Refusal::Worn);
        }
        let needed = self.drafts.fresh_count().max(1);
        if self.held > 0 {
            return self.plan(common, script, needed);
        }
        match self.hold(common, script, needed) {
            Ok(()) => self.plan(common, script, needed),
            Err(no_space) => self.refuse_commit(
                common,
                script,
                Refusal::NoSpace {
                    needed: no_space.needed,
                    free: no_space.free,
                },
            ),
        }
    }

    /// Takes so many of the free blocks, and notes it; or changes nothing, where fewer are free.
    fn hold<B: Blocks>(
        &mut self,
        common: &mut Common<B>,
        script: &Script,
        blocks: u32,
    ) -> Result<(), NoSpace>
        requires ready { IsReady B.Blocks script.now common.old self.old }
        requires none { self.old.held ≡ 0 }
        requires some { 0 < blocks }
        requires needed { IsNeeded self.old blocks }
        ensures taken { OnOk result (MoveCall B.Blocks IsUnworn IsHolding script.now common.old
            common.new self.old self.new) }
        ensures held { OnOk result ((self.new.held ≡ blocks) × (self.new.drafts ≡ self.old.drafts)
            × (self.new.stage ≡ self.old.stage) × (self.new.turns ≡ self.old.turns)) }
        ensures short { IfErr result (λ e. (e.needed ≡ blocks)
            × (e.free ≡ free_count common.old.map) × (e.free < blocks)) }
        ensures same { OnErr result ((common.new ≡ common.old) × (self.new ≡ self.old)) }
    {
        common.map.hold(self.client, blocks)?;
        self.note(common, script, What::Held { blocks });
        self.held = blocks;
        Ok(())
    }

    /// Plans which page goes into which block that is held, and writes the first one.
    fn plan<B: Blocks>(&mut self, common: &mut Common<B>, script: &Script, needed: u32) -> Turned
        requires ready { IsReady B.Blocks script.now common.old self.old }
        requires draft { drafts_of self.old ≡ 1 }
        requires serial { serial_of self.old + 1 < 2 ^ 64 }
        requires needed { IsNeeded self.old needed }
        ensures { TurnCall B.Blocks IsHolding script.now common.old
            common.new self.old self.new result }
    {
        if needed != self.held {
            let block = self.drafts.root();
            let why = Why::Blocks;
            return Turned::Stopped {
                fault: Fault::Bad { block, why },
            };
        }
        let members = Members::none();
        let flush = Flush::plan(&self.drafts, &common.map, self.client, 0, members);
        self.write_on(common, script, flush)
    }

    /// Writes the next page of a new version, or sets its link once all are written.
    pub(crate) fn write_on<B: Blocks>(
        &mut self,
        common: &mut Common<B>,
        script: &Script,
        flush: Flush,
    ) -> Turned
        requires ready { IsReady B.Blocks script.now common.old self.old }
        requires draft { drafts_of self.old ≡ 1 }
        requires flush { IsSafeFlush (length common.old.map) self.old flush }
        ensures { TurnCall B.Blocks (IsWritingBy flush) script.now common.old
            common.new self.old self.new result }
    {
        let mut flush = flush;
        let mut block = [0; 1024];
        match flush.next(&self.drafts, &mut block) {
            Some(at) => match common.write(at, &block) {
                Ok(()) => {
                    self.stage = Stage::Writing { flush };
                    self.go_on();
                    Turned::Again
                }
                Err(fault) => Turned::Stopped { fault },
            },
            None => self.link(common, script, &flush),
        }
    }

    /// Sets the link to the new version whose version page is in block `top`: by this one write the file has it.
    /// First the lock is looked at again. Where another version was linked meanwhile, the commit goes on with it.
    fn link<B: Blocks>(&mut self, common: &mut Common<B>, script: &Script, flush: &Flush) -> Turned
        requires ready { IsReady B.Blocks script.now common.old self.old }
        requires draft { drafts_of self.old ≡ 1 }
        requires flush { IsSafeFlush (length common.old.map) self.old flush.now }
        requires all { flush.now.written ≡ length flush.now.placed }
        ensures { TurnCall B.Blocks (IsWritingBy flush.now) script.now common.old
            common.new self.old self.new result }
    {
        if let Some(by) = common.locked_by(self.client, self.drafts.object()) {
            return self.refuse_locked(common, script, by);
        }
        self.set_link(common, script, flush)
    }

    /// The one write of the link. Block 0 is never that of a version page, and never given out for one where
    /// contents are told.
    fn set_link<B: Blocks>(
        &mut self,
        common: &mut Common<B>,
        script: &Script,
        flush: &Flush,
    ) -> Turned
        requires ready { IsReady B.Blocks script.now common.old self.old }
        requires draft { drafts_of self.old ≡ 1 }
        requires flush { IsSafeFlush (length common.old.map) self.old flush.now }
        requires all { flush.now.written ≡ length flush.now.placed }
        requires open { IsOpenTo self.old.client (object_of self.old) common.old.locks }
        ensures { TurnCall B.Blocks (IsWritingBy flush.now) script.now common.old
            common.new self.old self.new result }
    {
        let top = flush.top();
        if top.get() == 0 {
            let why = Why::Reference;
            return Turned::Stopped {
                fault: Fault::Bad { block: top, why },
            };
        }
        let tested = common.store.test_and_set(self.drafts.root(), top);
        self.after_test(common, script, top, tested)
    }

    /// Goes on as the try to set the link came out.
    fn after_test<B: Blocks>(
        &mut self,
        common: &mut Common<B>,
        script: &Script,
        top: BlockNo,
        tested: Result<Tas, PairFault>,
    ) -> Turned
        requires ready { IsReady B.Blocks script.now common.old self.old }
        requires draft { HasDraft self.old }
        requires serial { serial_of self.old + 1 < 2 ^ 64 }
        ensures { (before : Common B) (flush : Plan)
            → TriesToLink B.Blocks script.now before common.old self.old flush top tested
            → TurnCall B.Blocks (IsWritingBy flush) script.now before common.new self.old self.new
            result }
    {
        match tested {
            Ok(outcome) => match outcome {
                Tas::Set => self.finish(common, script, top),
                Tas::Taken { by } => self.name(by),
            },
            Err(fault) => self.torn(common, script, fault),
        }
    }

    /// Stops the run in the try to set the link. Where the write failed, the commit is in doubt.
    fn torn<B: Blocks>(&self, common: &mut Common<B>, script: &Script, fault: PairFault) -> Turned
        requires ready { IsReady B.Blocks script.now common.old self.now }
        requires draft { HasDraft self.now }
        requires serial { serial_of self.now + 1 < 2 ^ 64 }
        ensures { (before : Common B) (flush : Plan) (top : ℕ)
            → TriesToLink B.Blocks script.now before common.old self.now flush top (Err fault)
            → TurnCall B.Blocks (IsWritingBy flush) script.now before common.new self.now self.now
            result }
    {
        match fault {
            PairFault::WriteFault { half } => {
                self.doubt(common, script);
                Turned::Stopped {
                    fault: Fault::Drive { half },
                }
            }
            _ => Turned::Stopped {
                fault: fault_of(fault),
            },
        }
    }

    /// The version that a commit makes.
    fn made(&self) -> Named
        requires draft { HasDraft self.now }
        requires serial { serial_of self.now + 1 < 2 ^ 64 }
        ensures { result ≡ record { object = object_of self.now; serial = serial_of self.now + 1 } }
    {
        Named {
            object: self.drafts.object(),
            serial: self.drafts.serial() + 1,
        }
    }

    /// Notes a commit as done or not: the write that does it failed.
    fn doubt<B: Blocks>(&self, common: &mut Common<B>, script: &Script)
        requires line { length self.now.replies.items < length script.now.lines }
        requires draft { HasDraft self.now }
        requires serial { serial_of self.now + 1 < 2 ^ 64 }
        ensures { IfSome (line_of script.now self.now) (λ line. DoubtsAlone common.old common.new
            (in_line self.now.client line (made_at self.now (B.moment common.old.store)))) }
    {
        let made = Named17::one(self.made());
        let at = common.store.now();
        common.log.doubt(Entry {
            client: self.client,
            line: self.number(script),
            what: What::Committed { made, at },
        });
    }

    /// Keeps the blocks of a commit whose link was set, notes it and answers it.
    fn finish<B: Blocks>(&mut self, common: &mut Common<B>, script: &Script, top: BlockNo) -> Turned
        requires ready { IsReady B.Blocks script.now common.old self.old }
        requires draft { HasDraft self.old }
        requires serial { serial_of self.old + 1 < 2 ^ 64 }
        ensures { IsFinished B.Blocks script.now top common.old common.new self.old self.new
            result }
    {
        let made = self.made();
        common.map.keep(self.client);
        common.append(made, top, self.held);
        self.held = 0;
        let at = common.store.now();
        self.note(
            common,
            script,
            What::Committed {
                made: Named17::one(made),
                at,
            },
        );
        self.drafts.clear();
        self.answer(
            common,
            script,
            LineReply::Committed(one_serial(made.serial)),
        )
    }
}

impl<B: Blocks> Common<B> {
    /// A file has one version more, in this block and with so many pages of its own.
    fn append(&mut self, made: Named, block: BlockNo, own: u32)
        requires { 0 < made.object }
        ensures { IsAppended self.old self.new made block own }
    {
        if let Some(head) = self.head(made.object) {
            self.heads[made.object as usize - 1] = Some(Head {
                block,
                first: head.first,
                serial: made.serial,
                kept: head.kept.saturating_add(own),
            });
        }
    }
}
