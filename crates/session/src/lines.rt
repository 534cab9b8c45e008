ghost use Rattle.std.specs.Prelude.{◌≡◌, ◌<◌, ◌↔◌, ◌∷◌, [], IsTrue, length, IfSome, true};
ghost use Rattle.caps.specs.Grant.{has_rights};
ghost use Rattle.draft_model.specs.Views.{IsWanted, Wants, WantsNone, copies};
ghost use Rattle.tree_model.specs.Trees.{IsMake};
ghost use Rattle.tree_model.specs.declared.step.Step.{Step};
ghost use Rattle.script_text.specs.ScriptValue.{ScriptValue};
ghost use Rattle.script_text.specs.declared.command.Command.TheVariants.{Begin, Do, Abandon, Pick};
ghost use Rattle.service_model.specs.Causes.{right_for};
ghost use Rattle.session.specs.Names.{IsGranted};
ghost use Rattle.session.specs.Built.{IsBuilt};
ghost use Rattle.tree_model.specs.Accesses.{end_of};
ghost use Rattle.session.specs.Answers.{IsAtCommand};
ghost use Rattle.session.specs.Calls.{IsReady, TurnCall};
ghost use Rattle.session.specs.Own.{IsAtRest};
ghost use Rattle.pool_draft.specs.Sets.{picked_of};
ghost use Rattle.session.specs.Safe.{drafts_of, line_of, picked_view, rights_of};

// The lines that open an update, do a step, and give an update up.

use crate::common::{Common, Granted, READING, WRITING};
use crate::course::Course;
use crate::turned::{Fault, Turned};
use afs_base::{BlockNo, Path};
use draft_tree::Draft;
use page_codec::Why;
use pair_store::Blocks;
use script_text::{Command, FileName, LineRefusal, LineReply, Script, Serials};
use service_model::{Named, Named17, What};
use tree_model::Step;

/// The most steps of an update.
const MAX_STEPS: u32 = 128;

/// The most pages that are read for one step.
const MAX_FED: u32 = 7;

/// The right that a step needs.
fn right_for(step: &Step) -> u8
    ensures { result ≡ right_for step.now }
{
    match step {
        Step::ReadAt { .. } | Step::ListAt { .. } => READING,
        Step::WriteAt { .. } | Step::MakeAt { .. } | Step::DropAt { .. } => WRITING,
    }
}

/// Whether every bit of what is needed is among the rights.
fn has_rights(rights: u8, need: u8) -> bool
    ensures { result ≡ has_rights rights need }
{
    rights & need == need
}

/// Whether a step makes a page. The page above that one has at most six slots on its way.
fn is_make(step: &Step) -> bool
    ensures make { IsTrue result ↔ IsMake step.now }
    ensures short { IsTrue result → length (end_of step.now) < 7 }
{
    match step {
        Step::MakeAt { at } => {
            // A page above another is known to be above the last level.
            let _above = at.above();
            true
        }
        Step::ReadAt { .. } | Step::ListAt { .. } | Step::WriteAt { .. } | Step::DropAt { .. } => {
            false
        }
    }
}

/// The serial of one file, as the serials of an update that has no other file.
pub(crate) fn one_serial(serial: u64) -> Serials
    ensures { result ≡ serial ∷ [] }
{
    let mut serials = Serials::none();
    serials.push(serial);
    serials
}

impl Course {
    /// The first turn of the next line, or a further one of a step that reads pages.
    pub(crate) fn begin_line<B: Blocks>(
        &mut self,
        common: &mut Common<B>,
        script: &Script,
    ) -> Turned
        requires ready { IsReady B.Blocks script.now common.old self.old }
        requires built { IfSome (line_of script.now self.old) (λ line. IsBuilt line.command) }
        ensures { TurnCall B.Blocks IsAtRest script.now common.old common.new self.old self.new
            result }
    {
        match &script.line(self.replies.len()).command {
            Command::Begin { file } => self.begin(common, script, file),
            Command::Do { step } => self.step(common, script, step),
            Command::Commit => self.commit(common, script),
            Command::Abandon => self.abandon(common, script),
            Command::Pick { k } => self.pick(common, script, *k),
            _ => unreachable!(),
        }
    }

    /// A line that opens an update of one file.
    fn begin<B: Blocks>(
        &mut self,
        common: &mut Common<B>,
        script: &Script,
        file: &FileName,
    ) -> Turned
        requires ready { IsReady B.Blocks script.now common.old self.old }
        requires command { IsAtCommand script.now self.old (Begin file.now) }
        ensures { TurnCall B.Blocks IsAtRest script.now common.old common.new self.old self.new
            result }
    {
        if self.drafts.roots() > 0 {
            return self.refuse(common, script, LineRefusal::Open);
        }
        match common.granted(file) {
            Ok(granted) => self.open(common, script, file, &granted),
            Err(denied) => self.refuse(common, script, LineRefusal::Denied(denied)),
        }
    }

    /// Opens an update on the last version of a file.
    fn open<B: Blocks>(
        &mut self,
        common: &mut Common<B>,
        script: &Script,
        file: &FileName,
        granted: &Granted,
    ) -> Turned
        requires ready { IsReady B.Blocks script.now common.old self.old }
        requires command { IsAtCommand script.now self.old (Begin file.now) }
        requires none { drafts_of self.old ≡ 0 }
        requires granted { IsGranted common.old.table common.old.heads.items file.now granted.now }
        ensures { TurnCall B.Blocks IsAtRest script.now common.old common.new self.old self.new
            result }
    {
        let at = granted.head.block;
        match common.read_version(at) {
            Ok(version) => {
                let _added = self.drafts.add(at, &version);
                self.drafts.pick(0);
                self.rights.clear();
                self.rights.push(granted.rights);
                let base = Named {
                    object: version.object,
                    serial: version.serial,
                };
                let bases = Named17::one(base);
                self.note(common, script, What::Began { bases });
                self.answer(common, script, LineReply::Base(one_serial(version.serial)))
            }
            Err(fault) => Turned::Stopped { fault },
        }
    }

    /// The rights to the file that steps go to.
    fn rights(&self) -> u8
        ensures { result ≡ rights_of self.now }
    {
        let rights = self.rights.as_slice();
        match rights.get(self.drafts.picked() as usize) {
            Some(rights) => *rights,
            None => 0,
        }
    }

    /// A line that picks the file of the update that steps go to, by its place among the files.
    fn pick<B: Blocks>(&mut self, common: &mut Common<B>, script: &Script, place: u8) -> Turned
        requires ready { IsReady B.Blocks script.now common.old self.old }
        requires command { IsAtCommand script.now self.old (Pick place) }
        ensures { TurnCall B.Blocks IsAtRest script.now common.old common.new self.old self.new
            result }
    {
        if self.drafts.roots() == 0 {
            return self.refuse(common, script, LineRefusal::Idle);
        }
        if place as usize >= self.drafts.roots() {
            return self.refuse(common, script, LineRefusal::NoSuchPick);
        }
        self.drafts.pick(place);
        self.answer(common, script, LineReply::Picked)
    }

    /// A step: a page that it needs is read, or else it is done.
    fn step<B: Blocks>(&mut self, common: &mut Common<B>, script: &Script, step: &Step) -> Turned
        requires ready { IsReady B.Blocks script.now common.old self.old }
        requires command { IsAtCommand script.now self.old (Do step.now) }
        ensures { TurnCall B.Blocks IsAtRest script.now common.old common.new self.old self.new
            result }
    {
        if self.drafts.roots() == 0 {
            return self.refuse(common, script, LineRefusal::Idle);
        }
        if !has_rights(self.rights(), right_for(step)) {
            return self.refuse(common, script, LineRefusal::DeniedRights);
        }
        if self.drafts.count() == MAX_STEPS {
            return self.refuse(common, script, LineRefusal::Full);
        }
        match self.drafts.need(step) {
            Some((path, block)) => self.fetch(common, &path, block),
            None => self.do_step(common, script, step),
        }
    }

    /// Reads a page that a step needs.
    fn fetch<B: Blocks>(&mut self, common: &mut Common<B>, path: &Path, block: BlockNo) -> Turned
        requires draft { picked_of self.old.drafts < drafts_of self.old }
        requires wanted { IsWanted (copies (picked_view self.old)) path.now }
        ensures { (script : ScriptValue) (step : Step) → IsReady B.Blocks script common.old self.old
            → IsAtCommand script self.old (Do step)
            → has_rights (rights_of self.old) (right_for step) ≡ true → self.old.drafts.count < 128
            → Wants (copies (picked_view self.old)) (end_of step) path.now block
            → TurnCall B.Blocks IsAtRest script common.old common.new self.old self.new result }
    {
        let level = path.len();
        if self.drafts.fed() >= MAX_FED {
            let why = Why::Level;
            return Turned::Stopped {
                fault: Fault::Bad { block, why },
            };
        }
        match common.read_page(block, level) {
            Ok(page) => {
                let Ok(()) = self.drafts.feed(path, &page) else {
                    unreachable!()
                };
                self.go_on();
                Turned::Again
            }
            Err(fault) => Turned::Stopped { fault },
        }
    }

    /// Does a step that needs no page, and answers it.
    fn do_step<B: Blocks>(&mut self, common: &mut Common<B>, script: &Script, step: &Step) -> Turned
        requires ready { IsReady B.Blocks script.now common.old self.old }
        requires command { IsAtCommand script.now self.old (Do step.now) }
        requires draft { picked_of self.old.drafts < drafts_of self.old }
        requires none { WantsNone (copies (picked_view self.old)) (end_of step.now) }
        requires few { self.old.drafts.count < 128 }
        requires rights { has_rights (rights_of self.old) (right_for step.now) ≡ true }
        ensures { TurnCall B.Blocks IsAtRest script.now common.old common.new self.old self.new
            result }
    {
        if self.drafts.fed() >= MAX_FED && is_make(step) {
            let block = self.drafts.root();
            let why = Why::Level;
            return Turned::Stopped {
                fault: Fault::Bad { block, why },
            };
        }
        let Ok(reply) = self.drafts.step(step) else {
            unreachable!()
        };
        self.answer(common, script, LineReply::Stepped(reply))
    }

    /// A line that gives the update up.
    fn abandon<B: Blocks>(&mut self, common: &mut Common<B>, script: &Script) -> Turned
        requires ready { IsReady B.Blocks script.now common.old self.old }
        requires command { IsAtCommand script.now self.old Abandon }
        ensures { TurnCall B.Blocks IsAtRest script.now common.old common.new self.old self.new
            result }
    {
        if self.drafts.roots() == 0 {
            return self.refuse(common, script, LineRefusal::Idle);
        }
        self.note(common, script, What::GivenUp);
        self.let_go(common);
        self.answer(common, script, LineReply::Abandoned)
    }
}
