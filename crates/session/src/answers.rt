ghost use Rattle.std.specs.Prelude.{◌≡◌, ◌<◌, ◌≤◌, ◌+◌, ◌∷◌, [], length, IfSome};
ghost use Rattle.ground_model.specs.Lines.{in_line};
ghost use Rattle.session.specs.Answers.{IsAnswered, IsCaused, LetsGo, NotesAlone};
ghost use Rattle.session.specs.Calls.{IsReady, TurnCall};
ghost use Rattle.session.specs.Own.{IsAtRest};
ghost use Rattle.session.specs.Safe.{line_of};
ghost use Rattle.session.specs.Shared.{entries_of, room_of};
ghost use Rattle.session.specs.Values.{one_more};

// How lines end.

use crate::common::Common;
use crate::course::Course;
use crate::stage::Stage;
use crate::turned::Turned;
use pair_store::Blocks;
use script_text::{LineRefusal, LineReply, Script};
use service_model::What;

impl Course {
    /// The number of the line under way.
    pub(crate) fn number(&self, script: &Script) -> u32
        requires { length self.now.replies.items < length script.now.lines }
        ensures { IfSome (line_of script.now self.now) (λ line. result ≡ line.number) }
    {
        script.line(self.replies.len()).number
    }

    /// Notes an entry of the line under way.
    pub(crate) fn note<B: Blocks>(&self, common: &mut Common<B>, script: &Script, what: What)
        requires line { length self.now.replies.items < length script.now.lines }
        requires room { length (entries_of common.old) < room_of common.old }
        ensures { IfSome (line_of script.now self.now) (λ line. NotesAlone common.old common.new
            (in_line self.now.client line what ∷ [])) }
    {
        common.note(self.client, self.number(script), what);
    }

    /// Answers the line under way. Where it is the script's last one, the update that is open is given
    /// up with it.
    pub(crate) fn answer<B: Blocks>(
        &mut self,
        common: &mut Common<B>,
        script: &Script,
        reply: LineReply,
    ) -> Turned
        requires line { length self.old.replies.items < length script.now.lines }
        requires answers { length script.now.lines ≤ self.old.replies.room }
        requires room { length (entries_of common.old) + 2 ≤ room_of common.old }
        ensures answered { IfSome (line_of script.now self.old)
            (λ line. IsAnswered script.now line reply common.old common.new self.old self.new) }
        ensures line { IfSome (line_of script.now self.old)
            (λ line. result ≡ Turned.Line line.number) }
    {
        let line = self.number(script);
        common.note(self.client, line, What::Answered);
        self.replies.push(reply);
        self.turns = 0;
        if self.replies.len() == script.len() && self.drafts.roots() > 0 {
            common.note(self.client, line, What::GivenUp);
            self.let_go(common);
        }
        Turned::Line { line }
    }

    /// Lets go of the drafts of the update that is over, and of its locks.
    pub(crate) fn let_go<B: Blocks>(&mut self, common: &mut Common<B>)
        ensures { LetsGo common.old common.new self.old self.new }
    {
        self.drafts.clear();
        common.locks.release(self.client);
    }

    /// Answers a line that is refused before anything is done for it.
    pub(crate) fn refuse<B: Blocks>(
        &mut self,
        common: &mut Common<B>,
        script: &Script,
        why: LineRefusal,
    ) -> Turned
        requires ready { IsReady B.Blocks script.now common.old self.old }
        requires cause { B.tells → IsCaused B.Blocks script.now common.old self.old why }
        ensures { TurnCall B.Blocks IsAtRest script.now common.old common.new self.old self.new
            result }
    {
        self.answer(common, script, LineReply::Refused(why))
    }

    /// Counts a turn after which the line goes on.
    pub(crate) fn go_on(&mut self)
        ensures { self.new ≡ record self.old { turns = one_more self.old.turns } }
    {
        self.turns = self.turns.saturating_add(1);
    }
}
