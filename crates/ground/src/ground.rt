ghost use Rattle.std.specs.Prelude.{◌-◌, ◌<◌, option_copied, slice_get};
ghost use Rattle.std.specs.Prelude.{◌≡◌, ◌≢◌, ◌≤◌, IfErr, IfOk, MatchOption, None, Some, length};
ghost use Rattle.service_model.specs.Sound.{AreSayable};
ghost use Rattle.session.specs.Calls.{IsCounted, KeepsRest};
ghost use Rattle.script_text.specs.declared.reply.LineReply.{LineReply};
ghost use Rattle.service_model.specs.Entries.{serial_state};
ghost use Rattle.session.specs.Names.{HasNoHead};
ghost use Rattle.session.specs.Opening.{IsWithin, TellsSerials};
ghost use Rattle.session.specs.declared.turned.Fault.{Fault};
ghost use Rattle.tree_model.specs.States.{State};
ghost use Rattle.ground.specs.Grounds.{IsGround};
ghost use Rattle.ground.specs.Making.{AreAllBuilt, AreNewcomers, HasBegun, room_for};
ghost use Rattle.ground.specs.Runs.{entries_in, journal_in, own_merges_in, scripts_in, scripts_of, store_in, told_in};
ghost use Rattle.ground.specs.Promises.{IsPromised, kept_in};
ghost use Rattle.ground.specs.Turning.{replies_of};
ghost use Rattle.ground.specs.Turning.{CountsMerges, CountsTurns, IsTimely, IsWhole};
ghost use Rattle.ground.specs.Turning.{AnswersTurn, AreLater, HasNoted, IsAnswered, IsNeverBad, IsRunOf, IsSameRun, IsStoppedBy, IsThrough, OthersStay, fault_of};

// A run of clients.

use crate::making::{room_for, sessions_of};
use afs_base::{ClientNo, Memory};
use page_merge::Done;
use pair_store::Blocks;
use recovery::OpenedOver;
use script_text::{LineReply, Script};
use service_model::{Journal, scripts_are_sayable};
use session::{Common, Fault, Session, Turned};
use std::alloc::Global;
use std::marker::Model;
use std::snapshot::Snapshot;

/// A run of clients over a store of blocks.
#[derive(Drop)]
pub struct GroundOver<B: Blocks> {
    opened: Snapshot<OpenedOver<B>>,
    common: Common<B>,
    sessions: Vec<Session>,
    fault: Option<Fault>,
}

impl<B: Blocks> Model for GroundOver<B> {
    ghost use Rattle.ground.specs.Runs.{GroundValue};
    ghost use Rattle.ground.specs.Grounds.{IsGround};

    ghost Value = { GroundValue B };

    ghost view = { λ g. record {
      opened = g.opened.value;
      common = g.common;
      sessions = g.sessions.items;
      fault = g.fault;
    } };

    ghost invariant = { λ g. IsGround B.Blocks (record {
      opened = g.opened.value;
      common = g.common;
      sessions = g.sessions.items;
      fault = g.fault;
    }) };
}

/// The fault that a turn answers.
fn fault_of(turned: &Turned) -> Option<Fault>
    ensures { result ≡ fault_of turned.now }
{
    match turned {
        Turned::Stopped { fault } => Some(*fault),
        Turned::Line { .. } | Turned::Again | Turned::Work(_) | Turned::Finished => None,
    }
}

/// The run of these clients over a store that was opened, with room for so many entries.
fn begun<B: Blocks>(
    alloc: Global,
    opened: OpenedOver<B>,
    sessions: Vec<Session>,
    room: usize,
) -> Result<GroundOver<B>, (B, Memory)>
    requires sayable { AreSayable (scripts_of sessions.items) }
    requires clients { AreNewcomers (scripts_of sessions.items) sessions.items }
    requires some { 1 ≤ length sessions.items }
    requires most { length sessions.items ≤ 16 }
    requires room { room_for (scripts_of sessions.items) ≤ room }
    requires few { room_for (scripts_of sessions.items) ≤ 64000 }
    requires within { IsWithin B.size opened }
    ensures begun { IfOk result (HasBegun opened (scripts_of sessions.items)) }
    ensures back { IfErr result (λ e. e.0 ≡ opened.store) }
{
    let seen = Snapshot::of(&opened);
    let common = Common::over(alloc, opened, room)?;
    Ok(GroundOver {
        opened: seen,
        common,
        sessions,
        fault: None,
    })
}

impl<B: Blocks> GroundOver<B> {
    /// A run of 1 to 16 scripts over a store that was opened, client 1 playing the first one. All
    /// memory that its turns need is taken here; where there is not enough, the store comes back.
    pub fn make(
        alloc: Global,
        opened: OpenedOver<B>,
        scripts: Vec<Script>,
    ) -> Result<GroundOver<B>, (B, Memory)>
        requires some { 1 ≤ length scripts.items }
        requires most { length scripts.items ≤ 16 }
        requires built { AreAllBuilt scripts.items }
        requires within { IsWithin B.size opened }
        ensures begun { IfOk result (HasBegun opened scripts.items) }
        ensures back { IfErr result (λ e. e.0 ≡ opened.store) }
    {
        scripts_are_sayable(scripts.as_slice());
        let room = room_for(scripts.as_slice());
        match sessions_of(alloc, scripts) {
            Ok(sessions) => begun(alloc, opened, sessions, room),
            Err(memory) => Err((opened.store, memory)),
        }
    }

    /// One turn of a client, in which at most one operation on a block is made. Once a fault
    /// stopped the run, every turn answers that fault, and nothing changes. What is offered as the
    /// outcome of the pages that wait to be merged is taken where it is that of these very pages.
    pub fn turn(&mut self, client: ClientNo, offer: Option<&Done>) -> Turned
        requires { client ≤ length self.old.sessions }
        ensures run { IsSameRun B.Blocks self.old self.new }
        ensures stays { (fault : Fault) → self.old.fault ≡ Some fault
            → (result ≡ Turned.Stopped fault) × (self.new ≡ self.old) }
        ensures fault { self.new.fault ≡ fault_of result }
        ensures answers { AnswersTurn self.old self.new client result }
        ensures turns { CountsTurns self.old self.new client result }
        ensures others { OthersStay self.old self.new client }
        ensures merges { self.old.fault ≡ None → result ≢ Turned.Finished
            → CountsMerges self.old self.new client (option_copied offer.entry) }
        ensures finished { IsThrough self.old client → self.old.fault ≡ None
            → result ≡ Turned.Finished }
        ensures counted { IsCounted (B.count (store_in self.old)) (B.count (store_in self.new))
            result }
        ensures later { AreLater B.Blocks self.old self.new }
        ensures rest { KeepsRest B.Blocks (store_in self.old) (store_in self.new) result }
        ensures stopped { IsStoppedBy B.Blocks self.old self.new result }
        // Where contents are told, over a store as an opening leaves it.
        ensures notes { (opening : State) → IsRunOf B.Blocks self.old opening
            → HasNoted B.Blocks opening self.old self.new client }
        ensures timely { (opening : State) → IsRunOf B.Blocks self.old opening
            → self.new.fault ≡ None → IsTimely opening self.new client }
        ensures whole { (opening : State) → IsRunOf B.Blocks self.old opening
            → IsWhole opening self.new client result }
        ensures good { (opening : State) → IsRunOf B.Blocks self.old opening → IsNeverBad result }
    {
        if let Some(fault) = self.fault {
            return Turned::Stopped { fault };
        }
        let session = &mut self.sessions[client.get() as usize - 1];
        let turned = session.turn(&mut self.common, offer);
        self.fault = fault_of(&turned);
        turned
    }

    /// What the run did so far.
    pub fn journal(&self) -> &Journal
        ensures { result.now ≡ journal_in self.now }
    {
        self.common.journal()
    }

    /// How many operations on blocks were made.
    pub fn operations(&self) -> u64
        ensures { result ≡ B.count (store_in self.now) }
    {
        self.common.operations()
    }

    /// How many clients there are, from 1 to 16.
    pub fn clients(&self) -> usize
        ensures number { result ≡ length self.now.sessions }
        ensures some { 1 ≤ result }
        ensures few { result ≤ 16 }
    {
        self.sessions.len()
    }

    /// The script of a client.
    pub fn script(&self, client: ClientNo) -> &Script
        requires { client ≤ length self.now.sessions }
        ensures { slice_get (scripts_in self.now) (client - 1) ≡ Some result.now }
    {
        self.sessions[client.get() as usize - 1].script()
    }

    /// The answer to the line of a client at a place of its script, from 0, where it is answered.
    pub fn answer(&self, client: ClientNo, place: usize) -> Option<&LineReply>
        requires { client ≤ length self.now.sessions }
        ensures { option_copied result ≡ slice_get (replies_of self.now client) place }
    {
        self.sessions[client.get() as usize - 1].reply(place)
    }

    /// How many objects there are.
    pub fn objects(&self) -> usize
        ensures { result ≡ length (told_in self.now) }
    {
        self.common.objects()
    }

    /// The serials of the first and of the last version that is known to be kept of the object at a
    /// place, from 0, where it is live.
    pub fn serials(&self, place: usize) -> Option<(u64, u64)>
        requires { place < length (told_in self.now) }
        ensures { slice_get (told_in self.now) place ≡ Some result }
    {
        self.common.serials(place)
    }

    /// The answer to the line of a client that has this number in its script, where it is answered.
    pub fn reply(&self, client: ClientNo, line: u32) -> Option<&LineReply>
        ensures { MatchOption result
            ((reply : LineReply) → IsAnswered self.now client line reply → ⊥)
            (λ reply. IsAnswered self.now client line reply.now) }
    {
        let session = self.sessions.get(client.get() as usize - 1)?;
        session.reply_to(line)
    }

    /// The serials of the first and of the last version that an object's file keeps, where the
    /// object is live. After a fault they are those that were known before it.
    pub fn kept(&self, object: u32) -> Option<(u64, u64)>
        ensures known { MatchOption result (HasNoHead self.now.common.heads.items object)
            (TellsSerials self.now.common.heads.items object) }
        ensures kept { (opening : State) → IsRunOf B.Blocks self.now opening
            → self.now.fault ≡ None → result
            ≡ kept_in (serial_state opening (scripts_in self.now) (entries_in self.now)) object }
    {
        self.common.kept(object)
    }

    /// How many pairs of pages the clients merged themselves, a number that stands still at its
    /// last value.
    pub fn own_merges(&self) -> u64
        ensures { result ≡ own_merges_in self.now }
    {
        let mut merges: u64 = 0;
        for session in &self.sessions {
            merges = merges.saturating_add(session.merges());
        }
        merges
    }

    /// Runs nothing. Its contract: what is promised of the run, over a store as an opening leaves
    /// it.
    pub fn promise(&self)
        ensures { (opening : State) (run : IsRunOf B.Blocks self.now opening)
            → IsPromised B.Blocks opening run.first self.now }
    {
        let _common = &self.common;
    }

    /// The end of the run: its store, and what it did.
    pub fn end(self) -> (B, Journal)
        ensures parts { result ≡ (store_in self, journal_in self) }
        ensures promise { (opening : State) (run : IsRunOf B.Blocks self opening)
            → IsPromised B.Blocks opening run.first self }
    {
        let GroundOver { common, .. } = self;
        common.end()
    }
}
