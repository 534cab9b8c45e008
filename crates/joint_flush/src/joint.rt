ghost use Rattle.std.specs.Prelude.{◌≡◌, ◌<◌, ◌≤◌, ◌↔◌, IsTrue, List, [], length, slice_get, Some, IfSome, MatchOption};
ghost use Rattle.std.specs.List.{AllByRecursion};
ghost use Rattle.block_map.specs.States.{held_count};
ghost use Rattle.block_map.specs.declared.states.BlockState.TheVariants.{Held};
ghost use Rattle.draft_model.specs.Flush.{block_of};
ghost use Rattle.version_chain.specs.Flush.{Plan, GivesNext, StartsAtRoot};
ghost use Rattle.pool_draft.specs.Sets.{picked_of, view_at, AreSameDrafts};
ghost use Rattle.joint_flush.specs.Joint.{Part, base_in, pages_in, IsReadyNumber, IsUnbegun, IsJoint, GivesPart, IsAllGiven, current_of, IsReadyJoint, IsOver, IsMoved, MovesOn};

use crate::planning::{pages_of, plan_behind};
use afs_base::{BlockNo, ClientNo, MAX_FILES};
use arrayvec::ArrayVec;
use block_map::BlockMap;
use draft_tree::Draft;
use page_codec::{Block, Member, Members};
use pool_draft::PoolSet;
use std::marker::Model;
use version_chain::Flush;

/// The blocks that the commit of an update of several files writes, given out one after the other. The files behind the first are written
/// first, in their order, and the first one, the top, last: its version page names the others as its members. Of the blocks that the client
/// holds the top's pages get the first ones, then come those of the second file, and so on.
#[derive(Debug, Drop)]
pub struct JointFlush {
    /// The numbers of the drafts that get a new version, that of the top at the head.
    numbers: ArrayVec<u8, MAX_FILES>,
    /// The files behind the first that are written already, each with the block of its version page.
    members: Members,
    /// The place of the first block of the file behind the first that is being written, among those that are held.
    from: u32,
    /// The pages of the file that is being written.
    flush: Flush,
}

impl Model for JointFlush {
    ghost use Rattle.std.specs.Prelude.{◌<◌, ◌≤◌, length};
    ghost use Rattle.afs_base.specs.declared.limits.TheConstants.{MAX_FILES};
    ghost use Rattle.joint_flush.specs.Joint.{Joint};

    ghost Value = { Joint };

    ghost view = { λ j. record
        { numbers = j.numbers.items; members = j.members; from = j.from; flush = j.flush } };

    ghost invariant = { λ j. (length j.members < length j.numbers.items)
        × (length j.numbers.items ≤ MAX_FILES) };
}

impl JointFlush {
    /// Plans the blocks of the commit of the files of these numbers, the top's at the head. Takes no memory.
    pub fn plan(
        set: &mut PoolSet,
        map: &BlockMap,
        client: ClientNo,
        numbers: ArrayVec<u8, MAX_FILES>,
    ) -> JointFlush
        requires some { 0 < length numbers.items }
        requires ready { AllByRecursion (IsReadyNumber set.old) numbers.items }
        requires room { pages_in set.old numbers.items ≤ held_count client map.now }
        ensures same { AreSameDrafts set.old set.new }
        ensures ready { IsReadyJoint set.new map.now client result }
        ensures numbers { result.numbers ≡ numbers.items }
        ensures planned { (parts : List Part) × IsJoint set.new map.now client result parts
            × AllByRecursion IsUnbegun parts }
    {
        let members = Members::none();
        let from = pages_of(set, numbers.as_slice()[0]);
        let flush = plan_behind(set, map, client, numbers.as_slice(), &members, from);
        JointFlush {
            numbers,
            members,
            from,
            flush,
        }
    }

    /// The next block that is to be written, with its bytes in `into`; the top's version page comes last. None exactly when it was given
    /// out, and then nothing changes. Takes no memory.
    ///
    /// The drafts are those of `plan`, unchanged since, and the client holds the blocks that it held.
    pub fn next(
        &mut self,
        set: &mut PoolSet,
        map: &BlockMap,
        client: ClientNo,
        into: &mut Block,
    ) -> Option<BlockNo>
        requires { IsReadyJoint set.old map.now client self.old }
        ensures same { AreSameDrafts set.old set.new }
        ensures ready { IsReadyJoint set.new map.now client self.new }
        ensures numbers { self.new.numbers ≡ self.old.numbers }
        ensures held { IfSome result (λ block. slice_get map.now block ≡ Some (Held client)) }
        ensures written { IfSome result (λ block. (plan : Plan)
            × GivesNext (view_at set.old (current_of self.old))
            (base_in set.old (current_of self.old)) self.old.flush plan block into.new) }
        ensures gives { (parts : List Part) → IsJoint set.old map.now client self.old parts
            → MatchOption result
            (IsAllGiven parts self.old self.new into.old into.new)
            (λ block. GivesPart set.old set.new map.now client parts self.new block into.new) }
    {
        set.pick(self.current());
        match self.flush.next(set, into) {
            Some(block) => {
                self.go_on(set, map, client);
                Some(block)
            }
            None => None,
        }
    }

    /// The number of the draft of the file that is being written.
    fn current(&self) -> u8
        ensures { result ≡ current_of self.now }
    {
        let numbers = self.numbers.as_slice();
        match numbers.get(self.members.len() + 1) {
            Some(number) => *number,
            None => numbers[0],
        }
    }

    /// Whether a file behind the first is written whole.
    fn is_over(&self) -> bool
        ensures { IsTrue result ↔ IsOver self.now }
    {
        self.members.len() + 1 < self.numbers.as_slice().len() && self.flush.is_done()
    }

    /// Goes on to the next file, where one behind the first is written whole. The draft of the file that is being written is picked.
    fn go_on(&mut self, set: &mut PoolSet, map: &BlockMap, client: ClientNo)
        requires ready { IsReadyJoint set.old map.now client self.old }
        requires picked { picked_of set.old ≡ current_of self.old }
        ensures moves { MovesOn set.old map.now client self.old self.new }
        ensures same { AreSameDrafts set.old set.new }
    {
        if self.is_over() {
            self.move_on(set, map, client);
        }
    }

    /// Adds the file that was written to the members, and plans the next one.
    fn move_on(&mut self, set: &mut PoolSet, map: &BlockMap, client: ClientNo)
        requires ready { IsReadyJoint set.old map.now client self.old }
        requires picked { picked_of set.old ≡ current_of self.old }
        requires over { IsOver self.old }
        ensures moved { IsMoved set.old map.now client self.old self.new }
        ensures same { AreSameDrafts set.old set.new }
    {
        let block = self.flush.top();
        // A block that is held is not the table's, 0.
        let _held = map.state(block);
        let _free = map.free();
        let object = set.object();
        self.from += self.flush.len() as u32;
        self.members.push(Member { object, block });
        self.flush = plan_behind(
            set,
            map,
            client,
            self.numbers.as_slice(),
            &self.members,
            self.from,
        );
    }

    /// The block of the version page of the file that is being written: once all blocks were given out, of the top.
    pub fn top(&self) -> BlockNo
        requires { StartsAtRoot self.now.flush.placed }
        ensures { block_of self.now.flush.placed [] ≡ Some result }
    {
        self.flush.top()
    }

    /// The files behind the first that are written, each with the block of its version page.
    pub fn members(&self) -> &Members
        ensures { result.now ≡ self.now.members }
    {
        &self.members
    }

    /// The numbers of the drafts that get a new version, that of the top at the head.
    pub fn numbers(&self) -> &[u8]
        ensures { result.now ≡ self.now.numbers }
    {
        self.numbers.as_slice()
    }
}
