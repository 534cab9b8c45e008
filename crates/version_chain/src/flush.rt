ghost use Rattle.std.specs.Prelude.{◌≡◌, ◌↔◌, IsTrue, ℕ, ◌+◌, ◌<◌, ◌≤◌, ◌^◌, [], true, length, slice_get, MatchOption, OnSome, Some};
ghost use Rattle.block_map.specs.States.{held_count};
ghost use Rattle.tree_model.specs.Accesses.{written_paths};
ghost use Rattle.draft_model.specs.Told.{are_rising};
ghost use Rattle.draft_model.specs.Views.{copies, live};
ghost use Rattle.draft_model.specs.Flush.{IsPlaced, are_apart, block_of, in_turn};
ghost use Rattle.version_chain.specs.Flush.{base_of, paths_of, AreHeld, StartsAtRoot, IsPlaceOf, IsVersionFor, IsWritten, GivesNext, IsDone};

use crate::pages::page_for;
use crate::place::Place;
use crate::planning::{MAX_PLACES, places_of};
use afs_base::{BlockNo, ClientNo, Path};
use arrayvec::ArrayVec;
use block_map::BlockMap;
use draft_tree::Draft;
use page_codec::{Block, Members, VersionPage, encode_page, encode_version};
use ref_flags::Mark;
use std::marker::Model;

/// The blocks that a commit writes, given out one after the other: each fresh page of a draft, and last the version page.
#[derive(Debug, Drop)]
pub struct Flush {
    places: ArrayVec<Place, MAX_PLACES>,
    members: Members,
    written: usize,
}

impl Model for Flush {
    ghost use Rattle.std.specs.Prelude.{◌≤◌, length};
    ghost use Rattle.version_chain.specs.Flush.{Plan};

    ghost Value = { Plan };

    ghost view = { λ f. record
        { placed = f.places.items; members = f.members; written = f.written } };

    ghost invariant = { λ f. f.written ≤ length f.places.items };
}

/// The same members once more.
pub fn same_members(members: &Members) -> Members
    ensures { result ≡ members.now }
{
    let mut copy = Members::none();
    for member in members.as_slice() {
        copy.push(*member);
    }
    copy
}

/// The version page that is written for a draft.
fn version_for<D: Draft>(draft: &D, places: &[Place], members: &Members) -> VersionPage
    requires ready { D.is_ready draft.now }
    requires serial { D.serial_of draft.now + 1 < 2 ^ 64 }
    requires live { live (copies (D.view draft.now)) [] ≡ true }
    requires rising { are_rising (paths_of places.now) ≡ true }
    requires own { IsPlaceOf places.now 0 [] }
    ensures { IsVersionFor (D.view draft.now)
        (base_of (D.root_of draft.now) (D.object_of draft.now) (D.serial_of draft.now))
        places.now members.now result }
{
    let root = Path::root();
    VersionPage {
        root: draft.flags(&root).see(Mark::Copy),
        page: page_for(draft, places, 0, &root),
        object: draft.object(),
        serial: draft.serial() + 1,
        commit: None,
        base: Some(draft.root()),
        members: same_members(members),
    }
}

impl Flush {
    /// Plans the blocks of a commit: the k-th fresh path goes to the block at place `from + k` of those that the client holds. Where nothing
    /// was written `/` alone is written, as a version with members needs it. Takes no memory.
    pub fn plan<D: Draft>(
        draft: &D,
        map: &BlockMap,
        client: ClientNo,
        from: u32,
        members: Members,
    ) -> Flush
        requires ready { D.is_ready draft.now }
        requires room { from + length (written_paths (D.fresh_of draft.now)) ≤ held_count client
            map.now }
        ensures paths { paths_of result.placed ≡ written_paths (D.fresh_of draft.now) }
        ensures placed { IsPlaced (D.view draft.now) result.placed }
        ensures blocks { AreHeld map.now client from result.placed }
        ensures apart { are_apart result.placed ≡ true }
        ensures top { StartsAtRoot result.placed }
        ensures members { result.members ≡ members }
        ensures start { result.written ≡ 0 }
    {
        Flush {
            places: places_of(draft, map, client, from),
            members,
            written: 0,
        }
    }

    /// Which place's turn it is: the places in their order, but the first one, that of `/`, last. None when all had their turn.
    fn turn(&self) -> Option<usize>
        ensures { MatchOption result (self.now.written ≡ length self.now.placed) (λ own.
            (self.now.written < length self.now.placed)
            × (self.now.written < MAX_PLACES) × (own < length self.now.placed)
            × (slice_get (in_turn self.now.placed) self.now.written
            ≡ slice_get self.now.placed own)) }
    {
        let places = self.places.as_slice();
        if self.written + 1 < places.len() {
            return Some(self.written + 1);
        }
        if self.written < places.len() {
            return Some(0);
        }
        None
    }

    /// The next block that is to be written, with its bytes in `into`; the version page comes last. None exactly when it was given out, and
    /// then nothing changes.
    ///
    /// The draft is that of `plan`, unchanged since.
    pub fn next<D: Draft>(&mut self, draft: &D, into: &mut Block) -> Option<BlockNo>
        requires ready { D.is_ready draft.now }
        requires serial { D.serial_of draft.now + 1 < 2 ^ 64 }
        requires placed { IsPlaced (D.view draft.now) self.old.placed }
        ensures gives { MatchOption result
            (IsDone self.old self.new into.old into.new)
            (λ block. GivesNext (D.view draft.now)
            (base_of (D.root_of draft.now) (D.object_of draft.now) (D.serial_of draft.now))
            self.old self.new block into.new) }
        ensures same { (self.new.placed ≡ self.old.placed) × (self.new.members ≡ self.old.members) }
    {
        let own = self.turn()?;
        let place = self.place(own);
        self.write(draft, own, &place.path, into);
        self.written += 1;
        Some(place.block)
    }

    /// How many blocks are written, at least one.
    pub fn len(&self) -> usize
        ensures { result ≡ length self.now.placed }
    {
        self.places.as_slice().len()
    }

    /// Whether all of them were given out.
    pub fn is_done(&self) -> bool
        ensures { IsTrue result ↔ (self.now.written ≡ length self.now.placed) }
    {
        self.written == self.places.as_slice().len()
    }

    /// The place of a number.
    fn place(&self, own: usize) -> Place
        requires { own < length self.now.placed }
        ensures { slice_get self.now.placed own ≡ Some result }
    {
        let places = self.places.as_slice();
        places[own]
    }

    /// The block of the version page.
    pub fn top(&self) -> BlockNo
        requires { StartsAtRoot self.now.placed }
        ensures { block_of self.now.placed [] ≡ Some result }
    {
        let place = self.place(0);
        place.block
    }

    /// Writes the page of a place into a block: of `/` the version page.
    fn write<D: Draft>(&self, draft: &D, own: usize, path: &Path, into: &mut Block)
        requires ready { D.is_ready draft.now }
        requires serial { D.serial_of draft.now + 1 < 2 ^ 64 }
        requires live { live (copies (D.view draft.now)) path.now ≡ true }
        requires rising { are_rising (paths_of self.now.placed) ≡ true }
        requires top { IsPlaceOf self.now.placed 0 [] }
        requires own { IsPlaceOf self.now.placed own path.now }
        ensures { IsWritten (D.view draft.now)
            (base_of (D.root_of draft.now) (D.object_of draft.now) (D.serial_of draft.now))
            self.now path.now into.new }
    {
        let places = self.places.as_slice();
        if path.is_empty() {
            encode_version(&version_for(draft, places, &self.members), into);
        } else {
            encode_page(&page_for(draft, places, own, path), into);
        }
    }
}
