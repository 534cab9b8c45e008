// A walk over the blocks of a store, which marks the places that it finds.
ghost use Rattle.std.specs.Prelude.{◌≡◌, ◌+◌, ◌<◌, ◌≤◌, ◌==◌, ℕ, List, [], IsErrOf, nat_eq, false, length};
ghost use Rattle.std.specs.List.{list_any};
ghost use Rattle.drives.specs.declared.device.Half.{Half};
ghost use Rattle.block_map.specs.States.{free_count};
ghost use Rattle.page_codec.specs.Causes.{page_of};
ghost use Rattle.store_model.specs.Walk.{place, add, bind, content_at};
ghost use Rattle.store_model.specs.Pages.{page_at};
ghost use Rattle.store_check.specs.Since.{IsUnreadSince, OnlyRead, is_past};
ghost use Rattle.store_check.specs.Surveyed.{IsTold, blocks_in};
ghost use Rattle.store_check.specs.declared.refused.WalkRefused.{WalkRefused};
ghost use Rattle.store_check.specs.Results.{Walks};
ghost use Rattle.store_check.specs.Marks.{Marks};

use crate::places::Places;
use crate::reading::Reading;
use crate::refused::WalkRefused;
use afs_base::BlockNo;
use block_map::BlockMap;
use page_codec::{Page, Why, decode_page};
use pair_store::{Block, Blocks};
use std::marker::Model;

/// A store that is read, and the places that were found in it.
pub struct Survey<B: Blocks> {
    reading: Reading<B>,
    places: Places,
}

impl<B: Blocks> Model for Survey<B> {
    ghost use Rattle.std.specs.Prelude.{◌≤◌};
    ghost use Rattle.store_check.specs.Surveyed.{SurveyValue};

    ghost Value = { SurveyValue B };

    ghost view = { λ s. record {
      began = s.reading.began;
      store = s.reading.store;
      count =
          s.places.count;
      list = s.places.list;
    } };

    ghost invariant = { λ s. s.places.count ≤ B.size s.reading.began };
}

impl<B: Blocks> Survey<B> {
    /// Begins a walk over a store, where no place was found yet.
    pub fn over(reading: Reading<B>, places: Places) -> Survey<B>
        requires { places.count ≤ B.size reading.began }
        ensures began { result.began ≡ reading.began }
        ensures store { result.store ≡ reading.store }
        ensures count { result.count ≡ places.count }
        ensures list { result.list ≡ places.list }
    {
        Survey { reading, places }
    }

    /// The store, and the map of its blocks.
    pub fn into_parts(self) -> (B, BlockMap)
        ensures store { result.0 ≡ self.store }
        ensures only { OnlyRead B.Blocks self.began result.0 }
        ensures size { length result.1 ≡ self.count }
        ensures marks { Marks self.list result.1 }
        ensures free { free_count result.1 + 1 + length self.list ≡ self.count }
    {
        let Survey { reading, places } = self;
        (reading.into_store(), places.into_map())
    }

    /// How many blocks the store has.
    pub fn count(&self) -> u32
        ensures { result ≡ self.now.count }
    {
        self.places.count()
    }

    /// How many places were found, at most 65535.
    pub fn found(&self) -> u32
        ensures value { result ≡ length self.now.list }
        ensures most { result < 65536 }
    {
        self.places.found()
    }

    /// Whether the block, which is one of the store's and not block 0, is a place.
    fn has(&self, n: BlockNo) -> bool
        requires low { 0 < n }
        requires high { n < self.now.count }
        ensures { result ≡ list_any (nat_eq n) self.now.list }
    {
        self.places.has(n)
    }

    /// Reads a block of the store.
    pub fn read(&mut self, n: BlockNo) -> Result<Block, WalkRefused>
        requires { n < self.old.count }
        ensures began { self.new.began ≡ self.old.began }
        ensures count { self.new.count ≡ self.old.count }
        ensures list { self.new.list ≡ self.old.list }
        ensures walk { IsTold B.Blocks self.old → (places : List ℕ)
            → Walks (is_past B.Blocks self.new.store) (λ b. b) result
            (content_at n (B.content self.old.began n) places) places }
        ensures unread { (h : Half) → IsErrOf result (WalkRefused.ReadFault h)
            → IsUnreadSince B.Blocks self.new.began self.new.store h }
    {
        self.reading.read(n)
    }

    /// Takes a block as a place, and reads it.
    #[tactic(auto, unfolding(store_model::specs::Walk::add, store_model::specs::Walk::bind))]
    fn take(&mut self, n: BlockNo) -> Result<Block, WalkRefused>
        requires low { 0 < n }
        requires high { n < self.old.count }
        requires new { list_any (nat_eq n) self.old.list ≡ false }
        ensures began { self.new.began ≡ self.old.began }
        ensures count { self.new.count ≡ self.old.count }
        ensures walk { IsTold B.Blocks self.old
            → Walks (is_past B.Blocks self.new.store) (λ b. b) result
            (bind (add n) (λ _. content_at n
            (B.content self.old.began n)) self.old.list) self.new.list }
        ensures unread { (h : Half) → IsErrOf result (WalkRefused.ReadFault h)
            → IsUnreadSince B.Blocks self.new.began self.new.store h }
    {
        self.places.add(n);
        self.read(n)
    }
}

/// A block that another one names as a new place: its number is in range, no other place has it, and it holds something.
#[tactic(auto, unfolding(store_model::specs::Walk::place, store_model::specs::Walk::bind, store_model::specs::Walk::check, store_model::specs::Walk::is_new, store_model::specs::Walk::refuse, store_model::specs::Walk::done))]
pub fn place<B: Blocks>(
    survey: &mut Survey<B>,
    namer: BlockNo,
    n: BlockNo,
) -> Result<Block, WalkRefused>
    ensures began { survey.new.began ≡ survey.old.began }
    ensures count { survey.new.count ≡ survey.old.count }
    ensures walk { IsTold B.Blocks survey.old
        → Walks (is_past B.Blocks survey.new.store) (λ b. b) result
        (place (blocks_in B.content survey.old) namer n survey.old.list) survey.new.list }
    ensures unread { (h : Half) → IsErrOf result (WalkRefused.ReadFault h)
        → IsUnreadSince B.Blocks survey.new.began survey.new.store h }
{
    if n.get() < 1 || n.get() >= survey.count() {
        return Err(WalkRefused::BadStore {
            block: namer,
            why: Why::Reference,
        });
    }
    if survey.has(n) {
        return Err(WalkRefused::BadStore {
            block: n,
            why: Why::Seen,
        });
    }
    survey.take(n)
}

/// A new place that is a page of this level.
#[tactic(auto, unfolding(store_model::specs::Pages::page_at, store_model::specs::Walk::bind, store_model::specs::Walk::decoded, store_model::specs::Walk::check, store_model::specs::Walk::refuse, store_model::specs::Walk::done))]
pub fn page_at<B: Blocks>(
    survey: &mut Survey<B>,
    namer: BlockNo,
    n: BlockNo,
    level: u8,
) -> Result<Page, WalkRefused>
    ensures began { survey.new.began ≡ survey.old.began }
    ensures count { survey.new.count ≡ survey.old.count }
    ensures walk { IsTold B.Blocks survey.old
        → Walks (is_past B.Blocks survey.new.store) (λ page. page) result
        (page_at (blocks_in B.content survey.old) namer n level survey.old.list) survey.new.list }
    ensures unread { (h : Half) → IsErrOf result (WalkRefused.ReadFault h)
        → IsUnreadSince B.Blocks survey.new.began survey.new.store h }
{
    let block = place(survey, namer, n)?;
    match decode_page(&block) {
        Ok(page) => {
            if page.level == level {
                Ok(page)
            } else {
                Err(WalkRefused::BadStore {
                    block: n,
                    why: Why::Level,
                })
            }
        }
        Err(bad) => Err(WalkRefused::BadStore {
            block: n,
            why: bad.why,
        }),
    }
}
