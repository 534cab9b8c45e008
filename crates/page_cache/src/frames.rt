//! Frames with blocks, the latest used first.
ghost use Rattle.std.specs.Prelude.{◌≡◌, ◌<◌, ◌≤◌, ℕ, true, false, [], ◌∷◌, length, nat_eq, Some, None, IfOk, IsSome};
ghost use Rattle.std.specs.Map.{lookup, remove_entry};
ghost use Rattle.lru.specs.LruCache.{lru_cache};
ghost use Rattle.page_cache.specs.declared.frame.Frame.{Frame};
ghost use Rattle.page_cache.specs.Listing.{listing, is_listed, put_front, take_out};
ghost use Rattle.page_cache.specs.Framing.{AreEmpty, IsLastFrame, place_of, placed_at, replaced_by};

use crate::frame::Frame;
use afs_base::{BlockNo, Memory};
use lru::LruCache;
use pair_store::Block;
use std::alloc::Global;
use std::marker::Model;
use std::num::NonZeroUsize;

/// Blocks that lie in memory. Contracts see the list of them, the latest used first.
#[derive(Drop)]
pub struct Frames {
    order: LruCache<u32, Frame>,
    places: Vec<Option<u32>>,
}

impl Model for Frames {
    ghost use Rattle.std.specs.Prelude.{length};
    ghost use Rattle.page_cache.specs.Listing.{Listing, listing, listing_code};
    ghost use Rattle.page_cache.specs.Framing.{listed, IsLaid};

    ghost Value = { Listing };

    ghost coded = { listing_code };

    ghost view = { λ f. listing (length f.places.items) f.order.cap (listed f.order.entries) };

    ghost invariant = { λ f. IsLaid f.order.entries f.places.items f.order.cap };
}

impl Frames {
    /// So many frames, 1 to 4,096, none of which has a block yet, for a store of so many blocks.
    pub fn make(alloc: Global, blocks: u32, pages: u32) -> Result<Frames, Memory>
        requires some { 1 ≤ pages }
        requires most { pages ≤ 4096 }
        ensures { IfOk result (λ f. f ≡ listing blocks pages []) }
    {
        let order = empty_frames(alloc, pages)?;
        let places = vec![in alloc; None; blocks as usize]?;
        Ok(Frames { order, places })
    }

    /// Whether a block is listed.
    pub fn holds(&self, n: BlockNo) -> bool
        ensures { result ≡ is_listed n self.now }
    {
        place_in(&self.places, n).is_some()
    }

    /// Copies a listed block, which then comes first. It tells whether the block is listed.
    pub fn find(&mut self, n: BlockNo, into: &mut Block) -> bool
        ensures found { result ≡ true
            → (lookup (nat_eq n) self.old.entries ≡ Some into.new)
            × (self.new ≡ put_front n into.new self.old) }
        ensures missed { result ≡ false
            → (lookup (nat_eq n) self.old.entries ≡ None) × (self.new ≡ self.old)
            × (into.new ≡ into.old) }
    {
        let Some(key) = place_in(&self.places, n) else {
            return false;
        };
        copy_frame(&self.order, key, into);
        self.order.promote(&key);
        true
    }

    /// Puts a block first, with these bytes. Where it is new and all frames are full, the last block goes.
    pub fn put(&mut self, n: BlockNo, body: &Block)
        requires { n < self.old.blocks }
        ensures { self.new ≡ put_front n body.now self.old }
    {
        if let Some(key) = place_in(&self.places, n) {
            fill_frame(&mut self.order, key, Some(n), body);
            return;
        }
        let (key, was) = last_frame(&self.order);
        replace(&mut self.places, was, n, key);
        fill_frame(&mut self.order, key, Some(n), body);
    }

    /// Takes a block out of the list. Its frame goes behind all others.
    pub fn take_out(&mut self, n: BlockNo)
        ensures { self.new ≡ take_out n self.old }
    {
        let Some(key) = place_in(&self.places, n) else {
            return;
        };
        set_place(&mut self.places, n, None);
        fill_frame(&mut self.order, key, None, &[0; 1024]);
        self.order.demote(&key);
    }
}

// So many frames without a block.
fn empty_frames(alloc: Global, pages: u32) -> Result<LruCache<u32, Frame>, Memory>
    requires { 1 ≤ pages }
    ensures { IfOk result (λ c. AreEmpty c.entries × (length c.entries ≡ pages) × (c.cap ≡ pages)) }
{
    let Some(cap) = NonZeroUsize::new(pages as usize) else {
        unreachable!()
    };
    let mut order = LruCache::new(alloc, cap)?;
    for key in 0..pages {
        order.put(
            key,
            Frame {
                block: None,
                bytes: [0; 1024],
            },
        )?;
    }
    Ok(order)
}

// The frame in which a block lies, if one does.
fn place_in(places: &Vec<Option<u32>>, n: BlockNo) -> Option<u32>
    ensures { result ≡ place_of n places.now.items }
{
    let i = n.get() as usize;
    if i < places.len() { places[i] } else { None }
}

// Notes in which frame a block lies.
fn set_place(places: &mut Vec<Option<u32>>, n: BlockNo, key: Option<u32>)
    requires { n < length places.old.items }
    ensures { places.new.items ≡ placed_at n key places.old.items }
{
    places[n.get() as usize] = key;
}

// Notes that a block came to a frame in which another may have been.
fn replace(places: &mut Vec<Option<u32>>, was: Option<BlockNo>, n: BlockNo, key: u32)
    requires fits { n < length places.old.items }
    requires fitted { (m : ℕ) → was ≡ Some m → m < length places.old.items }
    ensures { places.new.items ≡ replaced_by was n key places.old.items }
{
    if let Some(m) = was {
        set_place(places, m, None);
    }
    set_place(places, n, Some(key));
}

// The frame that was not used for longest, and whose block it has.
fn last_frame(order: &LruCache<u32, Frame>) -> (u32, Option<BlockNo>)
    requires { 0 < length order.now.entries }
    ensures { IsLastFrame order.now.entries result.0 result.1 }
{
    let Some((key, frame)) = order.peek_lru() else {
        unreachable!()
    };
    (*key, frame.block)
}

// Copies the bytes of a frame.
fn copy_frame(order: &LruCache<u32, Frame>, key: u32, into: &mut Block)
    requires { IsSome (lookup (nat_eq key) order.now.entries) }
    ensures { (f : Frame) → lookup (nat_eq key) order.now.entries ≡ Some f → into.new ≡ f.bytes }
{
    let Some(frame) = order.peek(&key) else {
        unreachable!()
    };
    *into = frame.bytes;
}

// A frame gets another block or none, and goes before all others.
fn fill_frame(order: &mut LruCache<u32, Frame>, key: u32, block: Option<BlockNo>, bytes: &Block)
    requires { IsSome (lookup (nat_eq key) order.old.entries) }
    ensures { order.new
        ≡ lru_cache ((key, record { block = block; bytes = bytes.now }) ∷ remove_entry
        (nat_eq key) order.old.entries) order.old.cap }
{
    let frame = Frame {
        block,
        bytes: *bytes,
    };
    let Ok(_) = order.put(key, frame) else {
        unreachable!()
    };
}
