ghost use Rattle.std.specs.Prelude.{◌≡◌, ◌+◌, ◌*◌, ◌<◌, ◌≤◌, ◌++◌, Some, length, replicate, slice_get, vec_capacity, vec_len, IfNone, IfOk, IfSome};
ghost use Rattle.std.specs.Borrow.{sem};
ghost use Rattle.page_codec.specs.Blank.{empty_page};
ghost use Rattle.frame_pool.specs.Leasing.{left, taken_out, put_back, IsIn, IsOf, IsOut};
ghost use Rattle.frame_pool.specs.Lending.{LendsPage};

use crate::frame::Frame;
use crate::lease::Lease;
use crate::leases::Leases;
use crate::run::FRAMES;
use afs_base::Memory;
use page_codec::Page;
use std::alloc::Global;
use std::marker::Model;

/// Pages in frames. Contracts see the list of the pages, by the numbers of their frames. Memory for all of them is taken at once, but a
/// frame's page is written only as it, or one behind it, is first changed: till then it is empty.
#[derive(Drop)]
pub struct Pool {
    pages: Vec<Page>,
    // How many frames follow those, each with this page.
    unwritten: usize,
    blank: Page,
}

impl Model for Pool {
    ghost use Rattle.std.specs.Prelude.{◌≡◌, ◌+◌, ◌≤◌, List, ◌++◌, replicate, vec_capacity, vec_len};
    ghost use Rattle.page_codec.specs.Blank.{empty_page};
    ghost use Rattle.page_codec.specs.Values.{PageValue};

    ghost Value = { List PageValue };

    ghost view = { λ p. p.pages.items ++ replicate p.unwritten (empty_page 0) };

    ghost invariant = { λ p. (vec_len p.pages + p.unwritten ≤ vec_capacity p.pages)
        × (p.blank ≡ empty_page 0) };
}

/// Writes the pages of the first unwritten frames, up to a frame.
fn write_up_to(pages: &mut Vec<Page>, unwritten: &mut usize, last: usize)
    requires room { vec_len pages.old + unwritten.old ≤ vec_capacity pages.old }
    requires among { last < vec_len pages.old + unwritten.old }
    ensures same { pages.new.items ++ replicate unwritten.new (empty_page 0)
        ≡ pages.old.items ++ replicate unwritten.old (empty_page 0) }
    ensures room { vec_len pages.new + unwritten.new ≤ vec_capacity pages.new }
    ensures written { last < vec_len pages.new }
{
    while pages.len() <= last {
        pages.push_reserved(Page::empty(0));
        *unwritten -= 1;
    }
}

impl Pool {
    /// A pool with 1,024 frames for each of 1 to 16 clients, and their leases, each with room for 1,024 rows. Nothing else here takes memory.
    pub fn make<R: Drop>(alloc: Global, clients: u32) -> Result<(Pool, Leases<R>), Memory>
        requires { (1 ≤ clients) × (clients ≤ 16) }
        ensures pages { IfOk result (λ r. length r.0 ≡ 1024 * clients) }
        ensures leases { IfOk result (λ r. (r.1.next ≡ 0) × (r.1.clients ≡ clients)) }
    {
        let unwritten = (FRAMES * clients) as usize;
        let pages = Vec::with_capacity(alloc, unwritten)?;
        let leases = Leases::make(alloc, clients)?;
        let blank = Page::empty(0);
        let pool = Pool {
            pages,
            unwritten,
            blank,
        };
        Ok((pool, leases))
    }

    /// Takes a frame out of a lease of this pool. None exactly where the lease has none left.
    pub fn take<R>(&mut self, lease: &mut Lease<R>) -> Option<Frame>
        requires { IsOf lease.old.run (length self.old) }
        ensures some { IfSome result (λ f. IsIn lease.old.run f
            × (lease.new.run ≡ taken_out lease.old.run f)
            × (left lease.new.run + 1 ≡ left lease.old.run)) }
        ensures none { IfNone result
            ((lease.new.run ≡ lease.old.run) × (left lease.old.run ≡ 0)) }
        ensures rows { lease.new.rows ≡ lease.old.rows }
        ensures pages { self.new ≡ self.old }
    {
        lease.run.take()
    }

    /// Takes back a frame of a lease of this pool.
    pub fn give<R>(&mut self, lease: &mut Lease<R>, frame: Frame)
        requires pool { IsOf lease.old.run (length self.old) }
        requires out { IsOut lease.old.run frame }
        ensures back { lease.new.run ≡ put_back lease.old.run frame }
        ensures left { left lease.new.run ≡ left lease.old.run + 1 }
        ensures rows { lease.new.rows ≡ lease.old.rows }
        ensures pages { self.new ≡ self.old }
    {
        lease.run.give(frame);
    }

    /// The page in a frame of this pool.
    pub fn page(&self, frame: &Frame) -> &Page
        requires { frame.now < length self.now }
        ensures { slice_get self.now frame.now ≡ Some result.now }
    {
        match self.pages.get(frame.place()) {
            Some(page) => page,
            None => &self.blank,
        }
    }

    /// The page in a frame of this pool, to be changed. No other page changes.
    pub fn page_mut(&mut self, frame: &Frame) -> &mut Page
        requires { frame.now < length self.old }
        ensures* writes_back { sem 𝓛 (LendsPage self.entry frame.now result) }
        ensures value { slice_get self.old frame.now ≡ Some result.now }
    {
        let place = frame.place();
        write_up_to(&mut self.pages, &mut self.unwritten, place);
        &mut self.pages[place]
    }
}
