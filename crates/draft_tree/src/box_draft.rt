ghost use Rattle.std.specs.Prelude.{◌≡◌, ◌+◌, ◌*◌, ◌<◌, ◌≤◌, [], true, length, IfOk};
ghost use Rattle.std.specs.Map.{keys_of};
ghost use Rattle.draft_model.specs.Told.{are_rising};
ghost use Rattle.draft_model.specs.Views.{copies, live};
ghost use Rattle.draft_tree.specs.Drafts.{HasLevels, HasLevels-prop};
ghost use Rattle.draft_model.specs.Entries.{shown, fresh_paths};

use crate::change::Change;
use crate::copied_page::CopiedPage;
use crate::draft::{Draft, MAX_FRESH};
use crate::page_list::PageList;
use crate::pages::Pages;
use crate::queries::{flags, live_page, slots};
use crate::slot_marks::SlotMarks;
use crate::steps;
use afs_base::{BlockNo, Memory, Path};
use arrayvec::ArrayVec;
use page_codec::{Page, VersionPage};
use ref_flags::Flags;
use std::alloc::Global;
use tree_model::{Reply, Step};

/// A draft that keeps its pages in memory, one by one.
#[derive(Drop)]
pub struct BoxDraft {
    root: BlockNo,
    object: u32,
    serial: u64,
    count: u32,
    // How many pages were fed since the draft began or since its last step.
    fed: u32,
    pages: Pages,
    ghost named: { 0 < root },
    ghost some: { 0 < object },
    ghost most: { count ≤ 128 },
    ghost few: { fed ≤ 7 },
    // A step adds at most the page that it makes, before which at most six pages were fed; else seven.
    ghost room: { length pages ≤ 1 + 7 * count + fed },
    ghost order: { are_rising (keys_of pages) ≡ true },
    ghost top: { live (copies (shown pages)) [] ≡ true },
    ghost levels: { HasLevels (shown pages) } by { HasLevels-prop (shown pages) },
}

impl BoxDraft {
    ghost use Rattle.draft_model.specs.Steps.{begun};
    ghost use Rattle.draft_model.specs.Stands.{Begins};

    /// A draft on the version whose version page is given and lies in block `at`, which is not 0. No step is done yet.
    pub fn begin(alloc: Global, at: BlockNo, version: &VersionPage) -> Result<BoxDraft, Memory>
        requires { 0 < at }
        ensures view { IfOk result (λ d. ⟦<BoxDraft as Draft>⟧.view d ≡ begun version.now.page) }
        ensures begins { IfOk result
            (λ d. Begins (⟦<BoxDraft as Draft>⟧.view d) at version.now.page) }
        ensures root { IfOk result (λ d. ⟦<BoxDraft as Draft>⟧.root_of d ≡ at) }
        ensures object { IfOk result (λ d. ⟦<BoxDraft as Draft>⟧.object_of d ≡ version.now.object) }
        ensures serial { IfOk result (λ d. ⟦<BoxDraft as Draft>⟧.serial_of d ≡ version.now.serial) }
        ensures count { IfOk result (λ d. (⟦<BoxDraft as Draft>⟧.count_of d ≡ 0)
            × (⟦<BoxDraft as Draft>⟧.fed_of d ≡ 0)) }
    {
        let mut pages = Pages::new(alloc);
        pages.put(&Path::root(), CopiedPage::fed(&version.page))?;
        Ok(BoxDraft {
            root: at,
            object: version.object,
            serial: version.serial,
            count: 0,
            fed: 0,
            pages,
        })
    }
}

impl Draft for BoxDraft {
    ghost view = { λ d. shown d.pages };

    ghost root_of = { λ d. d.root };

    ghost object_of = { λ d. d.object };

    ghost serial_of = { λ d. d.serial };

    ghost count_of = { λ d. d.count };

    ghost fed_of = { λ d. d.fed };

    ghost fresh_of = { λ d. fresh_paths d.pages };

    ghost Rest = { Unit {0} };

    ghost rest_of = { λ _. tt };

    fn root(&self) -> BlockNo {
        self.root
    }

    fn object(&self) -> u32 {
        self.object
    }

    fn serial(&self) -> u64 {
        self.serial
    }

    fn count(&self) -> u32 {
        self.count
    }

    fn has_writes(&self) -> bool {
        self.pages.has_writes()
    }

    fn fresh_count(&self) -> u32 {
        self.pages.fresh_count() as u32
    }

    fn fresh(&self, k: u32) -> Path {
        match self.pages.fresh(k as usize) {
            Some(path) => path,
            None => unreachable!(),
        }
    }

    fn list_fresh(&self, into: &mut ArrayVec<Path, MAX_FRESH>) {
        self.pages.list_fresh(into);
    }

    fn flags(&self, at: &Path) -> Flags {
        flags(&self.pages, at)
    }

    fn slots(&self, at: &Path) -> SlotMarks {
        slots(&self.pages, at)
    }

    fn page(&self, at: &Path, into: &mut Page) -> bool {
        match live_page(&self.pages, at) {
            Some(page) => {
                *into = page;
                true
            }
            None => false,
        }
    }

    fn need(&self, step: &Step) -> Option<(Path, BlockNo)> {
        steps::need(&self.pages, &step.end())
    }

    fn feed(&mut self, at: &Path, page: &Page) -> Result<(), Memory> {
        self.pages.put(at, CopiedPage::fed(page))?;
        self.fed += 1;
        Ok(())
    }

    fn step(&mut self, step: &Step) -> Result<Reply, Memory> {
        let reply = steps::step(&mut self.pages, step)?;
        self.count += 1;
        self.fed = 0;
        Ok(reply)
    }

    fn take_merged(&mut self, at: &Path, merged: &Page) {
        self.pages.change(at, &Change::Merge(*merged));
    }

    fn rebase(&mut self, root: BlockNo, serial: u64) {
        self.pages.keep_accessed();
        self.root = root;
        self.serial = serial;
    }

    ghost use Rattle.draft_model.proofs.Entries.{all_fresh, few_fresh};

    ghost top = { λ d _. d.top };

    ghost levels = { λ d _. d.levels };

    ghost most = { λ d _. d.most };

    ghost are_fresh = { λ d _. all_fresh d.pages d.order };

    ghost few = { λ d _. few_fresh d.pages d.count d.fed d.room d.most d.few };
}
