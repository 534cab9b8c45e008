//! Drafts on hand-made bases, and what they write.
ghost use Rattle.std.specs.Prelude.{◌≡◌, ◌<◌, ◌≤◌, ◌^◌, IfSome, OnSome};
ghost use Rattle.block_map.specs.States.{held_count};
ghost use Rattle.draft_model.specs.Flush.{IsPlaced};
ghost use Rattle.tree_model.specs.Accesses.{end_of};
ghost use Rattle.draft_model.specs.Views.{copies, Wants};

use super::*;

/// The version page of a file that was just made.
pub fn new_file() -> VersionPage {
    VersionPage {
        root: Flags::none(),
        page: Page::empty(0),
        object: 1,
        serial: 1,
        commit: None,
        base: None,
        members: Members::none(),
    }
}

/// The number of a block.
pub fn number(n: u32) -> Option<BlockNo>
    requires { n < 2 ^ 28 }
    ensures { IfSome result (λ b. b ≡ n) }
{
    BlockNo::of(n).ok()
}

/// A draft on a version.
pub fn begun(alloc: Global, at: BlockNo, version: &VersionPage) -> Option<BoxDraft>
    requires { 0 < at }
    ensures { IfSome result (λ d. ⟦<BoxDraft as Draft>⟧.fed_of d ≡ 0) }
{
    match BoxDraft::begin(alloc, at, version) {
        Ok(draft) => Some(draft),
        Err(_) => None,
    }
}

/// Copies the page that a step needs, where it needs one, if that is the page in this block.
fn copied<D: Draft>(draft: &mut D, step: &Step, at: BlockNo, page: &Page) -> Option<()>
    requires ready { D.is_ready draft.old }
    requires none_fed { D.fed_of draft.old ≡ 0 }
    ensures ready { D.is_ready draft.new }
    ensures fed { D.fed_of draft.new ≤ 1 }
{
    match draft.need(step) {
        None => Some(()),
        Some((path, block)) if block.get() == at.get() => copied_at(draft, step, &path, at, page),
        Some(_) => None,
    }
}

/// Copies the page that a step needs, where it has the level of its path.
fn copied_at<D: Draft>(
    draft: &mut D,
    step: &Step,
    path: &Path,
    at: BlockNo,
    page: &Page,
) -> Option<()>
    requires ready { D.is_ready draft.old }
    requires none_fed { D.fed_of draft.old ≡ 0 }
    requires wants { Wants (copies (D.view draft.old)) (end_of step.now) path.now at }
    ensures ready { D.is_ready draft.new }
    ensures fed { D.fed_of draft.new ≤ 1 }
{
    if page.level as usize != path.len() {
        return None;
    }
    match draft.feed(path, page) {
        Ok(()) => Some(()),
        Err(_) => None,
    }
}

/// Does a step that needs at most the page in one block.
pub fn done<D: Draft>(draft: &mut D, step: &Step, at: BlockNo, page: &Page) -> Option<()>
    requires ready { D.is_ready draft.old }
    requires none_fed { D.fed_of draft.old ≡ 0 }
    ensures ready { D.is_ready draft.new }
    ensures fed { OnSome result (D.fed_of draft.new ≡ 0) }
{
    copied(draft, step, at, page)?;
    stepped(draft, step)
}

/// Does a step that needs no page.
fn stepped<D: Draft>(draft: &mut D, step: &Step) -> Option<()>
    requires ready { D.is_ready draft.old }
    requires few { D.fed_of draft.old ≤ 1 }
    ensures ready { D.is_ready draft.new }
    ensures fed { OnSome result (D.fed_of draft.new ≡ 0) }
{
    if draft.need(step).is_some() || draft.count() == 128 {
        return None;
    }
    match draft.step(step) {
        Ok(_) => Some(()),
        Err(_) => None,
    }
}

/// A map of 1,024 blocks of which so many are kept, and of which the client holds so many more.
fn holding(alloc: Global, kept: u32, client: ClientNo, count: u32) -> Option<BlockMap>
    ensures { IfSome result (λ m. held_count client m ≡ count) }
{
    let mut map = BlockMap::make(alloc, 1024).ok()?;
    map.hold(client, kept).ok()?;
    map.keep(client);
    map.hold(client, count).ok()?;
    Some(map)
}

/// The plan of a draft on a store with so many blocks in use, with its blocks behind so many others that the client holds.
pub fn planned<D: Draft>(
    alloc: Global,
    draft: &D,
    kept: u32,
    from: u32,
    members: Members,
) -> Option<Flush>
    requires ready { D.is_ready draft.now }
    ensures { IfSome result (λ f. IsPlaced (D.view draft.now) f.placed) }
{
    let client = ClientNo::of(1).ok()?;
    let count = from.checked_add(draft.fresh_count().max(1))?;
    let map = holding(alloc, kept, client, count)?;
    Some(Flush::plan(draft, &map, client, from, members))
}
