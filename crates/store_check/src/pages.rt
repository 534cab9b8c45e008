// The pages of a version below its root.
ghost use Rattle.std.specs.Prelude.{◌≡◌, ◌<◌, ◌≤◌, ◌+◌, ◌-◌, ℕ, List, [], ◌∷◌, Option, Some, length, IsErrOf, IfOk, replicate};
ghost use Rattle.drives.specs.declared.device.Half.{Half};
ghost use Rattle.page_codec.specs.Values.{PageValue, ReferenceValue};
ghost use Rattle.store_model.specs.Laid.{Node};
ghost use Rattle.store_model.specs.Laws.{pages_of};
ghost use Rattle.store_model.specs.Pages.{own_from, page_at, pages_below, slot_from};
ghost use Rattle.store_check.specs.Before.{AreBefore, BeforeLies, before_at};
ghost use Rattle.store_check.specs.Since.{IsUnreadSince, is_past};
ghost use Rattle.store_check.specs.Surveyed.{IsTold, blocks_in};
ghost use Rattle.store_check.specs.declared.refused.WalkRefused.{WalkRefused};
ghost use Rattle.store_check.specs.Results.{Gets, Shows, ShowsNone};

use crate::before::{Before, all_before, befores_of, own_block};
use crate::refused::WalkRefused;
use crate::survey::{Survey, page_at};
use afs_base::BlockNo;
use page_codec::{Reference, SLOTS, Why, decode_page};
use pair_store::Blocks;

/// What the version before has at the slots of its page in this block, which is not a root.
fn page_befores<B: Blocks>(
    survey: &mut Survey<B>,
    n: BlockNo,
) -> Result<[Before; SLOTS], WalkRefused>
    ensures began { survey.new.began ≡ survey.old.began }
    ensures count { survey.new.count ≡ survey.old.count }
    ensures list { survey.new.list ≡ survey.old.list }
    ensures befores { IsTold B.Blocks survey.old → (nodes : Option (List Node)) (path : List ℕ)
        → BeforeLies (pages_of (B.content survey.old.began)) survey.old.count nodes
        → 1 ≤ length path
        → before_at nodes path ≡ Before.Page n
        → Gets (is_past B.Blocks survey.new.store) (AreBefore nodes path) result }
    ensures unread { (h : Half) → IsErrOf result (WalkRefused.ReadFault h)
        → IsUnreadSince B.Blocks survey.new.began survey.new.store h }
{
    // No contract says what files hold, so a page that is read again may name any number by now.
    if n.get() >= survey.count() {
        return Err(WalkRefused::BadStore {
            block: n,
            why: Why::Reference,
        });
    }
    let block = survey.read(n)?;
    match decode_page(&block) {
        Ok(page) => Ok(befores_of(&page.refs)),
        Err(bad) => Err(WalkRefused::BadStore {
            block: n,
            why: bad.why,
        }),
    }
}

/// What the version before has at the slots of its page, which is not a root, where it has that page.
fn slot_befores<B: Blocks>(
    survey: &mut Survey<B>,
    before: &Before,
) -> Result<[Before; SLOTS], WalkRefused>
    ensures began { survey.new.began ≡ survey.old.began }
    ensures count { survey.new.count ≡ survey.old.count }
    ensures list { survey.new.list ≡ survey.old.list }
    ensures befores { IsTold B.Blocks survey.old → (nodes : Option (List Node)) (path : List ℕ)
        → BeforeLies (pages_of (B.content survey.old.began)) survey.old.count nodes
        → 1 ≤ length path
        → before_at nodes path ≡ before.now
        → Gets (is_past B.Blocks survey.new.store) (AreBefore nodes path) result }
    ensures unread { (h : Half) → IsErrOf result (WalkRefused.ReadFault h)
        → IsUnreadSince B.Blocks survey.new.began survey.new.store h }
{
    match before {
        Before::Page(n) => page_befores(survey, *n),
        Before::NoVersion => Ok(all_before(Before::NoVersion)),
        Before::NoPage => Ok(all_before(Before::NoPage)),
    }
}

/// A page of the version's own in this block, which the page in `namer` names, and all pages below it. It is so many levels
/// above the lowest. It stands apart from the slots that name none, since a function's locals are filled as it is entered.
#[cycle(pages)]
fn own_pages<B: Blocks>(
    survey: &mut Survey<B>,
    namer: BlockNo,
    n: BlockNo,
    before: &Before,
    depth: u8,
) -> Result<(), WalkRefused>
    requires { depth < 7 }
    ensures began { survey.new.began ≡ survey.old.began }
    ensures count { survey.new.count ≡ survey.old.count }
    ensures walk { IsTold B.Blocks survey.old → (nodes : Option (List Node)) (path : List ℕ)
        (reference : ReferenceValue)
        → BeforeLies (pages_of (B.content survey.old.began)) survey.old.count nodes
        → length path + depth ≡ 7
        → before_at nodes path ≡ before.now
        → ShowsNone (is_past B.Blocks survey.new.store) result
        (own_from (blocks_in B.content survey.old)
        (pages_below (blocks_in B.content survey.old) nodes depth) namer path reference n
        survey.old.list)
        survey.new.list }
    ensures unread { (h : Half) → IsErrOf result (WalkRefused.ReadFault h)
        → IsUnreadSince B.Blocks survey.new.began survey.new.store h }
{
    let page = page_at(survey, namer, n, 7 - depth)?;
    let befores = slot_befores(survey, before)?;
    pages_below(survey, n, &page.refs, &befores, depth)
}

/// A slot of the page in `namer`, and all pages below it. The page that it names is so many levels above the lowest.
#[cycle(pages)]
fn slot_pages<B: Blocks>(
    survey: &mut Survey<B>,
    namer: BlockNo,
    reference: &Reference,
    before: &Before,
    depth: u8,
) -> Result<(), WalkRefused>
    requires { depth < 7 }
    ensures began { survey.new.began ≡ survey.old.began }
    ensures count { survey.new.count ≡ survey.old.count }
    ensures walk { IsTold B.Blocks survey.old → (nodes : Option (List Node)) (path : List ℕ)
        → BeforeLies (pages_of (B.content survey.old.began)) survey.old.count nodes
        → length path + depth ≡ 7
        → before_at nodes path ≡ before.now
        → ShowsNone (is_past B.Blocks survey.new.store) result
        (slot_from (blocks_in B.content survey.old)
        (pages_below (blocks_in B.content survey.old) nodes depth) nodes namer path reference.now
        reference.now.block survey.old.list)
        survey.new.list }
    ensures unread { (h : Half) → IsErrOf result (WalkRefused.ReadFault h)
        → IsUnreadSince B.Blocks survey.new.began survey.new.store h }
{
    match own_block(namer, reference, before)? {
        None => Ok(()),
        Some(n) => own_pages(survey, namer, n, before, depth),
    }
}

/// The pages below one with these slots, so many levels deep at the most, slot by slot in the order of paths.
#[cycle(pages)]
pub fn pages_below<B: Blocks>(
    survey: &mut Survey<B>,
    namer: BlockNo,
    refs: &[Reference; SLOTS],
    befores: &[Before; SLOTS],
    depth: u8,
) -> Result<(), WalkRefused>
    requires { depth ≤ 7 }
    ensures began { survey.new.began ≡ survey.old.began }
    ensures count { survey.new.count ≡ survey.old.count }
    ensures walk { IsTold B.Blocks survey.old → (nodes : Option (List Node)) (path : List ℕ)
        → BeforeLies (pages_of (B.content survey.old.began)) survey.old.count nodes
        → length path + depth ≡ 7
        → AreBefore nodes path befores.now
        → ShowsNone (is_past B.Blocks survey.new.store) result
        (pages_below (blocks_in B.content survey.old) nodes depth namer path refs.now
        survey.old.list) survey.new.list }
    ensures unread { (h : Half) → IsErrOf result (WalkRefused.ReadFault h)
        → IsUnreadSince B.Blocks survey.new.began survey.new.store h }
{
    if depth == 0 {
        return Ok(());
    }
    'slots: for k in 0..SLOTS {
        slot_pages(survey, namer, &refs[k], &befores[k], depth - 1)?;
    }
    Ok(())
}
