// Opening a store.
ghost use Rattle.std.specs.Prelude.{◌≡◌, ℕ, ◌<◌, ◌≤◌, [], Option, Some, length, slice_get, IfOk, IfErr};
ghost use Rattle.drives.specs.declared.device.Half.{Half};
ghost use Rattle.drives.specs.Changes.{Changes};
ghost use Rattle.store_model.specs.Found.{found, laid};
ghost use Rattle.afs_base.specs.declared.head.Head.{Head};
ghost use Rattle.recovery.specs.declared.refused.OpenRefused.{OpenRefused};
ghost use Rattle.recovery.specs.Halves.{OpensHalves};
ghost use Rattle.recovery.specs.Known.{Tells, why_of};
ghost use Rattle.recovery.specs.Rolling.{IsEdited, IsUnwritten, Rolling, Rolls};
ghost use Rattle.recovery.specs.Opening.{IsBad, IsFailed, IsNoStore, IsOpened, IsOpening, IsReadable, IsReadableAlways, SameBeside, SameFound, SinceMayBeEarlier, pair_result, store_of};

use crate::known::{Known, known_store};
use crate::mending::mend_all;
use crate::opened::{Opened, OpenedOver, Unopened, UnopenedOver};
use crate::refused::OpenRefused;
use crate::rolling::{Step, roll_forward};
use drives::Drives;
use pair_store::{Blocks, Pair};
use std::alloc::Global;

/// What was found, over the store.
fn opened_of<B>(store: B, known: Known, since: u64) -> OpenedOver<B>
    ensures store { result.store ≡ store }
    ensures told { Tells known result }
    ensures since { result.since ≡ since }
{
    let Known {
        table,
        map,
        chains: _,
        heads,
    } = known;
    OpenedOver {
        store,
        table,
        map,
        heads,
        since,
    }
}

/// A store that was checked, once its links are set and its members cleared.
fn rolled<B: Blocks>(store: B, known: Known, since: u64) -> Result<OpenedOver<B>, UnopenedOver<B>>
    ensures rolls { (most : ℕ) → Rolls B.Blocks most (IsEdited known)
        (Rolling Step.SetLinks most known 0)
        (Rolling Step.ClearMembers most known (length known.chains.items)) (why_of result) store
        (store_of result) }
    ensures told { IfOk result (Tells known) }
    ensures since { IfOk result (λ o. o.since ≡ since) }
{
    let mut store = store;
    match roll_forward(&mut store, &known) {
        Ok(()) => Ok(opened_of(store, known, since)),
        Err(why) => Err(UnopenedOver { store, why }),
    }
}

/// Opens a store of blocks whose blocks are settled: it is checked, and then the links that a
/// commit left outstanding are set, and after all of them the members of each last version are
/// cleared. The files that are found stay the same, whichever call fails and wherever a crash
/// falls, so it may be begun anew.
pub fn open_over<B: Blocks>(alloc: Global, store: B) -> Result<OpenedOver<B>, UnopenedOver<B>>
    // On every exit, whichever call failed.
    ensures same { IsReadable B.Blocks store
        → SameFound (B.size store) (B.content store) (B.content (store_of result)) }
    ensures images { IsReadableAlways B.Blocks store
        → Changes B.moment B.may_leave store (store_of result) (SameFound (B.size store)) }
    // Pages alone are written, whose links were outstanding or that named members.
    ensures others { IsReadable B.Blocks store
        → SameBeside (laid (B.content store) (B.size store) []) (B.content store)
        (B.content (store_of result)) }
    ensures images_others { IsReadable B.Blocks store
        → Changes B.moment B.may_leave store (store_of result)
        (SameBeside (laid (B.content store) (B.size store) [])) }
    ensures opened { IsReadable B.Blocks store
        → IfOk result (λ o. IsOpened (B.content o.store)
        (B.size store) o.table o.map o.heads.items) }
    ensures opening { IsReadableAlways B.Blocks store → IfOk result (IsOpening B.Blocks) }
    ensures bad { IsReadable B.Blocks store
        → IfErr result (λ e. IsBad (found (B.content store) (B.size store)) e.why) }
    ensures unread { (h : Half) → IfErr result (λ e. e.why ≡ OpenRefused.ReadFault h
        → IsFailed (B.faults store) (B.faults e.store) (B.last_fault e.store) (B.moment e.store)
        (IsReadable B.Blocks store → IsNoStore (B.content store) (B.size store)) h) }
    ensures unwritten { (h : Half) → IfErr result (λ e. e.why ≡ OpenRefused.WriteFault h
        → IsFailed (B.faults store) (B.faults e.store) (B.last_fault e.store)
        (B.moment e.store) ⊥ h) }
    ensures settled { IsReadable B.Blocks store
        → IfOk result (λ o. (n : ℕ) → n < length o.map → B.settled o.store n) }
    ensures settled_always { IsReadableAlways B.Blocks store
        → IfOk result (λ o. (n : ℕ) → n < length o.map → B.settled_always o.store n) }
    ensures rest { B.tells → B.rest store → IsUnwritten (why_of result) → B.rest (store_of result) }

    // These hold whether or not the contents are told.
    ensures fits { IfOk result (λ o. length o.map ≤ B.size store) }
    ensures within { IfOk result (λ o. (k : ℕ) (head : Head)
        → slice_get o.heads.items k ≡ Some (Some head)
        → head.block < B.size store) }
    ensures even { IfOk result (λ o. length o.heads.items ≡ length o.table.entries) }
    ensures since { IfOk result (λ o. o.since ≡ B.moment store) }
    ensures later { (h : Half) → (B.faults store h ≤ B.faults (store_of result) h)
        × (B.last_fault store h ≤ B.last_fault (store_of result) h) }
    ensures size { B.size (store_of result) ≡ B.size store }
{
    let since = store.now();
    let (store, known) = known_store(alloc, store);
    match known {
        Ok(known) => rolled(store, known, since),
        Err(why) => Err(UnopenedOver { store, why }),
    }
}

/// Runs nothing. Its contract: what an opening left is so too with an earlier moment `since`, where
/// each crash between the two leaves the files that are found now.
pub fn since_law<B: Blocks>()
    ensures { SinceMayBeEarlier B.Blocks }
{}

/// What an opening over two halves came to, with its drives.
fn on_halves<V: Drives>(
    over: Result<OpenedOver<Pair<V>>, UnopenedOver<Pair<V>>>,
    since: u64,
) -> Result<Opened<V>, Unopened<V>>
    ensures { result ≡ pair_result over since }
{
    match over {
        Ok(opened) => {
            let OpenedOver {
                store,
                table,
                map,
                heads,
                since: _,
            } = opened;
            Ok(Opened {
                pair: store,
                table,
                map,
                heads,
                since,
            })
        }
        Err(unopened) => {
            let UnopenedOver { store, why } = unopened;
            Err(Unopened {
                drives: store.into_drives(),
                why,
            })
        }
    }
}

/// Opens the store on a pair of halves, begun at the moment `since`.
fn open_pair<V: Drives>(alloc: Global, pair: Pair<V>, since: u64) -> Result<Opened<V>, Unopened<V>>
    requires { since ≡ V.moment pair.drives }
    ensures { OpensHalves V.Drives ⟦<Pair<V> as Blocks>⟧ pair.drives result }
{
    let mut pair = pair;
    match mend_all(&mut pair) {
        Ok(()) => on_halves(open_over(alloc, pair), since),
        Err(fault) => Err(Unopened {
            drives: pair.into_drives(),
            why: OpenRefused::from(fault),
        }),
    }
}

/// Opens the store on two halves: all its blocks are mended and checked, and then the links that a
/// commit left outstanding are set. The files that are found stay the same, whichever call fails
/// and wherever a crash falls, so it may be begun anew. Where there is no store, or a half fails,
/// or there is not enough memory, the drives come back.
pub fn open<V: Drives>(alloc: Global, drives: V) -> Result<Opened<V>, Unopened<V>>
    ensures { OpensHalves V.Drives ⟦<Pair<V> as Blocks>⟧ drives result }
{
    let since = drives.now();
    open_pair(alloc, Pair::over(drives), since)
}
