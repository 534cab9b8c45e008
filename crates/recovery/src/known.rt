// What is known of a store before a link is set.
ghost use Rattle.std.specs.Prelude.{◌≡◌, ℕ, ◌<◌, ◌≤◌, List, Option, Some, option_map, length, slice_get, [], IsOk, IsErrOf, IfOk, IfErr};
ghost use Rattle.drives.specs.declared.device.Half.{Half};
ghost use Rattle.store_model.specs.Found.{laid};
ghost use Rattle.store_check.specs.declared.chain.FoundFile.{FoundFile};
ghost use Rattle.store_check.specs.Since.{OnlyRead};
ghost use Rattle.afs_base.specs.declared.head.Head.{Head};
ghost use Rattle.recovery.specs.declared.refused.OpenRefused.{OpenRefused};
ghost use Rattle.recovery.specs.Opening.{IsFailed, IsNoStore, IsReadable};
ghost use Rattle.recovery.specs.Known.{IsNoFault, Knows, head_from, heads_from};

use crate::refused::OpenRefused;
use afs_base::Head;
use block_map::BlockMap;
use page_codec::{Table, Why};
use pair_store::Blocks;
use std::alloc::Global;
use store_check::{Checked, FoundFile, check};

/// A lawful store: its table, which blocks are in use, what is kept of the file of each object
/// where it is live, and what is told of it.
#[derive(Drop)]
pub struct Known {
    pub table: Table,
    pub map: BlockMap,
    pub chains: Vec<Option<FoundFile>>,
    pub heads: Vec<Option<Head>>,
}

/// What is told of a file whose last version is in a block of a store of so many blocks. Where
/// contents are told it is in one.
fn head_in(chain: &Option<FoundFile>, blocks: u32) -> Result<Option<Head>, OpenRefused>
    ensures value { IfOk result (λ head. head ≡ option_map head_from chain.now) }
    ensures within { (head : Head) → IfOk result (λ told. told ≡ Some head → head.block < blocks) }
    ensures fits { ((kept : FoundFile) → chain.now ≡ Some kept → kept.last.block < blocks)
        → IsOk result }
    ensures only { IfErr result IsNoFault }
{
    match chain {
        None => Ok(None),
        Some(chain) => {
            let block = chain.last.block;
            if block.get() >= blocks {
                return Err(OpenRefused::BadStore {
                    block,
                    why: Why::Reference,
                });
            }
            Ok(Some(Head {
                block,
                first: chain.first,
                serial: chain.last.serial,
                kept: chain.kept,
            }))
        }
    }
}

/// What is told of the file of object `i`, counted from 0.
fn head_at(chains: &[Option<FoundFile>], i: usize, blocks: u32) -> Result<Option<Head>, OpenRefused>
    ensures value { i < length chains.now → IfOk result
        (λ head. slice_get (heads_from chains.now) i ≡ Some head) }
    ensures within { (head : Head) → IfOk result (λ told. told ≡ Some head → head.block < blocks) }
    ensures fits { ((k : ℕ) (kept : FoundFile) → slice_get chains.now k ≡ Some (Some kept)
        → kept.last.block < blocks) → IsOk result }
    ensures only { IfErr result IsNoFault }
{
    if i < chains.len() {
        return head_in(&chains[i], blocks);
    }
    Ok(None)
}

/// What is told of the files of so many objects.
fn heads_in(
    alloc: Global,
    chains: &[Option<FoundFile>],
    count: usize,
    blocks: u32,
) -> Result<Vec<Option<Head>>, OpenRefused>
    ensures value { count ≡ length chains.now
        → IfOk result (λ heads. heads.items ≡ heads_from chains.now) }
    ensures even { IfOk result (λ heads. length heads.items ≡ count) }
    ensures within { IfOk result (λ heads. (k : ℕ) (head : Head)
        → slice_get heads.items k ≡ Some (Some head) → head.block < blocks) }
    ensures fits { ((k : ℕ) (kept : FoundFile) → slice_get chains.now k ≡ Some (Some kept)
        → kept.last.block < blocks)
        → IfErr result (λ e. e ≡ OpenRefused.Memory) }
    ensures only { IfErr result IsNoFault }
{
    let mut heads = Vec::new(alloc);
    'objects: for i in 0..count {
        let head = head_at(chains, i, blocks)?;
        heads.push(head)?;
    }
    Ok(heads)
}

/// What was checked, with what is told of the files.
fn known_of(checked: Checked, heads: Vec<Option<Head>>) -> Known
    ensures table { result.table ≡ checked.table }
    ensures map { result.map ≡ checked.map }
    ensures chains { result.chains ≡ checked.heads }
    ensures heads { result.heads ≡ heads }
{
    let Checked {
        table,
        map,
        heads: chains,
    } = checked;
    Known {
        table,
        map,
        chains,
        heads,
    }
}

/// Checks which files a store holds, and tells what is kept of them. It writes nothing.
pub fn known_store<B: Blocks>(alloc: Global, store: B) -> (B, Result<Known, OpenRefused>)
    ensures only { OnlyRead B.Blocks store result.0 }
    ensures answer { IsReadable B.Blocks store
        → Knows result.1 (laid (B.content store) (B.size store) []) }
    ensures unread { (h : Half) → IsErrOf result.1 (OpenRefused.ReadFault h)
        → IsFailed (B.faults store) (B.faults result.0) (B.last_fault result.0) (B.moment result.0)
        (IsReadable B.Blocks store → IsNoStore (B.content store) (B.size store)) h }
    ensures unwritten { (h : Half) → IsErrOf result.1 (OpenRefused.WriteFault h) → ⊥ }
    ensures fits { IfOk result.1 (λ known. length known.map ≤ B.size store) }
    ensures within { IfOk result.1 (λ known. (k : ℕ) (head : Head)
        → slice_get known.heads.items k ≡ Some (Some head) → head.block < B.size store) }
    ensures even { IfOk result.1 (λ known. length known.heads.items ≡ length known.table.entries) }
{
    let (store, checked) = check(alloc, store);
    let blocks = store.blocks();
    match checked {
        Err(refused) => (store, Err(OpenRefused::from(refused))),
        Ok(checked) => {
            let objects = checked.table.entries().len();
            match heads_in(alloc, checked.heads.as_slice(), objects, blocks) {
                Err(why) => (store, Err(why)),
                Ok(heads) => (store, Ok(known_of(checked, heads))),
            }
        }
    }
}
