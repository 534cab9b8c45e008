// What is counted of a store that was opened.
ghost use Rattle.std.specs.Prelude.{◌≡◌, ◌*◌, ◌^◌, ◌<◌, ◌≤◌, IfOk, string_bytes};
ghost use Rattle.std.specs.List.{list_any};
ghost use Rattle.page_codec.specs.Bounds.{has_generation};
ghost use Rattle.page_codec.specs.TableSpelling.{part_entries};
ghost use Rattle.store_commands.specs.Counting.{blocks_of_table, counted_text, head_kept, head_versions, heads_kept, heads_live, heads_versions, used_parts};

use afs_base::Head;
use page_codec::{PART_ENTRIES, Table, TableEntry};
use std::alloc::{AllocError, Global};

/// How many files there are.
fn count_live(heads: &[Option<Head>]) -> usize
    ensures { result ≡ heads_live heads.now }
{
    heads.iter().filter(|head| head.is_some()).count()
}

/// How many versions a file has.
fn head_versions(head: &Option<Head>) -> u128
    ensures value { result ≡ head_versions head.now }
    ensures most { result ≤ 2 ^ 64 }
{
    match head {
        Some(head) => u128::from(head.serial.saturating_sub(head.first)) + 1,
        None => 0,
    }
}

/// How many blocks its versions hold.
fn head_kept(head: &Option<Head>) -> u128
    ensures value { result ≡ head_kept head.now }
    ensures most { result < 2 ^ 32 }
{
    match head {
        Some(head) => u128::from(head.kept),
        None => 0,
    }
}

/// How many versions all files have.
fn count_versions(heads: &[Option<Head>]) -> u128
    ensures { result ≡ heads_versions heads.now }
{
    let mut versions = 0;
    for head in heads {
        versions += head_versions(head);
    }
    versions
}

/// How many blocks the versions of all files hold.
fn count_kept(heads: &[Option<Head>]) -> u128
    ensures { result ≡ heads_kept heads.now }
{
    let mut kept = 0;
    for head in heads {
        kept += head_kept(head);
    }
    kept
}

/// Whether one of the entries of part `j` of a table has a file, or had one.
fn is_used_part(entries: &[TableEntry], j: u8) -> bool
    ensures { result ≡ list_any has_generation (part_entries j entries.now) }
{
    let skipped = PART_ENTRIES * usize::from(j);
    let mut part = entries.iter().skip(skipped).take(PART_ENTRIES);
    part.any(|entry| entry.generation != 0)
}

/// How many parts of a table have a file, or had one.
fn count_parts(table: &Table) -> u8
    ensures value { result ≡ used_parts table.now }
    ensures most { result ≤ 64 }
{
    let entries = table.entries();
    let mut parts = 0;
    for j in 0..64u8 {
        parts += u8::from(is_used_part(entries, j));
    }
    parts
}

/// How many blocks the table has.
fn table_blocks(table: &Table) -> u128
    ensures { result ≡ blocks_of_table table.now }
{
    if table.format() == 1 {
        1
    } else {
        1 + u128::from(count_parts(table))
    }
}

/// The line with all counts.
pub(crate) fn counted_line(
    alloc: Global,
    table: &Table,
    heads: &[Option<Head>],
) -> Result<String, AllocError>
    ensures { IfOk result (λ line. string_bytes line ≡ counted_text table.now heads.now) }
{
    let files = count_live(heads);
    let versions = count_versions(heads);
    let kept = count_kept(heads);
    let free = u128::from(table.blocks())
        .saturating_sub(table_blocks(table))
        .saturating_sub(kept);
    format!(in alloc; "files {files} versions {versions} blocks {kept} free {free}\n")
}
