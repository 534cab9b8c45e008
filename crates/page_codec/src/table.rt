ghost use Rattle.std.specs.Prelude.{◌≡◌, ℕ, ◌-◌, ◌*◌, ◌<◌, ◌≤◌, List, length, true, set, Some, if◌then◌else◌, nat_eq, IfOk, IfSome};
ghost use Rattle.std.specs.List.{list_any};
ghost use Rattle.page_codec.specs.Blank.{no_entries};
ghost use Rattle.page_codec.specs.Bounds.{IsPart, IsPartBelow, IsFirstBelow, IsRoot, IsSoundTable, has_generation};
ghost use Rattle.page_codec.specs.TableSpelling.{root_bytes, root_in, part_bytes, part_entries};

use crate::Block;
use crate::entry::TableEntry;
use crate::root::{TableRoot, no_parts};
use crate::table_bytes::{encode_entries, put_head, put_rest};
use afs_base::{
    BlockNo, MAX_BLOCKS, MAX_OBJECTS, MIN_BLOCKS, Memory, PART_ENTRIES, PARTS, ROOT_ENTRIES,
};
use std::alloc::{AllocError, Global};
use std::marker::Model;

/// A whole table: the format, 1 or 2; the number of blocks, 2 to 65,536; the key; the blocks of the parts, none in
/// format 1; and the entries of the objects from 1 on, sixty in format 1 and 4,032 in format 2.
#[derive(Debug, Drop)]
pub struct Table {
    format: u8,
    blocks: u32,
    key: u64,
    parts: [Option<BlockNo>; PARTS],
    entries: Vec<TableEntry>,
}

impl Model for Table {
    ghost use Rattle.page_codec.specs.Values.{TableValue};
    ghost use Rattle.page_codec.specs.Bounds.{IsSoundTable};

    ghost Value = { TableValue };

    ghost view = { λ t. record {
      format = t.format;
      blocks = t.blocks;
      key = t.key;
      parts = t.parts;
      entries = t.entries.items;
    } };

    ghost invariant = { λ t. IsSoundTable (record {
      format = t.format;
      blocks = t.blocks;
      key = t.key;
      parts = t.parts;
      entries = t.entries.items;
    }) };
}

/// So many entries where no file ever was.
#[tactic(auto, unfolding(crate::specs::Blank::no_entries))]
fn blank_entries(alloc: Global, count: usize) -> Result<Vec<TableEntry>, AllocError>
    ensures { IfOk result (λ v. v.items ≡ no_entries count) }
{
    vec![in alloc; TableEntry::none(); count]
}

impl Table {
    /// The table of this block 0: in format 2 with no entries yet, which its parts fill.
    pub fn of_root(alloc: Global, root: &TableRoot) -> Result<Table, Memory>
        ensures format { IfOk result (λ t. t.format ≡ root.now.format) }
        ensures blocks { IfOk result (λ t. t.blocks ≡ root.now.blocks) }
        ensures key { IfOk result (λ t. t.key ≡ root.now.key) }
        ensures parts { IfOk result (λ t. t.parts ≡ root.now.parts) }
        ensures entries { IfOk result (λ t. t.entries
            ≡ (if nat_eq root.now.format 1 then root.now.first else no_entries MAX_OBJECTS)) }
    {
        let entries = entries_of_root(alloc, root)?;
        Ok(Table {
            format: root.format,
            blocks: root.blocks,
            key: root.key,
            parts: copy_of(&root.parts),
            entries,
        })
    }

    /// The format, 1 or 2.
    pub fn format(&self) -> u8
        ensures value { result ≡ self.now.format }
        // What every table keeps.
        ensures sound { IsSoundTable self.now }
    {
        self.format
    }

    /// The number of blocks of the store, 2 to 65,536.
    pub fn blocks(&self) -> u32
        ensures value { result ≡ self.now.blocks }
        ensures least { MIN_BLOCKS ≤ result }
        ensures most { result ≤ MAX_BLOCKS }
    {
        self.blocks
    }

    /// The store's key, from which the secrets are made.
    pub fn key(&self) -> u64
        ensures { result ≡ self.now.key }
    {
        self.key
    }

    /// The entries of the objects from 1 on: sixty in format 1, and 4,032 in format 2.
    pub fn entries(&self) -> &[TableEntry]
        ensures value { result.now ≡ self.now.entries }
        ensures one { self.now.format ≡ 1 → length result.now ≡ ROOT_ENTRIES }
        ensures two { self.now.format ≡ 2 → length result.now ≡ MAX_OBJECTS }
    {
        self.entries.as_slice()
    }

    /// Sets the entry of an object, counted from 1; in format 1 its first block is one of the store's.
    pub fn set_entry(&mut self, object: usize, entry: TableEntry)
        requires low { 1 ≤ object }
        requires high { object ≤ length self.old.entries }
        requires near { self.old.format ≡ 1 → IsFirstBelow self.old.blocks entry }
        ensures { self.new ≡ record self.old { entries = set self.old.entries (object - 1) entry } }
    {
        self.entries[object - 1] = entry;
    }

    /// Sets the block of part j in format 2: a block of the store that is not block 0.
    pub fn set_part(&mut self, j: usize, part: BlockNo)
        requires index { j < PARTS }
        requires two { self.old.format ≡ 2 }
        requires named { 1 ≤ part }
        requires near { part < self.old.blocks }
        ensures { self.new ≡ record self.old { parts = set self.old.parts j (Some part) } }
    {
        self.parts[j] = Some(part);
    }

    /// The entries of part j in format 2.
    fn entries_of(&self, j: u8) -> &[TableEntry]
        requires below { j < PARTS }
        requires two { self.now.format ≡ 2 }
        ensures entries { result.now ≡ part_entries j self.now.entries }
        ensures count { length result.now ≡ PART_ENTRIES }
    {
        let (_, rest) = self.entries.as_slice().split_at(PART_ENTRIES * j as usize);
        let (entries, _) = rest.split_at(PART_ENTRIES);
        entries
    }

    /// Whether one of the files of part j is there, or was: then the table has that part.
    pub fn is_used_part(&self, j: u8) -> bool
        requires below { j < PARTS }
        requires two { self.now.format ≡ 2 }
        ensures { result ≡ list_any has_generation (part_entries j self.now.entries) }
    {
        self.entries_of(j).iter().any(|entry| entry.generation != 0)
    }

    /// The blocks of the sixty-four parts, 0 to 63; none in format 1.
    pub fn parts(&self) -> &[Option<BlockNo>]
        ensures value { result.now ≡ self.now.parts }
        ensures count { length result.now ≡ PARTS }
    {
        &self.parts
    }
}

fn copy_of(parts: &[Option<BlockNo>; PARTS]) -> [Option<BlockNo>; PARTS]
    ensures { result ≡ parts.now }
{
    let mut copy = no_parts();
    copy.copy_from_slice(parts);
    copy
}

/// The entries of the table of this block 0.
fn entries_of_root(alloc: Global, root: &TableRoot) -> Result<Vec<TableEntry>, AllocError>
    ensures items { IfOk result (λ v. v.items
        ≡ (if nat_eq root.now.format 1 then root.now.first else no_entries MAX_OBJECTS)) }
    ensures sixty { IfOk result (λ v. root.now.format ≡ 1 → length v.items ≡ ROOT_ENTRIES) }
{
    if root.format == 1 {
        Vec::from_slice(alloc, &root.first)
    } else {
        blank_entries(alloc, MAX_OBJECTS as usize)
    }
}

/// Writes the one spelling of block 0 of the table into all of the block.
#[tactic(auto, unfolding(crate::specs::TableSpelling::root_bytes))]
pub fn encode_table(table: &Table, into: &mut Block)
    ensures bytes { into.new ≡ root_bytes (root_in table.now) }
    ensures spelled { IsRoot (root_in table.now) }
{
    let next = put_head(into, table.format, table.blocks, table.key);
    put_rest(
        into,
        next,
        table.format,
        &table.parts,
        table.entries.as_slice(),
    );
}

/// Writes the one spelling of part j of a table of format 2 into all of the block; one of its files is there, or was.
pub fn encode_part(table: &Table, j: u8, into: &mut Block)
    requires below { j < PARTS }
    requires two { table.now.format ≡ 2 }
    requires used { list_any has_generation (part_entries j table.now.entries) ≡ true }
    ensures bytes { into.new ≡ part_bytes j (part_entries j table.now.entries) }
    ensures spelled { IsPart (part_entries j table.now.entries) }
{
    encode_entries(j, table.entries_of(j), into);
}
