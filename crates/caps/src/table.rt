ghost use Rattle.std.specs.Prelude.{◌≡◌, MatchResult, Ok, Err};
ghost use Rattle.std.specs.Option.{option_map};
ghost use Rattle.caps.specs.Grant.{capability_of};
ghost use Rattle.caps.specs.Tables.{entry_seal, seal_of, table_grant, table_restrict};

use crate::capability::Capability;
use crate::denied::Denied;
use crate::seal::{Seal, granted, restricted};
use page_codec::{Table, TableEntry};

/// The seal of an entry's object, where that is live.
fn entry_seal(entry: &TableEntry) -> Option<Seal>
    ensures { result ≡ entry_seal entry.now }
{
    match entry.first {
        Some(_) => Some(Seal::of(entry.secret, entry.generation)),
        None => None,
    }
}

/// The seal of an object, counted from 1, where it is live.
fn seal_of(table: &Table, object: u32) -> Option<Seal>
    ensures { result ≡ seal_of table.now object }
{
    let entries = table.entries();
    let at = object as usize;
    if at == 0 || at > entries.len() {
        return None;
    }
    entry_seal(&entries[at - 1])
}

/// The capability of an object, counted from 1, with these rights; none exactly where the object is not live.
pub fn mint(table: &Table, object: u32, rights: u8) -> Option<Capability>
    ensures { result
        ≡ option_map (λ seal. capability_of seal object rights) (seal_of table.now object) }
{
    let seal = seal_of(table, object)?;
    Some(seal.capability(object, rights))
}

/// The object that a capability grants for a need, which is a mask of rights; or the first cause for which it does not:
/// `NoObject`, `Check`, `Rights`.
pub fn grant(table: &Table, cap: &Capability, need: u8) -> Result<u32, Denied>
    ensures { MatchResult result
        (λ object. table_grant table.now cap.now need ≡ Ok object)
        (λ e. table_grant table.now cap.now need ≡ Err e.why) }
{
    granted(&seal_of(table, cap.object()), cap, need).map_err(|why| Denied { why })
}

/// The capability of the same object with the rights that both it and the mask have; or the first cause for which there is
/// none: `NoObject`, `Check`.
pub fn restrict(table: &Table, cap: &Capability, mask: u8) -> Result<Capability, Denied>
    ensures { MatchResult result
        (λ less. table_restrict table.now cap.now mask ≡ Ok less)
        (λ e. table_restrict table.now cap.now mask ≡ Err e.why) }
{
    restricted(&seal_of(table, cap.object()), cap, mask).map_err(|why| Denied { why })
}
