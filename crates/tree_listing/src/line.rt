// The line of a page.
ghost use Rattle.std.specs.Prelude.{◌≡◌, ◌++◌, ◌<◌, ℕ, codes, IfOk, OnOk, OnErr};
ghost use Rattle.std.specs.String.{string_bytes};
ghost use Rattle.tree_listing.specs.TreeText.{data_word, page_line, path_text};

use afs_base::Path;
use std::alloc::{AllocError, AllocFailed, Global};
use std::fmt::Write;

/// The text of a path.
fn path_text(alloc: Global, path: &Path) -> Result<String, AllocError>
    ensures { IfOk result (λ text. string_bytes text ≡ path_text path.now) }
{
    let slots = path.as_slice();
    if slots.is_empty() {
        return String::from_str(alloc, "/");
    }
    let mut text = String::new(alloc);
    for slot in slots {
        let number = slot.get();
        write!(text, "/{number}")?;
    }
    Ok(text)
}

/// Bytes in lower-case hexadecimal, or `-` where there are none.
fn data_word(alloc: Global, bytes: &[u8]) -> Result<String, AllocError>
    ensures { IfOk result (λ text. string_bytes text ≡ data_word bytes.now) }
{
    if bytes.is_empty() {
        return String::from_str(alloc, "-");
    }
    hex::encode(alloc, bytes)
}

/// The line of a page, with its line feed.
fn page_line(alloc: Global, path: &Path, bytes: &[u8]) -> Result<String, AllocError>
    ensures { IfOk result (λ text. string_bytes text ≡ page_line path.now bytes.now) }
{
    let path = path_text(alloc, path)?;
    let data = data_word(alloc, bytes)?;
    format!(in alloc; "{path} {data}\n")
}

/// Appends the line of a page. Without memory for it nothing is appended.
pub fn append_line(
    alloc: Global,
    path: &Path,
    bytes: &[u8],
    out: &mut Vec<u8>,
) -> Result<(), AllocError>
    ensures line { OnOk result (out.new.items ≡ out.old.items ++ page_line path.now bytes.now) }
    ensures same { OnErr result (out.new.items ≡ out.old.items) }
{
    let line = page_line(alloc, path, bytes)?;
    out.extend_from_slice(line.as_bytes())
}
