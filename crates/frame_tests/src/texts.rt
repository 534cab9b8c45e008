//! Paths and steps as texts.
use afs_base::{PageData, Path, Slot};
use tree_model::{Child, Step};

/// The path that a text as `/0/12` names.
pub fn path(text: &str) -> Option<Path> {
    let mut path = Path::root();
    for word in text.split('/') {
        if !word.is_empty() {
            let number = word.parse::<u8>().ok()?;
            path = path.child(Slot::of(number).ok()?).ok()?;
        }
    }
    Some(path)
}

/// The step that a text as `make /0/12` or `write /0 data` names.
pub fn step(text: &str) -> Option<Step> {
    let (word, rest) = text.split_once(' ')?;
    let (place, data) = rest.split_once(' ').unwrap_or((rest, ""));
    let at = path(place)?;
    match word {
        "read" => Some(Step::ReadAt { at }),
        "list" => Some(Step::ListAt { at }),
        "write" => write(at, data),
        "make" => Some(Step::MakeAt {
            at: Child::of(&at)?,
        }),
        "drop" => Some(Step::DropAt {
            at: Child::of(&at)?,
        }),
        _ => None,
    }
}

fn write(at: Path, data: &str) -> Option<Step> {
    let data = data.as_bytes();
    if data.len() > 800 {
        return None;
    }
    Some(Step::WriteAt {
        at,
        bytes: PageData::of(data),
    })
}
