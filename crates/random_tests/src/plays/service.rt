//! The plain program: what the files of a store are, and what each line of a play answers.
use super::drafts::{Draft, Places, Tree};
use super::lines::{Answer, Line, NO_DATA, Step, put_answer, put_data};
use super::paths::{Path, put_path};
use super::tally::Tally;
use std::alloc::{AllocError, Global};
use std::collections::{BTreeMap, BTreeSet};

/// How many steps an update has at most.
const STEPS: usize = 128;

/// A committed version.
#[derive(Drop)]
struct Version {
    serial: u64,
    tree: Tree,
    /// What its update is seen to have written.
    visible: Places,
    /// How many blocks are its own.
    blocks: usize,
}

/// An open update of a file.
#[derive(Drop)]
struct Update {
    file: usize,
    base: u64,
    steps: Vec<(Step, Path)>,
    draft: Draft,
}

/// A client: its number, its script, how many of its lines are done, its open update and its answers.
#[derive(Drop)]
pub struct Client {
    number: usize,
    lines: Vec<Line>,
    done: usize,
    update: Option<Update>,
    answers: String,
}

/// A store: its blocks and the versions of its files, file 1 and the oldest version first.
#[derive(Drop)]
pub struct Service {
    alloc: Global,
    blocks: usize,
    files: Vec<Vec<Version>>,
    /// How often each answer came.
    pub tally: Tally,
}

/// The version of a new file.
fn first_version(alloc: Global) -> Result<Version, AllocError> {
    let mut tree = BTreeMap::new(alloc);
    tree.insert(Path::ROOT, NO_DATA)?;
    Ok(Version {
        serial: 1,
        tree,
        visible: BTreeSet::new(alloc),
        blocks: 1,
    })
}

/// How many blocks are some versions' own.
fn blocks_of(versions: &[Version]) -> usize {
    let mut blocks = 0usize;
    for version in versions {
        blocks = blocks.saturating_add(version.blocks);
    }
    blocks
}

/// What steps do on a tree.
fn replayed(alloc: Global, tree: &Tree, steps: &[(Step, Path)]) -> Result<Draft, AllocError> {
    let mut draft = Draft::on(alloc, tree)?;
    for (step, at) in steps {
        draft.step(*step, *at)?;
    }
    Ok(draft)
}

/// The version that a draft on a version makes.
fn next_version(alloc: Global, serial: u64, draft: Draft) -> Result<Version, AllocError> {
    let visible = draft.visible(alloc)?;
    let blocks = draft.fresh();
    Ok(Version {
        serial,
        tree: draft.tree,
        visible,
        blocks,
    })
}

/// Does a step of the update that is open.
fn step_on(client: &mut Client, step: Step, at: Path) -> Result<Answer, AllocError> {
    let Some(update) = &mut client.update else {
        return Ok(Answer::Idle);
    };
    if update.steps.len() >= STEPS {
        return Ok(Answer::Full);
    }
    update.steps.push((step, at))?;
    update.draft.step(step, at)
}

fn abandon(client: &mut Client) -> Answer {
    match client.update.take() {
        Some(_) => Answer::Abandoned,
        None => Answer::Idle,
    }
}

/// Writes the line of a file behind a text: its number, and the serials of its versions.
fn put_file(text: &mut String, file: usize, versions: &[Version]) -> Result<(), AllocError> {
    write!(text, "file {file}:")?;
    for version in versions {
        let serial = version.serial;
        write!(text, " {serial}")?;
    }
    text.push_str("\n")
}

/// Writes the pages of a tree behind a text.
fn put_tree(text: &mut String, tree: &Tree) -> Result<(), AllocError> {
    for (at, data) in tree.iter() {
        put_path(text, at)?;
        text.push_str(" ")?;
        put_data(text, data)?;
        text.push_str("\n")?;
    }
    Ok(())
}

impl Client {
    pub fn of(alloc: Global, number: usize, lines: Vec<Line>) -> Client {
        Client {
            number,
            lines,
            done: 0,
            update: None,
            answers: String::new(alloc),
        }
    }

    pub fn lines(&self) -> &[Line] {
        self.lines.as_slice()
    }

    /// Writes the answer to the line that was done last.
    fn put(&mut self, answer: &Answer) -> Result<(), AllocError> {
        let number = self.number;
        let done = self.done;
        write!(self.answers, "{number}.{done} ")?;
        put_answer(&mut self.answers, answer)?;
        self.answers.push_str("\n")
    }
}

impl Service {
    /// A new store.
    pub fn new(alloc: Global, blocks: usize, files: usize) -> Result<Service, AllocError> {
        let mut all = Vec::new(alloc);
        for _ in 0..files {
            let mut versions = Vec::new(alloc);
            versions.push(first_version(alloc)?)?;
            all.push(versions)?;
        }
        Ok(Service {
            alloc,
            blocks,
            files: all,
            tally: Tally::new(),
        })
    }

    /// The versions of a file; none where there is no such file.
    fn versions(&self, file: usize) -> &[Version] {
        match file.checked_sub(1).and_then(|place| self.files.get(place)) {
            Some(versions) => versions.as_slice(),
            None => &[],
        }
    }

    /// How many blocks neither the table nor a version has.
    fn free(&self) -> usize {
        let mut used = 1usize;
        for versions in self.files.iter() {
            used = used.saturating_add(blocks_of(versions.as_slice()));
        }
        self.blocks.saturating_sub(used)
    }

    fn begin(&self, client: &mut Client, file: usize) -> Result<Answer, AllocError> {
        if client.update.is_some() {
            return Ok(Answer::Open);
        }
        let Some(version) = self.versions(file).last() else {
            return Ok(Answer::Denied);
        };
        client.update = Some(Update {
            file,
            base: version.serial,
            steps: Vec::new(self.alloc),
            draft: Draft::on(self.alloc, &version.tree)?,
        });
        Ok(Answer::Base(version.serial))
    }

    /// The first version after an update's base that wrote what the update read, and the least such place.
    fn conflict(&self, update: &Update) -> Option<Answer> {
        for version in self.versions(update.file) {
            if version.serial > update.base {
                if let Some(place) = update.draft.clash(&version.visible) {
                    return Some(Answer::Conflict(version.serial, place));
                }
            }
        }
        None
    }

    /// Appends the version that an update's steps make of the last version, where there is room for it.
    fn append(&mut self, update: &Update) -> Result<Answer, AllocError> {
        let free = self.free();
        let Some(last) = self.versions(update.file).last() else {
            return Ok(Answer::Denied);
        };
        let serial = last.serial.saturating_add(1);
        let draft = replayed(self.alloc, &last.tree, update.steps.as_slice())?;
        let version = next_version(self.alloc, serial, draft)?;
        if free < version.blocks {
            return Ok(Answer::NoSpace(version.blocks, free));
        }
        if let Some(versions) = self.files.get_mut(update.file.saturating_sub(1)) {
            versions.push(version)?;
        }
        Ok(Answer::Committed(serial, update.base))
    }

    fn commit(&mut self, client: &mut Client) -> Result<Answer, AllocError> {
        let Some(update) = client.update.take() else {
            return Ok(Answer::Idle);
        };
        if update.draft.writes.is_empty() {
            return Ok(Answer::Committed(update.base, update.base));
        }
        match self.conflict(&update) {
            Some(answer) => Ok(answer),
            None => self.append(&update),
        }
    }

    /// Does a line.
    fn answer(&mut self, client: &mut Client, line: Line) -> Result<Option<Answer>, AllocError> {
        Ok(match line {
            Line::Note => None,
            Line::Begin(file) => Some(self.begin(client, file)?),
            Line::Do(step, at) => Some(step_on(client, step, at)?),
            Line::Commit => Some(self.commit(client)?),
            Line::Abandon => Some(abandon(client)),
        })
    }

    /// Takes a client to its next answer, if any.
    fn go_on(&mut self, client: &mut Client) -> Result<(), AllocError> {
        for _ in client.done..client.lines.len() {
            let Some(line) = client.lines.get(client.done).copied() else {
                return Ok(());
            };
            client.done = client.done.saturating_add(1);
            if let Some(answer) = self.answer(client, line)? {
                self.tally.note(&answer);
                return client.put(&answer);
            }
        }
        Ok(())
    }

    /// Takes a client to its end.
    fn go_to_end(&mut self, client: &mut Client) -> Result<(), AllocError> {
        for _ in client.done..client.lines.len() {
            self.go_on(client)?;
        }
        Ok(())
    }

    /// Plays the scripts of clients: each word of the order takes its client to the next answer, then all go to their ends.
    pub fn play(&mut self, clients: &mut [Client], order: &[u8]) -> Result<(), AllocError> {
        for word in order {
            if let Some(client) = clients.get_mut((*word as usize).saturating_sub(1)) {
                self.go_on(client)?;
            }
        }
        for client in clients.iter_mut() {
            self.go_to_end(client)?;
        }
        Ok(())
    }

    /// What a play prints: the answers, client by client, and a line for each file.
    pub fn played(&self, clients: &[Client]) -> Result<String, AllocError> {
        let mut text = String::new(self.alloc);
        for client in clients {
            text.push_str(client.answers.as_str())?;
        }
        for (place, versions) in self.files.iter().enumerate() {
            put_file(&mut text, place.saturating_add(1), versions.as_slice())?;
        }
        Ok(text)
    }

    /// What `check` prints: how many files and versions there are, how many blocks these have, and how many nobody has.
    pub fn checked(&self) -> Result<String, AllocError> {
        let alloc = self.alloc;
        let files = self.files.len();
        let mut versions = 0usize;
        for file in self.files.iter() {
            versions = versions.saturating_add(file.len());
        }
        let free = self.free();
        let blocks = self.blocks.saturating_sub(free.saturating_add(1));
        format!(in alloc; "files {files} versions {versions} blocks {blocks} free {free}\n")
    }

    /// What `show` prints: each file's line, and the pages of its last version.
    pub fn shown(&self) -> Result<String, AllocError> {
        let mut text = String::new(self.alloc);
        for (place, versions) in self.files.iter().enumerate() {
            put_file(&mut text, place.saturating_add(1), versions.as_slice())?;
            if let Some(last) = versions.last() {
                put_tree(&mut text, &last.tree)?;
            }
        }
        Ok(text)
    }
}
