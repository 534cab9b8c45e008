ghost use Rattle.std.specs.Prelude.{◌≡◌, ◌≢◌, ◌<◌, ◌∷◌, [], length, slice_index, find, option_map};
ghost use Rattle.std.specs.Prelude.{MatchOption, MatchResult, IfOk, OnOk, Some};
ghost use Rattle.session.specs.Names.{HasNoHead, IsAllowed, IsBarred, IsDenied, IsGranted};
ghost use Rattle.session.specs.Names.{IsHead, is_others};
ghost use Rattle.session.specs.Answers.{NotesAlone};
ghost use Rattle.session.specs.Reads.{IsAnything, IsPageOf, IsVersionOf, stopped_by};
ghost use Rattle.session.specs.Reads.{ReadCall, WriteCall};
ghost use Rattle.session.specs.Shared.{entries_of, room_of};
ghost use Rattle.service_model.specs.Causes.{object_of, rights_by};
ghost use Rattle.super_files.specs.Locks.{Holds, IsOpenTo};

// What the clients of a run share.

use crate::log::Log;
use crate::turned::Fault;
use afs_base::{BlockNo, ClientNo, Head};
use block_map::BlockMap;
use caps::{Denied, DeniedWhy, grant};
use page_codec::{Block, Page, Table, VersionPage, Why, decode_page, decode_version};
use pair_store::{Blocks, PairFault};
use script_text::FileName;
use service_model::{Entry, What};
use super_files::{Lock, Locks};

/// The right to read, which opening an update and its reads and lists need.
pub(crate) const READING: u8 = 1;

/// The right to write, which writes, makes and drops need.
pub(crate) const WRITING: u8 = 2;

/// All rights, which a number gives.
const ALL: u8 = 7;

/// What the clients of a run share: the store with the map of its blocks, the locks that stand, the
/// table, what is known of each file's versions, and what the run did so far.
#[derive(Drop)]
pub struct Common<B> {
    pub(crate) store: B,
    pub(crate) map: BlockMap,
    pub(crate) locks: Locks,
    pub(crate) table: Table,
    pub(crate) heads: Vec<Option<Head>>,
    pub(crate) log: Log,
}

/// What a name grants: the last version of a file, and the rights to it.
#[derive(Clone, Copy, Debug)]
pub(crate) struct Granted {
    pub head: Head,
    pub rights: u8,
}

/// Why a call on a block stops the run.
pub(crate) fn fault_of(fault: PairFault) -> Fault
    ensures { result ≡ stopped_by fault }
{
    match fault {
        PairFault::ReadFault { half } | PairFault::WriteFault { half } => Fault::Drive { half },
        PairFault::BothClosed { block } => Fault::Bad {
            block,
            why: Why::Closed,
        },
        PairFault::BadPage { block, why } => Fault::Bad { block, why },
    }
}

/// The client of the first lock on an object that is not this client's.
fn other_on(locks: &[Lock], client: ClientNo, object: u32) -> Option<ClientNo>
    ensures { result
        ≡ option_map (λ lock. lock.client) (find (is_others client object) locks.now) }
{
    locks
        .iter()
        .find(|lock| lock.object == object && lock.client != client)
        .map(|lock| lock.client)
}

impl<B: Blocks> Common<B> {
    /// What is known of the last version of an object, from 1, where it is live.
    pub(crate) fn head(&self, object: u32) -> Option<Head>
        ensures { MatchOption result (HasNoHead self.now.heads.items object)
            (λ head. IsHead self.now.heads.items object head) }
    {
        let place = (object as usize).checked_sub(1)?;
        *self.heads.get(place)?
    }

    /// The object and the rights that a name stands for, where the table is not in its way.
    fn named(&self, file: &FileName) -> Result<(u32, u8), Denied>
        ensures { MatchResult result
            (λ x. IsAllowed self.now.table file.now × (x.0 ≡ object_of file.now)
            × (x.1 ≡ rights_by file.now))
            (λ e. IsBarred self.now.table file.now e.why) }
    {
        match file {
            FileName::Number(object) => Ok((*object, ALL)),
            FileName::Cap(cap) => {
                let object = grant(&self.table, cap, READING)?;
                Ok((object, cap.rights()))
            }
        }
    }

    /// What a name grants to one who opens an update, or why it grants nothing.
    pub(crate) fn granted(&self, file: &FileName) -> Result<Granted, Denied>
        ensures { MatchResult result
            (λ g. IsGranted self.now.table self.now.heads.items file.now g)
            (λ e. IsDenied self.now.table self.now.heads.items file.now e.why) }
    {
        let (object, rights) = self.named(file)?;
        match self.head(object) {
            Some(head) => Ok(Granted { head, rights }),
            None => Err(Denied {
                why: DeniedWhy::NoObject,
            }),
        }
    }

    /// The other client that has a file locked.
    pub(crate) fn locked_by(&self, client: ClientNo, object: u32) -> Option<ClientNo>
        ensures { MatchOption result (IsOpenTo client object self.now.locks)
            (λ by. (by ≢ client) × Holds by object self.now.locks) }
    {
        other_on(self.locks.as_slice(), client, object)
    }

    /// Notes an entry, in room that was made before.
    pub(crate) fn note(&mut self, client: ClientNo, line: u32, what: What)
        requires { length (entries_of self.old) < room_of self.old }
        ensures { NotesAlone self.old self.new
            (record { client = client; line = line; what = what } ∷ []) }
    {
        self.log.note(Entry { client, line, what });
    }

    /// Reads a block, which has to be one of the store.
    fn read(&mut self, n: BlockNo, into: &mut Block) -> Result<(), Fault>
        ensures given { B.tells → B.settled self.old.store n
            → OnOk result (B.content self.old.store n ≡ Some into.new) }
        ensures read { ReadCall B.Blocks IsAnything self.old self.new n result }
    {
        if n.get() >= self.store.blocks() {
            return Err(Fault::Bad {
                block: n,
                why: Why::Reference,
            });
        }
        match self.store.read(n, into) {
            Ok(()) => Ok(()),
            Err(fault) => Err(fault_of(fault)),
        }
    }

    /// Reads the page below `/` that has this level in a block.
    pub(crate) fn read_page(&mut self, n: BlockNo, level: usize) -> Result<Page, Fault>
        ensures level { IfOk result (λ page. page.level ≡ level) }
        ensures read { ReadCall B.Blocks (IsPageOf level) self.old self.new n result }
    {
        let mut block = [0; 1024];
        self.read(n, &mut block)?;
        match decode_page(&block) {
            Ok(page) if page.level as usize == level => Ok(page),
            Ok(_) => Err(Fault::Bad {
                block: n,
                why: Why::Level,
            }),
            Err(bad) => Err(Fault::Bad {
                block: n,
                why: bad.why,
            }),
        }
    }

    /// Reads the version page in a block.
    pub(crate) fn read_version(&mut self, n: BlockNo) -> Result<VersionPage, Fault>
        ensures { ReadCall B.Blocks IsVersionOf self.old self.new n result }
    {
        let mut block = [0; 1024];
        self.read(n, &mut block)?;
        match decode_version(&block) {
            Ok(version) => Ok(version),
            Err(bad) => Err(Fault::Bad {
                block: n,
                why: bad.why,
            }),
        }
    }

    /// Writes a block.
    pub(crate) fn write(&mut self, n: BlockNo, block: &Block) -> Result<(), Fault>
        requires block { n < B.size self.old.store }
        requires open { slice_index block.now 0 ≡ 165 }
        ensures { WriteCall B.Blocks self.old self.new n block.now result }
    {
        match self.store.write(n, block) {
            Ok(()) => Ok(()),
            Err(fault) => Err(fault_of(fault)),
        }
    }
}
