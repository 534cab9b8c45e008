// What an opening gives, and what comes back where there is none.
ghost use Rattle.std.specs.Prelude.{◌≡◌};

use crate::refused::OpenRefused;
use afs_base::Head;
use block_map::BlockMap;
use page_codec::Table;
use pair_store::Pair;

/// A store that was opened on two halves: its table, which of its blocks are in use, and what is
/// known of the versions of each object, where it is live. The moment `since` is that at which the
/// opening began. Where nothing was pending then, each crash from that moment on leaves the files
/// that were found.
#[derive(Drop)]
pub struct Opened<V> {
    pub pair: Pair<V>,
    pub table: Table,
    pub map: BlockMap,
    pub heads: Vec<Option<Head>>,
    pub since: u64,
}

/// Why two halves were not opened, and their drives.
#[derive(Drop)]
pub struct Unopened<V> {
    pub drives: V,
    pub why: OpenRefused,
}

impl<V> Opened<V> {
    ghost use Rattle.recovery.specs.Opening.{over_of};

    /// The same store, over the pair of its halves.
    pub fn over(self) -> OpenedOver<Pair<V>>
        ensures { result ≡ over_of self }
    {
        let Opened {
            pair,
            table,
            map,
            heads,
            since,
        } = self;
        OpenedOver {
            store: pair,
            table,
            map,
            heads,
            since,
        }
    }
}

/// The same as `Opened`, over any store of blocks. Where all of them were settled in everything
/// that a crash might have left as the opening began, each crash from the moment `since` on leaves
/// the files that were found.
#[derive(Drop)]
pub struct OpenedOver<B> {
    pub store: B,
    pub table: Table,
    pub map: BlockMap,
    pub heads: Vec<Option<Head>>,
    pub since: u64,
}

/// Why a store of blocks was not opened, and that store.
#[derive(Drop)]
pub struct UnopenedOver<B> {
    pub store: B,
    pub why: OpenRefused,
}
