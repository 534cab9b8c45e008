// A list of blocks that only clauses see. It takes no memory.
ghost use Rattle.std.specs.Prelude.{◌≡◌, [], ◌∷◌};

use afs_base::BlockNo;
use std::marker::Model;
use std::snapshot::Snapshot;

/// A list of blocks, the newest first.
#[cycle(listed)]
#[derive(Drop)]
pub struct Listed {
    top: Link,
}

#[cycle(listed)]
#[derive(Drop)]
enum Link {
    End,
    More(Snapshot<BlockNo>, Snapshot<Listed>),
}

impl Model for Listed {
    ghost use Rattle.std.specs.Prelude.{List, ℕ, length};

    ghost Value = { List ℕ };

    ghost use Rattle.store_check.specs.Listed.{links};

    ghost view = { λ r. links r.top };

    ghost size = { length };

    ghost use Rattle.std.proofs.Common.{arith};

    ghost size_decreases = { λ a h. Prim.grind arith };
}

impl Listed {
    /// No blocks.
    pub fn nothing() -> Listed
        ensures { result ≡ [] }
    {
        Listed { top: Link::End }
    }

    /// Lists one more block.
    pub fn push(&mut self, block: BlockNo)
        ensures { self.new ≡ block ∷ self.old }
    {
        let earlier = Snapshot::of(self);
        self.top = Link::More(Snapshot::of(&block), earlier);
    }
}
