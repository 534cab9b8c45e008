ghost use Rattle.std.specs.Prelude.{◌≡◌, Some, IsSome};
ghost use Rattle.version_chain.specs.Chain.{Begins, ReadsOn, Ends};

use afs_base::BlockNo;
use page_codec::VersionPage;
use std::marker::Model;

/// A walk along the versions of a file, from its first one to its last, one page at a time.
#[derive(Clone, Copy, Debug)]
pub struct Chain {
    last: BlockNo,
    next: Option<BlockNo>,
}

impl Model for Chain {
    ghost use Rattle.version_chain.specs.Chain.{Followed};

    ghost Value = { Followed };

    ghost view = { λ c. record { last = c.last; next = c.next } };

    ghost inverse = { λ f. record { last = f.last; next = f.next } };
}

impl Chain {
    /// A walk that begins with the version in block `first`, which was not read yet.
    pub fn at(first: BlockNo) -> Chain
        ensures value { result ≡ record { last = first; next = Some first } }
        ensures begins { Begins first result }
    {
        Chain {
            last: first,
            next: Some(first),
        }
    }

    /// The block that is to be read next; none exactly where the last version was read.
    pub fn need(&self) -> Option<BlockNo>
        ensures { result ≡ self.now.next }
    {
        self.next
    }

    /// Takes the version page that was read from the block that is needed. What is needed next is its commit reference.
    pub fn feed(&mut self, version: &VersionPage)
        requires { IsSome self.old.next }
        ensures last { Some self.new.last ≡ self.old.next }
        ensures next { self.new.next ≡ version.now.commit }
        ensures reads { ReadsOn self.old self.new self.new.last version.now }
    {
        if let Some(block) = self.next {
            self.last = block;
            self.next = version.commit;
        }
    }

    /// The block that was read last, or the first one where none was. Where none is needed, it is that of the file's last version.
    pub fn last(&self) -> BlockNo
        ensures value { result ≡ self.now.last }
        ensures ends { Ends self.now result }
    {
        self.last
    }
}
