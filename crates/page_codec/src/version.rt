use crate::members::Members;
use crate::page::Page;
use afs_base::BlockNo;
use ref_flags::Flags;
use std::marker::Model;

/// A version page: the marks of `/`; the page `/`, whose level is 0; the file's object and the version's serial,
/// both at least 1; the block of the next version, and of the one that it was made from; and the files whose
/// versions are linked with it. No block is 0.
#[derive(Debug, Drop)]
pub struct VersionPage {
    pub root: Flags,
    pub page: Page,
    pub object: u32,
    pub serial: u64,
    pub commit: Option<BlockNo>,
    pub base: Option<BlockNo>,
    pub members: Members,
}

impl Model for VersionPage {
    ghost use Rattle.page_codec.specs.Values.{VersionValue};
    ghost use Rattle.page_codec.specs.Bounds.{IsSoundVersion};

    ghost Value = { VersionValue };

    ghost view = { λ v. record {
      root = v.root;
      page = v.page;
      object = v.object;
      serial = v.serial;
      commit = v.commit;
      base = v.base;
      members = v.members;
    } };

    ghost invariant = { λ v. IsSoundVersion (record {
      root = v.root;
      page = v.page;
      object = v.object;
      serial = v.serial;
      commit = v.commit;
      base = v.base;
      members = v.members;
    }) };
}
