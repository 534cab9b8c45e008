ghost use Rattle.std.specs.Prelude.{◌≡◌, ◌<◌, ◌≤◌, ◌++◌, ◌∷◌, ◌↔◌, [], length, IsTrue, slice_get, Some};

use crate::command::FileName;
use afs_base::MAX_FILES;
use arrayvec::ArrayVec;
use std::marker::Model;

/// The files that an update names, the top first: at most seventeen. Contracts see the list.
#[derive(Debug, Drop)]
pub struct Files17 {
    list: ArrayVec<FileName, MAX_FILES>,
}

impl Model for Files17 {
    ghost use Rattle.std.specs.Prelude.{List, length, ◌≤◌};
    ghost use Rattle.afs_base.specs.declared.limits.TheConstants.{MAX_FILES};
    ghost use Rattle.script_text.specs.declared.command.FileName.{FileName};

    ghost Value = { List FileName };

    ghost view = { λ f. f.list.items };

    ghost invariant = { λ f. length f.list.items ≤ MAX_FILES };
}

impl Files17 {
    /// No file.
    pub fn none() -> Files17
        ensures { result ≡ [] }
    {
        Files17 {
            list: ArrayVec::new(),
        }
    }

    /// One more file, at the end.
    pub fn push(&mut self, file: FileName)
        requires { length self.old < MAX_FILES }
        ensures { self.new ≡ self.old ++ file ∷ [] }
    {
        self.list.push(file);
    }

    /// How many files there are, at most 17.
    pub fn len(&self) -> usize
        ensures value { result ≡ length self.now }
        ensures most { result ≤ MAX_FILES }
    {
        self.list.len()
    }

    /// Whether there is no file.
    pub fn is_empty(&self) -> bool
        ensures { IsTrue result ↔ (self.now ≡ []) }
    {
        self.list.is_empty()
    }

    /// The file at place `i`, 0 being the top.
    pub fn get(&self, i: usize) -> FileName
        requires { i < length self.now }
        ensures { slice_get self.now i ≡ Some result }
    {
        self.list[i]
    }

    /// The files, at most 17, the top first.
    pub fn as_slice(&self) -> &[FileName]
        ensures value { result.now ≡ self.now }
        ensures most { length result.now ≤ MAX_FILES }
    {
        self.list.as_slice()
    }
}

impl PartialEq for Files17 {
    ghost use Rattle.std.specs.Cmp.Lexicographic.{lists_per};
    ghost use Rattle.script_text.specs.contracts.command.FileNamePartialEq.TheImpl as same_file;
    ghost use Rattle.script_text.specs.contracts.command.FileNamePartialEq.TheImpl.Laws as same_file_laws;
    ghost use lib.Pointwise.{pointwise};

    ghost eq = { pointwise ((same_file.ghosts).eq) };

    ghost laws = { lists_per same_file_laws.laws-law };

    fn eq(&self, other: &Files17) -> bool {
        self.as_slice() == other.as_slice()
    }
}

impl Eq for Files17 {
    ghost use Rattle.std.specs.Cmp.Lexicographic.{lists_equiv};
    ghost use Rattle.script_text.specs.contracts.command.FileNameEq.TheImpl.Laws as same_file_laws;

    ghost laws = { lists_equiv same_file_laws.laws-law };
}
