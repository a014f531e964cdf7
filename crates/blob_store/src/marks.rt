//! What was seen last of the files of a folder.
ghost use Rattle.std.specs.Prelude.{◌≡◌, ◌≢◌, ℕ, List, None, IfOk, OnErr};
ghost use Rattle.std.specs.BTreeMap.{get_by_text};

use crate::disk::Stamp;
use std::alloc::{AllocError, Global};
use std::collections::BTreeMap;

/// What was seen last of the file of a blob.
#[derive(Clone, Copy, Debug, PartialEq, Eq)]
pub enum Mark {
    /// It was not looked at.
    Never,
    /// There was none.
    Absent,
    /// This.
    Seen(Stamp),
    /// It was replaced, and could not be looked at afterwards: it is to be read before it is replaced again.
    Unseen,
}

/// What was seen last of the files of a folder, by their names.
#[derive(Drop)]
pub struct Marks {
    marks: BTreeMap<String, Mark>,
}

impl Marks {
    ghost use Rattle.blob_store.specs.Marks.{mark_under};

    /// No file was looked at.
    pub fn new(alloc: Global) -> Self
        ensures { (name : List ℕ) → mark_under result name ≡ Mark.Never }
    {
        Marks {
            marks: BTreeMap::new(alloc),
        }
    }

    /// What was seen last of the file of this name.
    pub fn get(&self, name: &str) -> Mark
        ensures { result ≡ mark_under self.now name.now }
    {
        match self.marks.get(name) {
            Some(mark) => *mark,
            None => Mark::Never,
        }
    }

    /// Keeps this as what was seen last of the file of this name. Refused, it changes nothing.
    ///
    /// # Errors
    ///
    /// Memory was refused.
    pub fn keep(&mut self, alloc: Global, name: &str, mark: Mark) -> Result<(), AllocError>
        ensures there { IfOk result (λ _. mark_under self.new name.now ≡ mark) }
        ensures room { IfOk result (λ _. get_by_text self.new.marks name.now ≢ None) }
        ensures others { (other : List ℕ) → other ≢ name.now → mark_under self.new other ≡ mark_under self.old other }
        ensures refused { OnErr result (mark_under self.new name.now ≡ mark_under self.old name.now) }
    {
        let key = String::from_str(alloc, name)?;
        self.marks.insert(key, mark)?;
        Ok(())
    }

    /// Keeps this as what was seen last of a file of which something is kept: so no memory is asked for.
    pub fn change(&mut self, name: &str, mark: Mark)
        requires room { get_by_text self.old.marks name.now ≢ None }
        ensures there { mark_under self.new name.now ≡ mark }
        ensures others { (other : List ℕ) → other ≢ name.now → mark_under self.new other ≡ mark_under self.old other }
    {
        if let Some(last) = self.marks.get_mut(name) {
            *last = mark;
        }
    }
}
