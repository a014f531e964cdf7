//! Files in memory.
ghost use Rattle.std.specs.Prelude.{◌≡◌, ◌≢◌, ◌++◌, ℕ, List, Some, None, IfOk, OnErr, option_map};

use blob_store::disk::Told;
use std::alloc::{AllocError, Global};
use std::collections::BTreeMap;

/// A file in memory.
#[derive(Drop)]
pub struct Stored {
    /// What is told of it.
    pub told: Told,
    /// Its bytes.
    pub bytes: Vec<u8>,
    /// Whether they were synced.
    pub synced: bool,
}

impl Stored {
    ghost use Rattle.tab_tests.specs.Drives.{entry_of};

    /// This file with these bytes more, synced or not.
    pub fn with(&self, alloc: Global, more: &[u8], synced: bool) -> Result<Stored, AllocError>
        ensures { IfOk result (λ s. entry_of s
            ≡ record { told = self.now.told; bytes = self.now.bytes.items ++ more.now; synced = synced }) }
    {
        let mut bytes = Vec::from_slice(alloc, &self.bytes)?;
        bytes.extend_from_slice(more)?;
        Ok(Stored {
            told: self.told,
            bytes,
            synced,
        })
    }
}

/// Files in memory, by their paths.
#[derive(Drop)]
pub struct Files {
    files: BTreeMap<String, Stored>,
}

impl Files {
    ghost use Rattle.tab_tests.specs.Drives.{entry_of, at_path};

    /// No file.
    pub fn new(alloc: Global) -> Self
        ensures { (path : List ℕ) → at_path result path ≡ None }
    {
        Files {
            files: BTreeMap::new(alloc),
        }
    }

    /// What stands under a path.
    pub fn get(&self, path: &str) -> Option<&Stored>
        ensures { option_map (λ s. entry_of s.now) result ≡ at_path self.now path.now }
    {
        self.files.get(path)
    }

    /// Puts a file under a path, in the place of what stands there. Refused, it changes nothing.
    pub fn put(&mut self, alloc: Global, path: &str, stored: Stored) -> Result<(), AllocError>
        ensures there { IfOk result (λ _. at_path self.new path.now ≡ Some (entry_of stored)) }
        ensures others { (other : List ℕ) → other ≢ path.now → at_path self.new other ≡ at_path self.old other }
        ensures refused { OnErr result (at_path self.new ≡ at_path self.old) }
    {
        let key = String::from_str(alloc, path)?;
        self.files.insert(key, stored)?;
        Ok(())
    }

    /// Removes what stands under a path.
    pub fn remove(&mut self, path: &str)
        ensures there { at_path self.new path.now ≡ None }
        ensures others { (other : List ℕ) → other ≢ path.now → at_path self.new other ≡ at_path self.old other }
    {
        let _ = self.files.remove(path);
    }
}
