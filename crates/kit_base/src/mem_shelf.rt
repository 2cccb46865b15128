//! A shelf in memory.

ghost use Rattle.std.specs.Prelude.{◌≡◌, ◌≢◌, ◌≤◌, ◌↔◌, [], ◌∷◌, ◌++◌, length, take, Some, None, OnOk, OnErr, IfOk, IfErr, IsErrOf, true};
ghost use Rattle.std.specs.Option.{option_copied};
ghost use Rattle.kit_base.specs.Causes.{Rose};
ghost use Rattle.kit_base.specs.Memory.{HasFile, LacksFile, content_of, fails_next, called, fresh};

use crate::plan::Plan;
use crate::{NoMemory, Octets, Shelf, ShelfErr, Words};
use std::alloc::Global;
use std::marker::Model;

#[derive(Drop)]
struct File {
    path: Octets,
    content: Octets,
}

/// Files in memory. Of two at one path the first is read. Reads fail at listed calls.
#[derive(Drop)]
pub struct MemShelf {
    alloc: Global,
    files: Vec<File>,
    plan: Plan,
}

impl Model for MemShelf {
    ghost use Rattle.std.specs.Prelude.{List, ℕ, map};
    ghost use Rattle.kit_base.specs.declared.mem_shelf.File.{File};
    ghost use Rattle.kit_base.specs.Memory.{Shelved};

    ghost Value = { Shelved };

    ghost view = { λ s. record { files = map (λ (f : File). (f.path, f.content)) s.files.items; plan = s.plan } };
}

impl MemShelf {
    /// A shelf without files that fails at the calls of `read_file` whose decimal numbers, from 1,
    /// are in `fails`.
    pub fn new(alloc: Global, fails: Words) -> MemShelf
        ensures { result ≡ record { files = []; plan = fresh fails } }
    {
        MemShelf {
            alloc,
            files: Vec::new(alloc),
            plan: Plan::new(fails),
        }
    }

    /// Appends a file. Where there is one at this path already, that one is still read.
    pub fn add(&mut self, path: &[u8], content: &[u8]) -> Result<(), NoMemory>
        ensures ok { OnOk result
            (self.new ≡ record self.old { files = self.old.files ++ (path.now, content.now) ∷ [] }) }
        ensures err { OnErr result (self.new ≡ self.old) }
    {
        let path = Octets::from_slice(self.alloc, path)?;
        let content = Octets::from_slice(self.alloc, content)?;
        self.files.push(File { path, content })?;
        Ok(())
    }

    fn find(&self, path: &[u8]) -> Option<&Octets>
        ensures { option_copied result ≡ content_of self.now.files path.now }
    {
        for file in &self.files {
            if file.path.as_slice() == path {
                return Some(&file.content);
            }
        }
        None
    }

    fn fails_now(&mut self) -> bool
        ensures listed { result ≡ fails_next self.old.plan }
        ensures after { self.new ≡ record self.old { plan = called self.old.plan result } }
    {
        self.plan.fails_now()
    }
}

impl Shelf for MemShelf {
    ghost files = { λ s. Some (content_of s.files) };

    ghost faults = { λ s. s.plan.faults };

    fn read_file(&mut self, alloc: Global, path: &[u8], most: u32) -> Result<Octets, ShelfErr>
        // What the files are.
        ensures same { Some (content_of self.new.files) ≡ Some (content_of self.old.files) }
        // What was read.
        ensures content { IfOk result
            (λ octets. HasFile (Some (content_of self.old.files)) path.now most octets) }
        ensures bound { IfOk result (λ octets. length octets ≤ most) }
        ensures absent { IsErrOf result ShelfErr.Absent
            → LacksFile (Some (content_of self.old.files)) path.now }
        // When it fails.
        ensures later { self.old.plan.faults ≤ self.new.plan.faults }
        ensures failed { IsErrOf result ShelfErr.Failed → Rose self.old.plan.faults self.new.plan.faults }
        ensures reported { result ≢ Err ShelfErr.Failed → self.old.plan.faults ≡ self.new.plan.faults }
        ensures listed { IsErrOf result ShelfErr.Failed ↔ (fails_next self.old.plan ≡ true) }
        // What is left of the plan.
        ensures after { self.new
            ≡ record self.old { plan = called self.old.plan (fails_next self.old.plan) } }
    {
        if self.fails_now() {
            return Err(ShelfErr::Failed);
        }
        match self.find(path) {
            Some(content) => copy_up_to(alloc, content.as_slice(), most),
            None => Err(ShelfErr::Absent),
        }
    }
}

fn copy_up_to(alloc: Global, content: &[u8], most: u32) -> Result<Octets, ShelfErr>
    ensures ok { IfOk result (λ o. o ≡ take most content.now) }
    ensures err { IfErr result (λ e. e ≡ ShelfErr.NoMemory) }
{
    let count = content.len().min(most as usize);
    match Octets::from_slice(alloc, &content[..count]) {
        Ok(octets) => Ok(octets),
        Err(NoMemory) => Err(ShelfErr::NoMemory),
    }
}
