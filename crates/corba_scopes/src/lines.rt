//! The lines of interfaces: for each the scopes in which its names are found.

ghost use Rattle.std.specs.Prelude.{◌≡◌, ◌==◌, [], IfOk, OnOk, option_copied, nat_eq};
ghost use Rattle.std.specs.Map.{lookup};
ghost use Rattle.indexmap.specs.IndexMap.{insert_entry};
ghost use Rattle.corba_scopes.specs.Stored.{line_at, added_place, joined_places};

use indexmap::IndexMap;
use kit_base::{Listed, NoMemory};
use std::alloc::Global;
use std::marker::Model;

/// Puts a scope after those of a line, unless it is there.
fn add(line: &mut Listed<usize>, place: usize) -> Result<(), NoMemory>
    ensures { OnOk result (line.new ≡ added_place place line.old) }
{
    if !line.as_slice().contains(&place) {
        line.push(place)?;
    }
    Ok(())
}

/// Puts scopes after those of a line, without those that are there.
fn join(line: &mut Listed<usize>, places: &[usize]) -> Result<(), NoMemory>
    ensures { OnOk result (line.new ≡ joined_places line.old places.now) }
{
    for place in places {
        add(line, *place)?;
    }
    Ok(())
}

/// The lines of interfaces, by the numbers of their scopes.
#[derive(Drop)]
pub(crate) struct Lines {
    table: IndexMap<usize, Listed<usize>>,
}

impl Model for Lines {
    ghost use Rattle.std.specs.Prelude.{List, ℕ};
    ghost use Rattle.std.specs.Coded.{codes};

    ghost Value = { List (ℕ × List ℕ) };

    ghost view = { λ t. t.table.entries };
}

impl Lines {
    /// No lines.
    pub(crate) fn new(alloc: Global) -> Lines
        ensures { result ≡ [] }
    {
        Lines {
            table: IndexMap::new(alloc),
        }
    }

    /// The line of a scope, where it is an interface's with bases.
    pub(crate) fn line(&self, place: usize) -> Option<&Listed<usize>>
        ensures { option_copied result ≡ lookup (λ k. place == k) self.now }
    {
        self.table.get(&place)
    }

    /// The numbers of the scopes in which a name of a scope is found.
    fn line_of(&self, alloc: Global, place: usize) -> Result<Listed<usize>, NoMemory>
        ensures { IfOk result (λ line. line ≡ line_at place self.now) }
    {
        match self.line(place) {
            Some(line) => Listed::from_slice(alloc, line.as_slice()),
            None => Listed::from_slice(alloc, &[place]),
        }
    }

    /// Puts the line of one more base after that of an interface's scope.
    pub(crate) fn add_base(
        &mut self,
        alloc: Global,
        place: usize,
        base: usize,
    ) -> Result<(), NoMemory>
        ensures { OnOk result (self.new ≡
            insert_entry nat_eq self.old place
            (joined_places (line_at place self.old) (line_at base self.old))) }
    {
        let mut line = self.line_of(alloc, place)?;
        let more = self.line_of(alloc, base)?;
        join(&mut line, more.as_slice())?;
        self.table.insert(place, line)?;
        Ok(())
    }
}
