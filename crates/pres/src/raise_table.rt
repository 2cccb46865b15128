//! The names of an operation's exceptions, found by the strings that they are.

ghost use Rattle.std.specs.Prelude.{◌≡◌, ◌+◌, ◌<◌, ◌^◌, ℕ, List, Some, length, IfOk, OnOk, if◌then◌else◌};
ghost use Rattle.std.specs.BTreeMap.{IsEmpty, get_by_text};
ghost use Rattle.std.specs.Str.{bytes_eq};
ghost use Rattle.pres.specs.Raises.{IsTable, number_from};
ghost use Rattle.pres.specs.Tables.{text_of};

use crate::texts::{is_full_text_of, text_of};
use aoi::{FullName, FullNames};
use kit_base::NoMemory;
use kit_shared::Shared;
use std::alloc::Global;
use std::collections::BTreeMap;
use std::marker::Model;

/// The octets of the longest name that is copied.
const LONGEST: usize = 128;

/// Names in order. A string is found among them by a table, or one by one where a name is long: no long name is copied.
#[derive(Drop)]
pub(crate) struct RaiseTable {
    names: FullNames,
    numbers: Option<BTreeMap<String, u32>>,
}

impl Model for RaiseTable {
    ghost use Rattle.std.specs.Prelude.{List, ℕ};
    ghost use Rattle.pres.specs.Raises.{IsTable};

    ghost Value = { List (List ℕ) };

    ghost view = { λ t. t.names };

    ghost invariant = { λ t. IsTable t.names t.numbers };
}

/// Whether a name is long.
fn has_long(names: &[Shared<FullName>]) -> bool {
    for name in names {
        if name.get().is_longer(LONGEST) {
            return true;
        }
    }
    false
}

/// Gives a name its number.
fn put_name(
    alloc: Global,
    table: &mut BTreeMap<String, u32>,
    name: &FullName,
    number: u32,
) -> Result<(), NoMemory>
    ensures { OnOk result ((s : List ℕ) → get_by_text table.new s
        ≡ (if bytes_eq (text_of name.now) s then Some number else get_by_text table.old s)) }
{
    let whole = name.whole(alloc)?;
    table.insert(text_of(alloc, whole.as_slice())?, number)?;
    Ok(())
}

/// Gives each name the number of the first that is equal to it, from the last to the first.
fn put_names(
    alloc: Global,
    table: &mut BTreeMap<String, u32>,
    names: &[Shared<FullName>],
) -> Result<(), NoMemory>
    requires empty { IsEmpty table.old }
    requires few { length names.now + 1 < 2 ^ 32 }
    ensures { OnOk result ((s : List ℕ) → get_by_text table.new s ≡ number_from s 1 names.now) }
{
    let mut number = names.len();
    while number > 0 {
        let name = names[number - 1].get();
        put_name(alloc, table, name, number as u32)?;
        number -= 1;
    }
    Ok(())
}

/// The numbers of names by the strings that they are, unless a name is long.
fn numbers_of(
    alloc: Global,
    names: &[Shared<FullName>],
) -> Result<Option<BTreeMap<String, u32>>, NoMemory>
    ensures { IfOk result (λ numbers. IsTable names.now numbers) }
{
    // More names than numbers are more than memory holds.
    if names.len() > 4_294_967_290 {
        return Err(NoMemory);
    }
    if has_long(names) {
        return Ok(None);
    }
    let mut table = BTreeMap::new(alloc);
    put_names(alloc, &mut table, names)?;
    Ok(Some(table))
}

/// The number of the first of these names that a string is, from 1.
fn number_among(names: &[Shared<FullName>], text: &str) -> Option<u32>
    requires { length names.now + 1 < 2 ^ 32 }
    ensures { result ≡ number_from text.now 1 names.now }
{
    let mut number = 1;
    for name in names {
        if is_full_text_of(name.get(), text) {
            return Some(number);
        }
        number += 1;
    }
    None
}

impl RaiseTable {
    /// A table of names.
    pub(crate) fn new(alloc: Global, names: FullNames) -> Result<RaiseTable, NoMemory>
        ensures { IfOk result (λ t. t ≡ names) }
    {
        let numbers = numbers_of(alloc, names.as_slice())?;
        Ok(RaiseTable { names, numbers })
    }

    /// The number of the first name that a string is, from 1.
    pub(crate) fn number(&self, text: &str) -> Option<u32>
        ensures { result ≡ number_from text.now 1 self.now }
    {
        match &self.numbers {
            Some(numbers) => match numbers.get(text) {
                Some(number) => Some(*number),
                None => None,
            },
            None => number_among(self.names.as_slice(), text),
        }
    }
}
