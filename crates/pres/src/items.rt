//! The items of an enum, with what finds them by their names and by their numbers.

ghost use Rattle.std.specs.Prelude.{◌≡◌, ℕ, ℤ, List, Some, IfOk, OnOk, if◌then◌else◌, option_map, string_bytes};
ghost use Rattle.std.specs.BTreeMap.{IsEmpty, get, get_by_text};
ghost use Rattle.std.specs.Ordering.{int_cmp, int_eq};
ghost use Rattle.std.specs.Str.{bytes_eq};
ghost use Rattle.pres.specs.Tables.{AreFound, FindsNumbers, FindsTexts, number_named, text_numbered, text_of};

use crate::texts::text_of;
use aoi::Items;
use kit_base::{Name, NoMemory};
use kit_shared::Shared;
use std::alloc::Global;
use std::collections::BTreeMap;
use std::marker::Model;

/// Items, with what finds them.
#[derive(Drop)]
struct Found {
    items: Items,
    numbers: BTreeMap<String, i128>,
    texts: BTreeMap<i128, String>,
}

/// The items of an enum as they are declared, kept once for all owners of the table. A name, as a string, and a number
/// are found without a look at each item.
#[derive(Drop)]
pub struct ItemTable {
    found: Shared<Found>,
}

impl Model for ItemTable {
    ghost use Rattle.pres.specs.Tables.{AreFound, ItemList};

    ghost Value = { ItemList };

    ghost view = { λ t. t.found.items };

    ghost invariant = { λ t. AreFound t.found.items t.found.numbers t.found.texts };
}

fn wide(n: &i32) -> i128
    ensures { result ≡ n.now }
{
    i128::from(*n)
}

/// Gives a name a number.
fn put_number(
    alloc: Global,
    numbers: &mut BTreeMap<String, i128>,
    name: &[u8],
    n: &i32,
) -> Result<(), NoMemory>
    ensures { OnOk result ((s : List ℕ) → get_by_text numbers.new s
        ≡ (if bytes_eq (text_of name.now) s then Some n.now else get_by_text numbers.old s)) }
{
    numbers.insert(text_of(alloc, name)?, wide(n))?;
    Ok(())
}

/// Gives a number a name.
fn put_text(
    alloc: Global,
    texts: &mut BTreeMap<i128, String>,
    name: &[u8],
    n: &i32,
) -> Result<(), NoMemory>
    ensures { OnOk result ((m : ℤ) → option_map string_bytes (get int_cmp texts.new m)
        ≡ (if int_eq n.now m then Some (text_of name.now)
        else option_map string_bytes (get int_cmp texts.old m))) }
{
    texts.insert(wide(n), text_of(alloc, name)?)?;
    Ok(())
}

/// Gives each name the number of its first item, from the last to the first.
fn put_numbers(
    alloc: Global,
    numbers: &mut BTreeMap<String, i128>,
    items: &[(Name, i32)],
) -> Result<(), NoMemory>
    requires { IsEmpty numbers.old }
    ensures { OnOk result (FindsNumbers items.now numbers.new) }
{
    let mut i = items.len();
    while i > 0 {
        i -= 1;
        put_number(alloc, numbers, items[i].0.as_slice(), &items[i].1)?;
    }
    Ok(())
}

/// Gives each number the name of its first item, from the last to the first.
fn put_texts(
    alloc: Global,
    texts: &mut BTreeMap<i128, String>,
    items: &[(Name, i32)],
) -> Result<(), NoMemory>
    requires { IsEmpty texts.old }
    ensures { OnOk result (FindsTexts items.now texts.new) }
{
    let mut i = items.len();
    while i > 0 {
        i -= 1;
        put_text(alloc, texts, items[i].0.as_slice(), &items[i].1)?;
    }
    Ok(())
}

/// The number of the first item whose name a string is.
fn number_in(found: &Found, text: &str) -> Option<i128>
    requires { FindsNumbers found.now.items found.now.numbers }
    ensures { result ≡ number_named found.now.items text.now }
{
    match found.numbers.get(text) {
        Some(n) => Some(*n),
        None => None,
    }
}

/// The name of the first item with a number, as a string.
fn text_in<'a>(found: &'a Found, n: &i128) -> Option<&'a str>
    requires { FindsTexts found.now.items found.now.texts }
    ensures { option_map (λ s. s.now) result ≡ text_numbered found.now.items n.now }
{
    match found.texts.get(n) {
        Some(text) => Some(text.as_str()),
        None => None,
    }
}

impl ItemTable {
    /// A table of items.
    pub(crate) fn new(alloc: Global, items: Items) -> Result<ItemTable, NoMemory>
        ensures { IfOk result (λ t. t ≡ items) }
    {
        let mut numbers = BTreeMap::new(alloc);
        let mut texts = BTreeMap::new(alloc);
        put_numbers(alloc, &mut numbers, items.as_slice())?;
        put_texts(alloc, &mut texts, items.as_slice())?;
        let found = Found {
            items,
            numbers,
            texts,
        };
        Ok(ItemTable {
            found: Shared::new(alloc, found)?,
        })
    }

    /// One more owner of the table.
    pub(crate) fn share(&self) -> Result<ItemTable, NoMemory>
        ensures { IfOk result (λ t. t ≡ self.now) }
    {
        Ok(ItemTable {
            found: self.found.share()?,
        })
    }

    /// The items, as they are declared.
    pub fn as_slice(&self) -> &[(Name, i32)]
        ensures { result.now ≡ self.now }
    {
        self.found.get().items.as_slice()
    }

    /// The number of the first item whose name a string is.
    pub fn number(&self, text: &str) -> Option<i128>
        ensures { result ≡ number_named self.now text.now }
    {
        number_in(self.found.get(), text)
    }

    /// The name of the first item with a number, as a string.
    pub fn text(&self, n: &i128) -> Option<&str>
        ensures { option_map (λ s. s.now) result ≡ text_numbered self.now n.now }
    {
        text_in(self.found.get(), n)
    }
}
