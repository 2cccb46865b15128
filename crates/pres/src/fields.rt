//! The names of fields, as octets and as strings.

ghost use Rattle.std.specs.Prelude.{◌≡◌, ◌<◌, length, map, true, IfOk, IfSome, [], Some, string_bytes, slice_index_or};
ghost use Rattle.std.specs.Str.{IsAscii};
ghost use Rattle.aoi.specs.Shapes.{members};
ghost use Rattle.aoi.specs.Sound.{names_of};
ghost use Rattle.pres.specs.Fielded.{AreKept, AreOrdered, AreTexted, names_held};
ghost use Rattle.pres.specs.KeyOrder.{key_order};
ghost use Rattle.pres.specs.Tables.{AreAscii, text_of, texts_of};

use crate::held::{Held, NamesAndTexts, NamesInOrder};
use crate::key_order::order_of;
use crate::texts::text_of;
use aoi::{Field, RaiseFields};
use kit_base::{Boxed, Listed, NoMemory, Octets, Words};
use kit_shared::Shared;
use std::alloc::Global;
use std::marker::Model;

/// The names of fields in order: of its own, or those of an exception's members. Each is a string by itself where all
/// are of ASCII; where one is not, each has its string beside it.
#[derive(Drop)]
pub struct FieldTable {
    held: Held,
}

impl Model for FieldTable {
    ghost use Rattle.std.specs.Prelude.{ℕ, List};
    ghost use Rattle.pres.specs.Fielded.{AreKept, names_held};

    ghost Value = { List (List ℕ) };

    ghost view = { λ t. names_held t.held };

    ghost invariant = { λ t. AreKept t.held };
}

/// Whether names are of ASCII.
fn are_ascii(names: &[Octets]) -> bool
    ensures { result ≡ true → AreAscii names.now }
{
    for name in names {
        if !name.as_slice().is_ascii() {
            return false;
        }
    }
    true
}

/// The strings of names.
fn texts_of(alloc: Global, names: &[Octets]) -> Result<Listed<String>, NoMemory>
    ensures { IfOk result (λ texts. map string_bytes texts ≡ texts_of names.now) }
{
    let mut texts = Listed::new(alloc);
    for name in names {
        texts.push(text_of(alloc, name.as_slice())?)?;
    }
    Ok(texts)
}

/// Names with their order.
fn with_order(alloc: Global, held: Held, order: Vec<u8>) -> Result<Held, NoMemory>
    requires kept { AreKept held }
    requires order { key_order (names_held held) ≡ Some order.items }
    ensures names { IfOk result (λ all. names_held all ≡ names_held held) }
    ensures kept { IfOk result (λ all. AreKept all) }
{
    match held {
        Held::Own(names) => {
            let names = Box::into_inner(names);
            let both = Boxed::new(alloc, NamesInOrder { names, order })?;
            Ok(Held::Ordered(both))
        }
        other => Ok(other),
    }
}

/// Names of ASCII, with their order where it is made.
fn ascii_names(alloc: Global, names: Words) -> Result<Held, NoMemory>
    requires { AreAscii names }
    ensures names { IfOk result (λ held. names_held held ≡ names) }
    ensures kept { IfOk result (λ held. AreKept held) }
{
    let held = Held::Own(Box::new(alloc, names)?);
    match order_of(alloc, &held)? {
        Some(order) => with_order(alloc, held, order),
        None => Ok(held),
    }
}

/// Names of a table's own, with their order, or with their strings where one is not of ASCII.
fn own_names(alloc: Global, names: Words) -> Result<Held, NoMemory>
    ensures names { IfOk result (λ held. names_held held ≡ names) }
    ensures kept { IfOk result (λ held. AreKept held) }
{
    if are_ascii(names.as_slice()) {
        return ascii_names(alloc, names);
    }
    let texts = texts_of(alloc, names.as_slice())?;
    Ok(Held::Texted(Boxed::new(alloc, NamesAndTexts { names, texts })?))
}

/// Octets of ASCII as a string, without a look at them.
fn as_text(octets: &[u8]) -> &str
    requires { IsAscii octets.now }
    ensures { result.now ≡ text_of octets.now }
{
    unsafe { str::from_utf8_unchecked(octets) }
}

impl FieldTable {
    /// A table of names.
    pub(crate) fn new(alloc: Global, names: Words) -> Result<FieldTable, NoMemory>
        ensures { IfOk result (λ t. t ≡ names) }
    {
        let held = own_names(alloc, names)?;
        Ok(FieldTable { held })
    }

    /// A table of the names of fields that are of ASCII, of which this is one more owner.
    pub(crate) fn shared(fields: &Shared<RaiseFields>) -> Result<FieldTable, NoMemory>
        requires { AreAscii (names_of (members fields.now)) }
        ensures { IfOk result (λ t. t ≡ names_of (members fields.now)) }
    {
        Ok(FieldTable {
            held: Held::Members(fields.share()?),
        })
    }

    /// How many names there are.
    pub fn len(&self) -> usize
        ensures { result ≡ length self.now }
    {
        held_len(&self.held)
    }

    /// The name at a place.
    pub fn name(&self, i: usize) -> &[u8]
        requires { i < length self.now }
        ensures { result.now ≡ slice_index_or self.now i [] }
    {
        held_name(&self.held, i)
    }

    /// The string of the name at a place.
    pub fn text(&self, i: usize) -> &str
        requires { i < length self.now }
        ensures { result.now ≡ text_of (slice_index_or self.now i []) }
    {
        held_text(&self.held, i)
    }

    /// The places of the names in the order of their keys, where it is kept.
    pub fn order(&self) -> Option<&[u8]>
        ensures { IfSome result (λ order. key_order self.now ≡ Some order.now) }
    {
        held_order(&self.held)
    }

    /// The places of the names in the order of their keys, made anew, where the names are few and their keys different.
    pub fn make_order(&self, alloc: Global) -> Result<Option<Vec<u8>>, NoMemory>
        ensures { IfOk result (λ made. IfSome made (λ order. key_order self.now ≡ Some order.items)) }
    {
        order_of(alloc, &self.held)
    }
}

/// How many names fields have.
fn count_of(fields: &[Field]) -> usize
    ensures { result ≡ length (names_of (members fields.now)) }
{
    fields.len()
}

/// The name of a field.
fn name_at(fields: &[Field], i: usize) -> &[u8]
    requires { i < length (names_of (members fields.now)) }
    ensures { result.now ≡ slice_index_or (names_of (members fields.now)) i [] }
{
    fields[i].name.as_slice()
}

/// How many names are held.
pub(crate) fn held_len(held: &Held) -> usize
    ensures { result ≡ length (names_held held.now) }
{
    match held {
        Held::Own(names) => names.len(),
        Held::Ordered(both) => both.names.len(),
        Held::Texted(both) => both.names.len(),
        Held::Members(fields) => count_of(fields.get().as_slice()),
    }
}

/// The name that is held at a place.
fn held_name(held: &Held, i: usize) -> &[u8]
    requires { i < length (names_held held.now) }
    ensures { result.now ≡ slice_index_or (names_held held.now) i [] }
{
    match held {
        Held::Own(names) => names.as_slice()[i].as_slice(),
        Held::Ordered(both) => both.names.as_slice()[i].as_slice(),
        Held::Texted(both) => both.names.as_slice()[i].as_slice(),
        Held::Members(fields) => name_at(fields.get().as_slice(), i),
    }
}

/// The string of the name that is held at a place.
pub(crate) fn held_text(held: &Held, i: usize) -> &str
    requires texts { AreTexted held.now }
    requires place { i < length (names_held held.now) }
    ensures { result.now ≡ text_of (slice_index_or (names_held held.now) i []) }
{
    match held {
        Held::Texted(both) => both.texts.as_slice()[i].as_str(),
        Held::Own(_) => as_text(held_name(held, i)),
        Held::Ordered(_) => as_text(held_name(held, i)),
        Held::Members(_) => as_text(held_name(held, i)),
    }
}

/// The order that is kept.
fn held_order(held: &Held) -> Option<&[u8]>
    requires { AreOrdered held.now }
    ensures { IfSome result (λ order. key_order (names_held held.now) ≡ Some order.now) }
{
    match held {
        Held::Ordered(both) => Some(both.order.as_slice()),
        _ => None,
    }
}
