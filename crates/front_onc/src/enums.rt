//! Enums.

ghost use Rattle.std.specs.Prelude.{◌≡◌, [], None, false};
ghost use Rattle.idl_names.specs.Answers.{Gives};
ghost use Rattle.front_onc.specs.Held.{state};
ghost use Rattle.front_onc.specs.Enums.{next, item_number, short, item_on, items_on, is_item, enum_on};

use crate::meaning::Scope;
use crate::state::Resolver;
use crate::values::value;
use crate::{Meaning, NameErr, NameFault, Tag};
use aoi::Items;
use idl_names::{enum_of, fault, item_of};
use onc_syntax::{Item, Value};
use std::alloc::Global;

/// The number after the previous one, or 0.
fn next(previous: Option<i32>) -> i128
    ensures { result ≡ next previous }
{
    match previous {
        Some(n) => i128::from(n) + 1,
        None => 0,
    }
}

/// The number of an item.
fn item_number(
    scope: &Scope,
    d: u32,
    previous: Option<i32>,
    v: &Option<Value>,
) -> Result<i128, NameErr>
    ensures value { Gives (λ x. x) result (item_number scope.now d previous v.now) }
    ensures exact { result ≡ item_number scope.now d previous v.now }
{
    match v {
        Some(v) => value(scope, d, v),
        None => Ok(next(previous)),
    }
}

/// A number of 32 signed bits.
fn short(d: u32, n: i128) -> Result<i32, NameErr>
    ensures value { Gives (λ x. x) result (short d n) }
    ensures exact { result ≡ short d n }
{
    match i32::try_from(n) {
        Ok(n) => Ok(n),
        Err(_) => Err(fault(NameFault::Range, d)),
    }
}

/// Declares an item, and gives its number.
fn item(
    alloc: Global,
    r: &mut Resolver,
    d: u32,
    k: u32,
    place: usize,
    previous: Option<i32>,
    item: &Item,
) -> Result<i32, NameErr>
    ensures { Gives (λ n. (state r.new, n)) result (item_on d k place (state r.old) previous item.now) }
{
    let name = item.name.as_slice();
    if r.scope().has(name) {
        return Err(fault(NameFault::Twice, d));
    }
    let n = short(d, item_number(r.scope(), d, previous, &item.value)?)?;
    r.label(d, k, place, i128::from(n))?;
    r.declare(alloc, name, Meaning::Constant(i128::from(n)))?;
    Ok(n)
}

/// Declares the items of an enum, and gives them with their numbers.
fn items(
    alloc: Global,
    r: &mut Resolver,
    d: u32,
    k: u32,
    place: usize,
    list: &[Item],
) -> Result<Items, NameErr>
    ensures { Gives (λ items. (state r.new, items)) result
        (items_on d k place (state r.old) [] None list.now) }
{
    let mut items = Items::new(alloc);
    let mut previous = None;
    for i in list {
        let n = item(alloc, r, d, k, place, previous, i)?;
        items.push(item_of(alloc, i.name.as_slice(), n)?)?;
        previous = Some(n);
    }
    Ok(items)
}

/// Whether an item has the name.
fn is_item(name: &[u8], items: &[Item]) -> bool
    ensures { result ≡ is_item name.now items.now }
{
    for item in items {
        if name == item.name.as_slice() {
            return true;
        }
    }
    false
}

/// An enum.
pub(crate) fn enum_(
    alloc: Global,
    r: &mut Resolver,
    d: u32,
    name: &[u8],
    list: &[Item],
) -> Result<(), NameErr>
    ensures { Gives (λ _. state r.new) result (enum_on d (state r.old) name.now list.now) }
{
    if r.scope().has(name) || is_item(name, list) {
        return Err(fault(NameFault::Twice, d));
    }
    let k = r.next_type()?;
    let place = r.count_labels();
    let items = items(alloc, r, d, k, place, list)?;
    r.declare_type(alloc, name, enum_of(items), Tag::Enum(k))
}
