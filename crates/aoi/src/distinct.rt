//! Names and numbers of which no two are equal.

ghost use Rattle.std.specs.Prelude.{◌≡◌, map, if◌then◌else◌};
ghost use Rattle.std.specs.List.{list_any};
ghost use Rattle.std.specs.Ordering.{int_eq};
ghost use Rattle.std.specs.Str.{bytes_eq};
ghost use Rattle.aoi.specs.Shapes.{members};
ghost use Rattle.aoi.specs.Sound.{are_distinct, are_different, count_different, names_of};

use crate::{Field, Ty};
use kit_base::Name;

fn is_field(name: &[u8], fields: &[Field]) -> bool
    ensures { result ≡ list_any (λ m. bytes_eq m name.now) (names_of (members fields.now)) }
{
    for field in fields {
        if field.name.as_slice() == name {
            return true;
        }
    }
    false
}

/// Whether the fields have different names.
pub(crate) fn are_fields_distinct(fields: &[Field]) -> bool
    ensures { result ≡ are_distinct (names_of (members fields.now)) }
{
    for (i, field) in fields.iter().enumerate() {
        if is_field(field.name.as_slice(), &fields[i + 1..]) {
            return false;
        }
    }
    true
}

fn is_item(name: &[u8], items: &[(Name, i32)]) -> bool
    ensures { result ≡ list_any (λ m. bytes_eq m name.now) (map (λ i. i.0) items.now) }
{
    for (other, _) in items {
        if other.as_slice() == name {
            return true;
        }
    }
    false
}

/// Whether the items of an enum have different names.
pub(crate) fn are_items_distinct(items: &[(Name, i32)]) -> bool
    ensures { result ≡ are_distinct (map (λ i. i.0) items.now) }
{
    for (i, (name, _)) in items.iter().enumerate() {
        if is_item(name.as_slice(), &items[i + 1..]) {
            return false;
        }
    }
    true
}

fn is_item_number(n: &i32, items: &[(Name, i32)]) -> bool
    ensures { result ≡ list_any (λ m. int_eq m n.now) (map (λ i. i.1) items.now) }
{
    for (_, m) in items {
        if *m == *n {
            return true;
        }
    }
    false
}

/// 1 for a number that none of the items has, else 0.
fn new_number(n: &i32, items: &[(Name, i32)]) -> usize
    ensures { result ≡ (if list_any (λ m. int_eq m n.now) (map (λ i. i.1) items.now) then 0 else 1) }
{
    if is_item_number(n, items) { 0 } else { 1 }
}

/// How many different numbers the items of an enum have.
pub(crate) fn count_item_numbers(items: &[(Name, i32)]) -> usize
    ensures { result ≡ count_different (map (λ i. i.1) items.now) }
{
    let mut count = 0;
    for (i, (_, n)) in items.iter().enumerate() {
        count += new_number(n, &items[i + 1..]);
    }
    count
}

fn is_arm(n: i128, arms: &[(i128, Ty)]) -> bool
    ensures { result ≡ list_any (λ m. int_eq m n) (map (λ a. a.0) arms.now) }
{
    for (m, _) in arms {
        if *m == n {
            return true;
        }
    }
    false
}

/// Whether the arms have different numbers.
pub(crate) fn are_arms_different(arms: &[(i128, Ty)]) -> bool
    ensures { result ≡ are_different (map (λ a. a.0) arms.now) }
{
    for (i, (n, _)) in arms.iter().enumerate() {
        if is_arm(*n, &arms[i + 1..]) {
            return false;
        }
    }
    true
}
