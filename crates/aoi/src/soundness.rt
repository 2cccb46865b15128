//! Whether a unit is sound.

ghost use Rattle.std.specs.Prelude.{◌≡◌, ◌≤◌, length, map, None, ◌&&◌, ◌+◌, ◌-◌, ◌^◌, nat_le};
ghost use Rattle.std.specs.List.{list_all, list_any};
ghost use Rattle.std.specs.Option.{option_map};
ghost use Rattle.std.specs.Ordering.{int_eq};
ghost use Rattle.aoi.specs.Plain.{plain, is_sound_plain};
ghost use Rattle.aoi.specs.Shapes.{seen, members, shapes, structure, arms_seen, default_of};
ghost use Rattle.aoi.specs.Sound.{is_tag, is_of_tag, is_open, is_some_count, is_sound_enum, are_sound_labels, is_sound_union, name_in, unfolded, or_void, is_sound_type, are_sound, are_sound_arms, are_sound_types, is_sound_raise, is_sound_operation, is_sound_interface, is_sound, has_arm, has_member};

use crate::distinct::{
    are_arms_different, are_fields_distinct, are_items_distinct, count_item_numbers,
};
use crate::{Field, FullName, Interface, Operation, Raise, Ty, Unit};
use kit_base::Name;
use kit_base::limits::{MOST_LABELS, MOST_RAISES};
use mint::kind::Count;

/// Whether the types and interfaces of a unit are sound. Its time grows with the square of the
/// longest list of names or labels.
pub fn is_sound(unit: &Unit) -> bool
    ensures { result ≡ is_sound_plain (plain unit.now) }
{
    let types = unit.types().as_slice();
    are_sound_types(types) && are_sound_interfaces(unit.interfaces().as_slice(), types)
}

fn are_sound_interfaces(interfaces: &[Interface], types: &[(FullName, Ty)]) -> bool
    ensures { result ≡ list_all (is_sound_interface (shapes types.now)) interfaces.now }
{
    for i in interfaces {
        if !is_sound_interface(types, i) {
            return false;
        }
    }
    true
}

fn are_sound_types(types: &[(FullName, Ty)]) -> bool
    ensures { result ≡ are_sound_types (shapes types.now) 0 (shapes types.now) }
{
    for (i, (_, ty)) in types.iter().enumerate() {
        if !is_sound_type(ty, types, i) {
            return false;
        }
    }
    true
}

/// Whether a type is sound that may name the types below a limit.
#[cycle(sound)]
fn is_sound_type(ty: &Ty, types: &[(FullName, Ty)], limit: usize) -> bool
    requires { limit ≤ length types.now }
    ensures { result ≡ is_sound_type (shapes types.now) limit (seen ty.now) }
{
    match ty {
        Ty::Void => false,
        Ty::Num(_) => true,
        Ty::Enum(items) => is_sound_enum(items.as_slice()),
        Ty::Text(count) => is_open(*count),
        Ty::Array(item, count) => is_some_count(*count) && is_sound_type(item, types, limit),
        Ty::Arrays(item, count, within) => {
            let is_count = is_some_count(*count);
            let are_counts = are_some_counts(within.as_slice());
            let is_item = is_sound_type(item, types, limit);
            are_both(is_count, are_both(are_counts, is_item))
        }
        Ty::Struct(fields) => is_sound_struct(fields.as_slice(), types, limit),
        Ty::Union(tag, arms, other) => {
            let is_tag = is_sound_type(tag, types, limit);
            let are_labels = is_sound_union(unfolded(types, limit, tag), arms.as_slice(), other);
            let are_arms = are_sound_arms(arms.as_slice(), types, limit);
            let is_other = is_sound_other(other, types, limit);
            are_all(is_tag, are_labels, are_both(are_arms, is_other))
        }
        Ty::Optional(item) => is_sound_type(item, types, limit),
        Ty::Named(k) => (*k as usize) < limit,
    }
}

#[cycle(sound)]
fn is_sound_struct(fields: &[Field], types: &[(FullName, Ty)], limit: usize) -> bool
    requires { limit ≤ length types.now }
    ensures { result ≡ is_sound_type (shapes types.now) limit (structure (members fields.now)) }
{
    has_member(fields) && are_fields_distinct(fields) && are_sound(fields, types, limit)
}

/// Whether the types of fields are sound.
#[cycle(sound)]
fn are_sound(fields: &[Field], types: &[(FullName, Ty)], limit: usize) -> bool
    requires { limit ≤ length types.now }
    ensures { result ≡ are_sound (shapes types.now) limit (members fields.now) }
{
    for field in fields {
        if !is_sound_type(&field.ty, types, limit) {
            return false;
        }
    }
    true
}

/// Whether the types of arms are void or sound.
#[cycle(sound)]
fn are_sound_arms(arms: &[(i128, Ty)], types: &[(FullName, Ty)], limit: usize) -> bool
    requires { limit ≤ length types.now }
    ensures { result ≡ are_sound_arms (shapes types.now) limit (arms_seen arms.now None) }
{
    for (_, ty) in arms {
        if !is_sound_or_void(ty, types, limit) {
            return false;
        }
    }
    true
}

/// Whether the default arm is void or sound, if there is one.
#[cycle(sound)]
fn is_sound_other(other: &Option<Box<Ty>>, types: &[(FullName, Ty)], limit: usize) -> bool
    requires { limit ≤ length types.now }
    ensures { result
        ≡ are_sound_arms (shapes types.now) limit (default_of (option_map (λ b. seen b.value) other.now)) }
{
    match other {
        Some(ty) => is_sound_or_void(ty, types, limit),
        None => true,
    }
}

#[cycle(sound)]
fn is_sound_or_void(ty: &Ty, types: &[(FullName, Ty)], limit: usize) -> bool
    requires { limit ≤ length types.now }
    ensures { result ≡ or_void (seen ty.now) (is_sound_type (shapes types.now) limit (seen ty.now)) }
{
    match ty {
        Ty::Void => true,
        _ => is_sound_type(ty, types, limit),
    }
}

fn are_both(a: bool, b: bool) -> bool
    ensures { result ≡ (a && b) }
{
    a && b
}

fn are_all(a: bool, b: bool, c: bool) -> bool
    ensures { result ≡ (a && b && c) }
{
    a && b && c
}

#[tactic(auto, using(crate::proofs::Numbers::member_there))]
fn has_member(fields: &[Field]) -> bool
    ensures { result ≡ has_member (members fields.now) }
{
    !fields.is_empty()
}

fn is_open(count: Count) -> bool
    ensures { result ≡ is_open count }
{
    !matches!(count, Count::Exactly(_))
}

fn is_some_count(count: Count) -> bool
    ensures { result ≡ is_some_count count }
{
    match count {
        Count::Exactly(n) => n > 0,
        Count::AtMost(_) | Count::Any => true,
    }
}

/// Whether arrays may have these counts.
fn are_some_counts(counts: &[Count]) -> bool
    ensures { result ≡ list_all is_some_count counts.now }
{
    for count in counts {
        if !is_some_count(*count) {
            return false;
        }
    }
    true
}

fn is_sound_enum(items: &[(Name, i32)]) -> bool
    ensures { result ≡ is_sound_enum items.now }
{
    !items.is_empty() && count_item_numbers(items) <= MOST_LABELS && are_items_distinct(items)
}

/// The number of the type that a type names, if it is a name.
fn name_in(ty: &Ty) -> Option<u32>
    ensures { result ≡ name_in (seen ty.now) }
{
    match ty {
        Ty::Named(k) => Some(*k),
        _ => None,
    }
}

/// What a type is once its names are followed, each to a type whose number is below the limit. That
/// number is the next limit.
pub fn unfolded<'a>(types: &'a [(FullName, Ty)], limit: usize, ty: &'a Ty) -> &'a Ty
    requires { limit ≤ length types.now }
    ensures { seen result.now ≡ unfolded limit (shapes types.now) limit (seen ty.now) }
{
    let mut ty = ty;
    let mut left = limit;
    'names: for _ in 0..limit {
        let Some(k) = name_in(ty) else {
            return ty;
        };
        if k as usize >= left {
            return ty;
        }
        left = k as usize;
        ty = &types[left].1;
    }
    ty
}

fn is_tag(ty: &Ty) -> bool
    ensures { result ≡ is_tag (seen ty.now) }
{
    matches!(ty, Ty::Num(_) | Ty::Enum(_))
}

fn is_item(items: &[(Name, i32)], n: i128) -> bool
    ensures { result ≡ list_any (λ i. int_eq i.1 n) items.now }
{
    for (_, m) in items {
        if i128::from(*m) == n {
            return true;
        }
    }
    false
}

fn is_of_tag(tag: &Ty, n: i128) -> bool
    ensures { result ≡ is_of_tag (seen tag.now) n }
{
    match tag {
        Ty::Num(kind) => kind.has(n),
        Ty::Enum(items) => is_item(items.as_slice(), n),
        _ => false,
    }
}

#[tactic(auto, using(crate::proofs::Numbers::arm_there))]
fn has_arm(arms: &[(i128, Ty)], other: &Option<Box<Ty>>) -> bool
    ensures { result ≡ has_arm (arms_seen arms.now (option_map (λ b. seen b.value) other.now)) }
{
    !arms.is_empty() || other.is_some()
}

fn are_sound_labels(tag: &Ty, there: bool, arms: &[(i128, Ty)]) -> bool
    ensures { result ≡ are_sound_labels (seen tag.now) there (map (λ a. a.0) arms.now) }
{
    is_tag(tag)
        && there
        && arms.len() <= MOST_LABELS
        && are_of_tag(tag, arms)
        && are_arms_different(arms)
}

fn is_sound_union(tag: &Ty, arms: &[(i128, Ty)], other: &Option<Box<Ty>>) -> bool
    ensures { result
        ≡ is_sound_union (seen tag.now) (arms_seen arms.now (option_map (λ b. seen b.value) other.now)) }
{
    are_sound_labels(tag, has_arm(arms, other), arms)
}

fn are_of_tag(tag: &Ty, arms: &[(i128, Ty)]) -> bool
    ensures { result ≡ list_all (is_of_tag (seen tag.now)) (map (λ a. a.0) arms.now) }
{
    for (n, _) in arms {
        if !is_of_tag(tag, *n) {
            return false;
        }
    }
    true
}

fn is_sound_raise(types: &[(FullName, Ty)], raise: &Raise) -> bool
    ensures { result ≡ is_sound_raise (shapes types.now) raise.now }
{
    let members = raise.members.get().as_slice();
    are_fields_distinct(members) && are_sound(members, types, types.len())
}

fn are_sound_raises(raises: &[Raise], types: &[(FullName, Ty)]) -> bool
    ensures { result ≡ list_all (is_sound_raise (shapes types.now)) raises.now }
{
    for raise in raises {
        if !is_sound_raise(types, raise) {
            return false;
        }
    }
    true
}

fn is_sound_operation(types: &[(FullName, Ty)], slots: u32, op: &Operation) -> bool
    ensures { result ≡ is_sound_operation (shapes types.now) slots op.now }
{
    are_sound(op.ins.as_slice(), types, types.len())
        && are_sound(op.outs.as_slice(), types, types.len())
        && is_sound_or_void(op.result.get(), types, types.len())
        && op.raises.len() <= MOST_RAISES
        && are_sound_raises(op.raises.as_slice(), types)
        && op.slot < slots
}

fn are_sound_operations(ops: &[Operation], types: &[(FullName, Ty)], slots: u32) -> bool
    ensures { result ≡ list_all (is_sound_operation (shapes types.now) slots) ops.now }
{
    for op in ops {
        if !is_sound_operation(types, slots, op) {
            return false;
        }
    }
    true
}

/// Whether the message ids of an interface are in range.
fn are_ids_in_range(i: &Interface) -> bool
    ensures { result ≡ nat_le (i.now.base + i.now.slots + 100) (2 ^ 31 - 1) }
{
    u64::from(i.base) + u64::from(i.slots) + 100 <= (1 << 31) - 1
}

fn is_sound_interface(types: &[(FullName, Ty)], i: &Interface) -> bool
    ensures { result ≡ is_sound_interface (shapes types.now) i.now }
{
    are_ids_in_range(i) && are_sound_operations(i.ops.as_slice(), types, i.slots)
}
