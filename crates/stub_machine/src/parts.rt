//! Parts of a value, and the numbers that a put takes of them.

ghost use Rattle.std.specs.Prelude.{◌≡◌, ◌+◌, ◌*◌, pos, length, option_map, Some};
ghost use Rattle.mint.specs.Values.{seen, all_seen};
ghost use Rattle.cast_stub.specs.Parts.{at, field, in_group, number_in, tag_in, flag_in, length_in, on_some, IsThere};
ghost use Rattle.mint.specs.Values.{arm_in, row_in};
ghost use Rattle.stub_machine.specs.Picking.{PickedAt};

use cast_stub::{Path, SendCases};
use kit_base::Boxed;
use mint::row::Row;
use mint::value::{Value, Values};

/// The value of a field, where there is a group that has it.
#[inline(always)]
fn field_of(value: &Value, n: u32) -> Option<&Value>
    ensures { option_map (λ w. seen w.now) result ≡ in_group n (seen value.now) }
{
    match value {
        Value::Group(values) => nth(values, n),
        _ => None,
    }
}

/// The value at a place.
#[inline(always)]
#[tactic(auto, using(crate::proofs::PartLaws::parts))]
fn nth(values: &Values, n: u32) -> Option<&Value>
    ensures { option_map (λ w. seen w.now) result ≡ field n (all_seen values.now) }
{
    values.get(n as usize)
}

/// The part at a path.
#[inline(always)]
#[tactic(auto, using(crate::proofs::PartLaws::parts))]
pub fn part<'a>(path: &Path, value: &'a Value) -> Option<&'a Value>
    ensures { option_map (λ w. seen w.now) result ≡ at path.now (seen value.now) }
{
    let path = path.as_slice();
    match path.len() {
        1 => field_of(value, path[0]),
        2 => field_within(value, path[0], path[1]),
        _ => part_within(path, value),
    }
}

/// The value of a field within the value of a field.
#[inline(always)]
fn field_within(value: &Value, outer: u32, inner: u32) -> Option<&Value>
    ensures { option_map (λ w. seen w.now) result
        ≡ on_some (in_group outer (seen value.now)) (in_group inner) }
{
    match field_of(value, outer) {
        Some(here) => field_of(here, inner),
        None => None,
    }
}

/// The part at a path of any length.
#[inline(never)]
#[tactic(auto, using(crate::proofs::PartLaws::parts))]
fn part_within<'a>(path: &[u32], value: &'a Value) -> Option<&'a Value>
    ensures { option_map (λ w. seen w.now) result ≡ at path.now (seen value.now) }
{
    let mut here = value;
    for n in path {
        match field_of(here, *n) {
            Some(next) => here = next,
            None => return None,
        }
    }
    Some(here)
}

/// The number at a path, where there is one: it is not tested whether there is.
#[inline(always)]
pub fn number_there<'a>(path: &Path, value: &'a Value) -> &'a i128
    requires { IsThere (on_some (at path.now (seen value.now)) number_in) }
    ensures { Some result.now ≡ on_some (at path.now (seen value.now)) number_in }
{
    match part_there(path, value) {
        Value::Num(n) => n,
        _ => unreachable!(),
    }
}

/// The part at a path, where there is one.
#[inline(always)]
#[tactic(auto, using(crate::proofs::PartLaws::parts))]
fn part_there<'a>(path: &Path, value: &'a Value) -> &'a Value
    requires { IsThere (at path.now (seen value.now)) }
    ensures { Some (seen result.now) ≡ at path.now (seen value.now) }
{
    let path = path.as_slice();
    match path.len() {
        1 => field_there(value, path[0]),
        2 => field_there(field_there(value, path[0]), path[1]),
        _ => match part_within(path, value) {
            Some(here) => here,
            None => unreachable!(),
        },
    }
}

/// The value of a field, where there is one.
#[inline(always)]
fn field_there(value: &Value, n: u32) -> &Value
    requires { IsThere (in_group n (seen value.now)) }
    ensures { Some (seen result.now) ≡ in_group n (seen value.now) }
{
    match value {
        Value::Group(values) => nth_there(values, n),
        _ => unreachable!(),
    }
}

/// The value at a place, where there is one.
#[inline(always)]
#[tactic(auto, using(crate::proofs::PartLaws::parts))]
fn nth_there(values: &Values, n: u32) -> &Value
    requires { IsThere (field n (all_seen values.now)) }
    ensures { Some (seen result.now) ≡ field n (all_seen values.now) }
{
    &values.as_slice()[n as usize]
}

/// How many elements a value has.
#[tactic(auto, using(crate::proofs::PartLaws::parts))]
pub fn length_of(value: &Value) -> Option<usize>
    ensures { result ≡ length_in (seen value.now) }
{
    match value {
        Value::Items(values) => Some(values.len()),
        Value::Row(row) => Some(row.len()),
        _ => None,
    }
}

/// The row at a path.
#[tactic(auto, using(crate::proofs::PartLaws::parts))]
pub fn row_at<'a>(path: &Path, value: &'a Value) -> Option<&'a Row>
    ensures { option_map (λ r. (r.now.kind, r.now.numbers)) result
        ≡ on_some (at path.now (seen value.now)) row_in }
{
    match part(path, value) {
        Some(here) => row_of(here),
        None => None,
    }
}

/// The row that a value is.
#[tactic(auto, using(crate::proofs::PartLaws::parts))]
fn row_of(value: &Value) -> Option<&Row>
    ensures { option_map (λ r. (r.now.kind, r.now.numbers)) result ≡ row_in (seen value.now) }
{
    match value {
        Value::Row(row) => Some(row),
        _ => None,
    }
}

/// The tag that a value has.
pub fn tag_of(value: &Value) -> Option<i128>
    ensures { result ≡ tag_in (seen value.now) }
{
    match value {
        Value::Arm(n, _) => Some(*n),
        _ => None,
    }
}

/// Whether a value is there, as a number.
pub fn flag_of(value: &Value) -> Option<i128>
    ensures { result ≡ flag_in (seen value.now) }
{
    match value {
        Value::Opt(None) => Some(0),
        Value::Opt(Some(_)) => Some(1),
        _ => None,
    }
}

/// A length that is multiplied, and a number more.
pub fn scaled(n: usize, mul: u32, add: u32) -> i128
    ensures { result ≡ pos (n * mul + add) }
{
    (n as i128) * i128::from(mul) + i128::from(add)
}

/// The tag and the value after it, at a path.
#[tactic(auto, using(crate::proofs::PartLaws::parts))]
pub fn arm_at<'a>(path: &Path, value: &'a Value) -> Option<(&'a i128, &'a Value)>
    ensures { option_map (λ a. (a.0.now, seen a.1.now)) result
        ≡ on_some (at path.now (seen value.now)) arm_in }
{
    match part(path, value) {
        Some(here) => arm(here),
        None => None,
    }
}

/// The tag of an arm, and the value after it.
fn arm(value: &Value) -> Option<(&i128, &Value)>
    ensures { option_map (λ a. (a.0.now, seen a.1.now)) result ≡ arm_in (seen value.now) }
{
    match value {
        Value::Arm(n, inner) => Some((n, inner)),
        _ => None,
    }
}

/// The place of the body of a number.
pub fn position(cases: &Boxed<SendCases>, n: &i128) -> Option<usize>
    ensures { PickedAt cases.now n.now result }
{
    cases.find(n)
}
