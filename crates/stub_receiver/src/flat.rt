//! Structs of numbers whose fields are read in order: their values are made without a draft.

ghost use Rattle.std.specs.Prelude.{◌≡◌, ◌∷◌, [], true, map, IfOk, IfSome};
ghost use Rattle.mint.specs.Types.{unfolded, fields_at, type_at, group_type};
ghost use Rattle.mint.specs.Values.{seen, group, val, no_more};
ghost use Rattle.cast_stub.specs.declared.recv.RecvOp.TheVariants as op;
ghost use Rattle.cast_stub.specs.declared.recv.Get.TheVariants as get;
ghost use Rattle.cast_stub.specs.Draft.{fresh};
ghost use Rattle.cast_stub.specs.Fill.{word_got, got, all_got};
ghost use Rattle.cast_stub.specs.Runs.{Holds};
ghost use Rattle.stub_receiver.specs.Flat.{flat_path, read_so_far, Reads, ReadsAll, ReadsWhole, take_run, flat_run};
ghost use Rattle.stub_receiver.specs.Ran.{place_of, Gave};

use crate::draft::fresh;
use crate::errors::Halt;
use crate::numbers::scalar_number;
use crate::settling::settle;
use crate::takes::{is_width, run_const, run_take};
use cast_stub::{Get, Gets, Path, RecvOp, RecvOps};
use kit_base::NoMemory;
use mint::node::{Node, NodeIds};
use mint::table::Mint;
use mint::value::{Value, Values};
use raw_buf::RecvView;
use std::alloc::Global;
use wire_def::Order;

/// What a get has read of a struct of which the first fields were read.
#[derive(Clone, Copy)]
pub enum Read {
    /// The number of the next field.
    Number(i128),
    /// Octets that had to be these.
    Passed,
    /// A test failed.
    Refused,
    /// Anything else than the next field.
    Other,
}

/// How many octets are tested, and the take, of a code that has a need and a take alone.
pub fn need_and_take(body: &RecvOps) -> Option<(u32, u32, &Gets)>
    ensures { IfSome result (λ t. body.now ≡ op.Need t.0 ∷ op.Take t.1 t.2.now ∷ []) }
{
    let ops = body.as_slice();
    if ops.len() != 2 {
        return None;
    }
    match &ops[0] {
        RecvOp::Need(n) => {
            match &ops[1] {
                RecvOp::Take(size, gets) => Some((*n, *size, gets)),
                _ => None,
            }
        }
        _ => None,
    }
}

/// Whether a path leads to the field of a number.
#[inline(always)]
fn is_at(path: &Path, nested: bool, n: usize) -> bool
    ensures { (result ≡ true) → path.now ≡ flat_path nested n }
{
    let path = path.as_slice();
    match nested {
        false => path.len() == 1 && path[0] as usize == n,
        true => path.len() == 2 && path[0] == 0 && path[1] as usize == n,
    }
}

/// The number of the next field.
fn read_number(
    mint: &Mint,
    nested: bool,
    ids: &NodeIds,
    values: &Values,
    off: u32,
    path: &Path,
    width: u32,
    order: Order,
    view: &RecvView<'_>,
) -> Read
    requires { Holds (word_got (get.Num off path.now width order) off path.now width order
        (read_so_far mint.now nested ids.now (map seen values.now)) (place_of view.now)) }
    ensures { Reads mint.now nested ids.now (map seen values.now) (place_of view.now)
        (word_got (get.Num off path.now width order) off path.now width order
        (read_so_far mint.now nested ids.now (map seen values.now)) (place_of view.now)) result }
{
    let at = values.len();
    let Some(id) = ids.get(at) else {
        return Read::Other;
    };
    if !is_width(width) {
        return Read::Other;
    }
    if !is_at(path, nested, at) {
        return Read::Other;
    }
    let m = view.load(off as usize, width as usize, order);
    match scalar_number(mint, *id, width, m) {
        Some(n) => Read::Number(n),
        None => Read::Refused,
    }
}

/// What a get reads.
fn read_get(
    mint: &Mint,
    nested: bool,
    ids: &NodeIds,
    values: &Values,
    get: &Get,
    view: &RecvView<'_>,
) -> Read
    requires { Holds (got get.now (read_so_far mint.now nested ids.now (map seen values.now))
        (place_of view.now)) }
    ensures { Reads mint.now nested ids.now (map seen values.now) (place_of view.now)
        (got get.now (read_so_far mint.now nested ids.now (map seen values.now)) (place_of view.now)) result }
{
    match get {
        Get::Num(off, path, width, order) => read_number(
            mint, nested, ids, values, *off, path, *width, *order, view,
        ),
        Get::Const(off, octets) => {
            match run_const(*off, octets, view) {
                true => Read::Passed,
                false => Read::Refused,
            }
        }
        Get::Tag(_, _, _, _) => Read::Other,
        Get::Flag(_, _, _, _) => Read::Other,
        Get::Count(_, _, _, _, _, _) => Read::Other,
    }
}

/// The numbers of all fields, where the gets read them in order.
#[tactic(auto, using(crate::proofs::Flattening::reading))]
fn read_fields(
    alloc: Global,
    mint: &Mint,
    nested: bool,
    ids: &NodeIds,
    gets: &Gets,
    view: &RecvView<'_>,
) -> Result<Option<Values>, Halt>
    requires { Holds (all_got gets.now (read_so_far mint.now nested ids.now []) (place_of view.now)) }
    ensures { ReadsAll nested (place_of view.now)
        (all_got gets.now (read_so_far mint.now nested ids.now []) (place_of view.now)) result }
{
    let mut values = Values::with_room(alloc, ids.len())?;
    for get in gets.as_slice() {
        match read_get(mint, nested, ids, &values, get, view) {
            Read::Number(n) => values.push(Value::Num(n))?,
            Read::Passed => {}
            Read::Refused => return Err(Halt::Refused),
            Read::Other => return Ok(None),
        }
    }
    if values.len() == ids.len() {
        Ok(Some(values))
    } else {
        Ok(None)
    }
}

/// A value that is the one field of a struct.
fn alone(alloc: Global, value: Value) -> Result<Value, NoMemory>
    ensures { IfOk result (λ v. seen v ≡ group (val (seen value) no_more)) }
{
    let mut values = Values::with_room(alloc, 1)?;
    values.push(value)?;
    Ok(Value::Group(values))
}

/// The value of a struct of numbers, where the gets read its fields in order.
fn read_struct(
    alloc: Global,
    mint: &Mint,
    nested: bool,
    ids: &NodeIds,
    gets: &Gets,
    view: &RecvView<'_>,
) -> Result<Option<Value>, Halt>
    requires { Holds (all_got gets.now (read_so_far mint.now nested ids.now []) (place_of view.now)) }
    ensures { ReadsWhole (place_of view.now)
        (all_got gets.now (read_so_far mint.now nested ids.now []) (place_of view.now)) result }
{
    match read_fields(alloc, mint, nested, ids, gets, view)? {
        Some(values) => {
            let value = Value::Group(values);
            match nested {
                false => Ok(Some(value)),
                true => Ok(Some(alone(alloc, value)?)),
            }
        }
        None => Ok(None),
    }
}

/// The fields of a node that is a struct.
fn struct_at(mint: &Mint, id: u32) -> Option<&NodeIds>
    ensures { IfSome result
        (λ ids. type_at mint.now id ≡ group_type (fields_at (unfolded mint.now) ids.now)) }
{
    let Some(node) = mint.node(id) else {
        return None;
    };
    match node {
        Node::Group(ids) => Some(ids),
        _ => None,
    }
}

/// The one node of a list of nodes.
fn only(ids: &NodeIds) -> Option<u32>
    ensures { IfSome result (λ id. ids.now ≡ id ∷ []) }
{
    let ids = ids.as_slice();
    match ids.len() {
        1 => Some(ids[0]),
        _ => None,
    }
}

/// The fields of the struct that a node is, or of its one field; and whether it is that.
fn fields_of(mint: &Mint, id: u32) -> Option<(bool, &NodeIds)>
    ensures { IfSome result
        (λ t. fresh (type_at mint.now id) ≡ read_so_far mint.now t.0 t.1.now []) }
{
    let Some(outer) = struct_at(mint, id) else {
        return None;
    };
    let Some(field) = only(outer) else {
        return Some((false, outer));
    };
    match struct_at(mint, field) {
        Some(inner) => Some((true, inner)),
        None => Some((false, outer)),
    }
}

/// The value of a node, where it is such a struct and the gets read its fields in order.
fn read_value(
    alloc: Global,
    mint: &Mint,
    gets: &Gets,
    id: u32,
    view: &RecvView<'_>,
) -> Result<Option<Value>, Halt>
    requires { Holds (all_got gets.now (fresh (type_at mint.now id)) (place_of view.now)) }
    ensures { ReadsWhole (place_of view.now)
        (all_got gets.now (fresh (type_at mint.now id)) (place_of view.now)) result }
{
    match fields_of(mint, id) {
        Some((nested, ids)) => read_struct(alloc, mint, nested, ids, gets, view),
        None => Ok(None),
    }
}

/// The value of a node by a take, with a draft.
fn take_drafted(
    alloc: Global,
    mint: &Mint,
    size: u32,
    gets: &Gets,
    id: u32,
    view: &mut RecvView<'_>,
) -> Result<Value, Halt>
    requires { Holds (take_run mint.now size gets.now id (place_of view.old)) }
    ensures done { Gave seen result (place_of view.new)
        (take_run mint.now size gets.now id (place_of view.old)) }
    ensures octets { view.new.octets ≡ view.old.octets }
{
    let mut draft = fresh(alloc, mint, id)?;
    if !run_take(mint, size, gets, &mut draft, view) {
        return Err(Halt::Refused);
    }
    let value = settle(alloc, mint, draft)?;
    Ok(value)
}

/// The value of a node by a take.
fn take_value(
    alloc: Global,
    mint: &Mint,
    size: u32,
    gets: &Gets,
    id: u32,
    view: &mut RecvView<'_>,
) -> Result<Value, Halt>
    requires { Holds (take_run mint.now size gets.now id (place_of view.old)) }
    ensures done { Gave seen result (place_of view.new)
        (take_run mint.now size gets.now id (place_of view.old)) }
    ensures octets { view.new.octets ≡ view.old.octets }
{
    match read_value(alloc, mint, gets, id, view)? {
        Some(value) => {
            view.take(size as usize);
            Ok(value)
        }
        None => take_drafted(alloc, mint, size, gets, id, view),
    }
}

/// The value of a node by a need, and a take after it.
pub fn run_flat(
    alloc: Global,
    mint: &Mint,
    wanted: u32,
    size: u32,
    gets: &Gets,
    id: u32,
    view: &mut RecvView<'_>,
) -> Result<Value, Halt>
    requires { Holds (flat_run mint.now wanted size gets.now id (place_of view.old)) }
    ensures done { Gave seen result (place_of view.new)
        (flat_run mint.now wanted size gets.now id (place_of view.old)) }
    ensures octets { view.new.octets ≡ view.old.octets }
{
    if !view.need(wanted as usize) {
        return Err(Halt::Refused);
    }
    take_value(alloc, mint, size, gets, id, view)
}
