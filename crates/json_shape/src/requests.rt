//! Request records.

ghost use Rattle.std.specs.Prelude.{◌≡◌, ◌<◌, length, not, codes, slice_get, IfOk, IfSome, Ok};
ghost use Rattle.mint.specs.Typed.{IsWellTyped};
ghost use Rattle.mint.specs.Types.{type_at};
ghost use Rattle.mint.specs.Values.{seen};
ghost use Rattle.pres.specs.Faces.{face_at};
ghost use Rattle.serde_json.specs.View.{view};
ghost use Rattle.json_shape.specs.Members.{number_at, head_key};
ghost use Rattle.json_shape.specs.Operations.{is_oneway};
ghost use Rattle.json_shape.specs.Records.{Comes};
ghost use Rattle.json_shape.specs.Requests.{is_request, head_of, is_idle_port, is_unanswered, request_of};

use crate::errors::{RecordErr, ShapeErr};
use crate::members::{
    has_request_keys, head_key, head_number, is_list, is_mach, is_text, number_at, text_at,
};
use crate::operations::{is_oneway, op_named};
use crate::reading::to_value;
use crate::records::RequestRec;
use mint::table::NodeId;
use pres::{Bound, Op};
use serde_json::Value as Json;
use std::alloc::Global;
use wire_def::{Back, Head, Order};

/// The request that a record presents.
pub fn read_request(alloc: Global, bound: &Bound, json: &Json) -> Result<RequestRec, RecordErr>
    ensures comes { Comes (request_of bound.now (view json.now)) result }
    ensures op { IfOk result (λ r. r.op < length bound.now.ops) }
    ensures typed { IfOk result (λ r. IfSome (slice_get bound.now.ops r.op)
        (λ o. IsWellTyped (type_at bound.now.nodes o.request) (seen r.value))) }
{
    if !is_request(bound.back(), json) {
        return Err(RecordErr::Request);
    }
    let Some((number, op)) = op_named(bound, text_at(json, "op"))? else {
        return Err(RecordErr::Op);
    };
    if is_unanswered(bound.back(), op, json) {
        return Err(RecordErr::Head);
    }
    let head = head_in(bound, number, json);
    match json.get("args") {
        Some(args) => finish(alloc, bound, number, head, op.request, args),
        None => {
            let none = Json::Array(Vec::new(alloc));
            finish(alloc, bound, number, head, op.request, &none)
        }
    }
}

/// Whether the JSON is a request record.
fn is_request(back: Back, json: &Json) -> bool
    ensures { result ≡ is_request back (view json.now) }
{
    has_request_keys(back, json)
        && is_text(json.get("op"))
        && is_list(json.get("args"))
        && head_number(json.get(head_key(back))).is_some()
        && head_number(json.get("local")).is_some()
}

/// Whether the record has a port for a reply that never comes.
fn is_unanswered(back: Back, op: &Op, json: &Json) -> bool
    ensures { result ≡ is_unanswered back op.now (view json.now) }
{
    is_mach(back) && is_idle_port(op, number_at(json, "local"))
}

/// Whether a port is one for a reply that never comes.
pub(crate) fn is_idle_port(op: &Op, port: u32) -> bool
    ensures { result ≡ is_idle_port op.now port }
{
    !op.has_reply && port != 0
}

/// A head from its numbers, and whether a reply is awaited.
pub(crate) fn head_of(back: Back, id: u32, local: u32, wants: bool) -> Head
    ensures { result ≡ head_of back id local wants }
{
    let order = match back {
        Back::CdrLittle => Order::Little,
        Back::Xdr | Back::CdrBig | Back::Mach => Order::Big,
    };
    match back {
        Back::Mach => Head {
            id: 0,
            remote: id,
            local,
            wants: true,
            order,
        },
        Back::Xdr => Head {
            id,
            remote: 0,
            local: 0,
            wants: true,
            order,
        },
        Back::CdrBig | Back::CdrLittle => Head {
            id,
            remote: 0,
            local: 0,
            wants,
            order,
        },
    }
}

/// The head of a request record for an operation.
fn head_in(bound: &Bound, number: u32, json: &Json) -> Head
    ensures { result ≡ head_of bound.now.back (number_at (head_key bound.now.back) (view json.now))
        (number_at (codes "local") (view json.now)) (not (is_oneway bound.now number)) }
{
    let back = bound.back();
    let id = number_at(json, head_key(back));
    head_of(
        back,
        id,
        number_at(json, "local"),
        !is_oneway(bound, number),
    )
}

/// The record whose operation and head are known, of the value that the JSON presents.
pub(crate) fn finish(
    alloc: Global,
    bound: &Bound,
    op: u32,
    head: Head,
    node: NodeId,
    json: &Json,
) -> Result<RequestRec, RecordErr>
    requires { node < length bound.now.nodes }
    ensures op { IfOk result (λ r. r.op ≡ op) }
    ensures typed { IfOk result (λ r. IsWellTyped (type_at bound.now.nodes node) (seen r.value)) }
    ensures comes { Comes (Ok (record {
      op = op;
      head = head;
      face = face_at bound.now.nodes bound.now.shapes node;
      tree = view json.now;
    })) result }
{
    match to_value(alloc, bound, node, json) {
        Ok(value) => Ok(RequestRec { op, head, value }),
        Err(ShapeErr::Shape) => Err(RecordErr::Shape),
        Err(ShapeErr::NoMemory) => Err(RecordErr::NoMemory),
    }
}
