//! Request records, written straight from their values.

ghost use Rattle.std.specs.Prelude.{◌≡◌, ◌<◌, length, slice_get, IfOk, IfSome, OnOk};
ghost use Rattle.mint.specs.Values.{seen};
ghost use Rattle.serde_json.specs.Written.{compact_text};
ghost use Rattle.json_shape.specs.Requests.{request_json};
ghost use Rattle.json_shape.specs.Printed.{head_after, head_before, tokens_of, word_tokens, Adds};

use crate::errors::Halt;
use crate::operations::dotted;
use crate::printed_scalars::put_string;
use crate::printing::print;
use json::Writer;
use kit_base::NoMemory;
use mint::value::Value;
use pres::{Bound, Op};
use std::alloc::Global;
use wire_def::{Back, Head};

/// The octets that a text has room for at first.
pub(crate) const ROOM: usize = 128;

/// The text of a request's record, without blanks, unless it is to be written by its tree: a struct has more than 32
/// fields.
pub fn request_text(
    alloc: Global,
    bound: &Bound,
    op: u32,
    head: &Head,
    value: &Value,
) -> Result<Option<Vec<u8>>, NoMemory>
    requires { op < length bound.now.ops }
    ensures { IfOk result (λ t. IfSome t (λ text. IfSome (slice_get bound.now.ops op)
        (λ o. text.items ≡ compact_text (request_json bound.now o head.now (seen value.now))))) }
{
    let Some(operation) = bound.ops().get(op as usize) else {
        unreachable!()
    };
    match text_of_record(alloc, bound, operation, head, value) {
        Ok(text) => Ok(Some(text)),
        Err(Halt::Fallback) => Ok(None),
        Err(Halt::NoMemory) => Err(NoMemory),
    }
}

/// The text of the record of an operation's request.
fn text_of_record(
    alloc: Global,
    bound: &Bound,
    op: &Op,
    head: &Head,
    value: &Value,
) -> Result<Vec<u8>, Halt>
    requires { op.now.request < length bound.now.nodes }
    ensures { IfOk result (λ text. text.items
        ≡ compact_text (request_json bound.now op.now head.now (seen value.now))) }
{
    let mut out = Writer::new(Vec::with_capacity(alloc, ROOM)?);
    put_record(alloc, bound, op, head, value, &mut out)?;
    Ok(out.into_inner())
}

/// Writes a record, its members in the order of their keys.
fn put_record(
    alloc: Global,
    bound: &Bound,
    op: &Op,
    head: &Head,
    value: &Value,
    out: &mut Writer,
) -> Result<(), Halt>
    requires { op.now.request < length bound.now.nodes }
    ensures { OnOk result (Adds out.old out.new
        (tokens_of (request_json bound.now op.now head.now (seen value.now)))) }
{
    out.begin_object()?;
    out.key("args")?;
    print(alloc, bound, op.request, value, out)?;
    put_before(bound.back(), head, out)?;
    out.key("op")?;
    let name = dotted(alloc, bound.unit().interfaces().as_slice(), op)?;
    put_string(alloc, name.as_slice(), out)?;
    put_after(bound.back(), head, out)?;
    out.end_object()?;
    Ok(())
}

/// Writes the head number whose key is before `op`.
fn put_before(back: Back, head: &Head, out: &mut Writer) -> Result<(), Halt>
    ensures { OnOk result (Adds out.old out.new (head_before back head.now)) }
{
    match back {
        Back::Xdr => Ok(()),
        Back::CdrBig | Back::CdrLittle => put_word("id", head.id, out),
        Back::Mach => put_word("local", head.local, out),
    }
}

/// Writes the head number whose key is after `op`.
pub(crate) fn put_after(back: Back, head: &Head, out: &mut Writer) -> Result<(), Halt>
    ensures { OnOk result (Adds out.old out.new (head_after back head.now)) }
{
    match back {
        Back::Xdr => put_word("xid", head.id, out),
        Back::CdrBig | Back::CdrLittle => Ok(()),
        Back::Mach => put_word("remote", head.remote, out),
    }
}

/// Writes a member with a head number.
#[tactic(auto, using(crate::proofs::Adding::adding))]
pub(crate) fn put_word(key: &str, n: u32, out: &mut Writer) -> Result<(), Halt>
    ensures { OnOk result (Adds out.old out.new (word_tokens key.now n)) }
{
    out.key(key)?;
    out.u64(u64::from(n))?;
    Ok(())
}
