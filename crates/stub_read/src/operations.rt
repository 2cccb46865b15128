//! Operations with their bodies.

ghost use Rattle.std.specs.Prelude.{◌≡◌};
ghost use Rattle.stub_read.specs.Reading.{Gives};
ghost use Rattle.stub_read.specs.Operations.{ensure_row_at, row_wide_at, call_at, patch_at, chunk_at, over_at, cases_at, last_at, switch_at, op_at, ops_at};

use crate::StubErr;
use crate::leads::{Lead, operation_lead};
use crate::puts::puts;
use crate::words::{after, begins, integer, number, order, past, path};
use cast_stub::copies::case_of;
use cast_stub::{Path, SendCases, SendOp, SendOps};
use std::alloc::Global;

/// The room of a row.
fn ensure_row(alloc: Global, text: &[u8]) -> Result<(SendOp, &[u8]), StubErr>
    ensures { Gives (λ x. (x.0, x.1.now)) result (ensure_row_at text.now) }
{
    let (path, rest) = path(alloc, text, b" ")?;
    let (unit, rest) = number(rest, b" ")?;
    let (extra, rest) = number(rest, b"\n")?;
    Ok((SendOp::EnsureRow(path, unit, extra), rest))
}

/// A chunk, where one more level is there.
fn chunk(alloc: Global, levels: u32, text: &[u8]) -> Result<(SendOp, &[u8]), StubErr>
    ensures { Gives (λ x. (x.0, x.1.now)) result (chunk_at levels text.now) }
{
    if levels == 0 {
        return Err(StubErr::Text);
    }
    let (size, rest) = number(text, b"\n")?;
    let (puts, rest) = puts(alloc, rest)?;
    Ok((SendOp::Chunk(size, puts), rest))
}

/// Numbers of a row in four octets each.
fn row_wide(alloc: Global, text: &[u8]) -> Result<(SendOp, &[u8]), StubErr>
    ensures { Gives (λ x. (x.0, x.1.now)) result (row_wide_at text.now) }
{
    let (path, rest) = path(alloc, text, b" ")?;
    let (order, rest) = order(rest)?;
    Ok((SendOp::RowWide(path, order), rest))
}

/// A call.
fn call(alloc: Global, text: &[u8]) -> Result<(SendOp, &[u8]), StubErr>
    ensures { Gives (λ x. (x.0, x.1.now)) result (call_at text.now) }
{
    let (k, rest) = number(text, b" ")?;
    let (path, rest) = path(alloc, rest, b"\n")?;
    Ok((SendOp::Call(k, path), rest))
}

/// A patch.
fn patch(text: &[u8]) -> Result<(SendOp, &[u8]), StubErr>
    ensures { Gives (λ x. (x.0, x.1.now)) result (patch_at text.now) }
{
    let (at, rest) = number(text, b" ")?;
    let (sub, rest) = number(rest, b" ")?;
    let (order, rest) = order(rest)?;
    Ok((SendOp::Patch(at, sub, order), rest))
}

/// Operations, up to a line that is none, within one level less than so many.
#[cycle(reading)]
pub(crate) fn ops(alloc: Global, levels: u32, text: &[u8]) -> Result<(SendOps, &[u8]), StubErr>
    ensures { Gives (λ x. (x.0, x.1.now)) result (ops_at levels text.now) }
{
    if levels == 0 {
        return Err(StubErr::Text);
    }
    let mut items = SendOps::new(alloc);
    let mut rest = text;
    'items: for _ in 0..text.len() {
        let Some((lead, led)) = operation_lead(rest) else {
            return Ok((items, rest));
        };
        let (item, tail) = op(alloc, levels - 1, lead, led)?;
        items.push(item)?;
        rest = tail;
    }
    Ok((items, rest))
}

/// A path and the body after it.
#[cycle(reading)]
fn over(alloc: Global, levels: u32, text: &[u8]) -> Result<((Path, SendOps), &[u8]), StubErr>
    ensures { Gives (λ x. ((x.0.0, x.0.1), x.1.now)) result (over_at (ops_at levels) text.now) }
{
    let (path, rest) = path(alloc, text, b"\n")?;
    let (body, rest) = ops(alloc, levels, rest)?;
    let rest = past(rest, b"end\n")?;
    Ok(((path, body), rest))
}

/// The bodies of numbers.
#[cycle(reading)]
fn cases(alloc: Global, levels: u32, text: &[u8]) -> Result<(SendCases, &[u8]), StubErr>
    ensures { Gives (λ x. (x.0, x.1.now)) result (cases_at (ops_at levels) text.now) }
{
    let mut items = SendCases::new(alloc);
    let mut rest = text;
    'items: for _ in 0..text.len() {
        let Some(led) = after(rest, b"case ") else {
            return Ok((items, rest));
        };
        let (n, behind) = integer(led, b"\n")?;
        let (body, tail) = ops(alloc, levels, behind)?;
        items.push(case_of(&n, body))?;
        rest = tail;
    }
    Ok((items, rest))
}

/// The body of every other number, if there is one, and the line that ends a switch.
#[cycle(reading)]
fn last(alloc: Global, levels: u32, text: &[u8]) -> Result<(Option<SendOps>, &[u8]), StubErr>
    ensures { Gives (λ x. (x.0, x.1.now)) result (last_at (ops_at levels) text.now) }
{
    if begins(text, b"default\n") {
        let (body, rest) = ops(alloc, levels, &text[8..])?;
        let rest = past(rest, b"end\n")?;
        return Ok((Some(body), rest));
    }
    let rest = past(text, b"end\n")?;
    Ok((None, rest))
}

/// A switch, where one more level is there.
#[cycle(reading)]
fn switch(alloc: Global, levels: u32, text: &[u8]) -> Result<(SendOp, &[u8]), StubErr>
    ensures { Gives (λ x. (x.0, x.1.now)) result (switch_at levels (ops_at levels) text.now) }
{
    if levels == 0 {
        return Err(StubErr::Text);
    }
    let (path, rest) = path(alloc, text, b"\n")?;
    let (bodies, rest) = cases(alloc, levels, rest)?;
    let (other, rest) = last(alloc, levels, rest)?;
    Ok((SendOp::switch(alloc, path, bodies, other)?, rest))
}

/// An operation, after its first word, with so many levels for its bodies.
#[cycle(reading)]
fn op(alloc: Global, levels: u32, lead: Lead, text: &[u8]) -> Result<(SendOp, &[u8]), StubErr>
    ensures { Gives (λ x. (x.0, x.1.now)) result (op_at levels (ops_at levels) lead text.now) }
{
    match lead {
        Lead::Ensure => {
            let (n, rest) = number(text, b"\n")?;
            Ok((SendOp::Ensure(n), rest))
        }
        Lead::EnsureRow => ensure_row(alloc, text),
        Lead::Align => {
            let (a, rest) = number(text, b"\n")?;
            Ok((SendOp::Align(a), rest))
        }
        Lead::Chunk => chunk(alloc, levels, text),
        Lead::RowCopy => {
            let (path, rest) = path(alloc, text, b"\n")?;
            Ok((SendOp::RowCopy(path), rest))
        }
        Lead::RowSwap => {
            let (path, rest) = path(alloc, text, b"\n")?;
            Ok((SendOp::RowSwap(path), rest))
        }
        Lead::RowWide => row_wide(alloc, text),
        Lead::Each => {
            let ((path, body), rest) = over(alloc, levels, text)?;
            Ok((SendOp::Each(path, body), rest))
        }
        Lead::Switch => switch(alloc, levels, text),
        Lead::There => {
            let ((path, body), rest) = over(alloc, levels, text)?;
            Ok((SendOp::Some(path, body), rest))
        }
        Lead::Call => call(alloc, text),
        Lead::Patch => patch(text),
    }
}
