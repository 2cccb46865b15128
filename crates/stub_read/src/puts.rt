//! The puts of a chunk.

ghost use Rattle.std.specs.Prelude.{◌≡◌};
ghost use Rattle.stub_read.specs.Reading.{Gives};
ghost use Rattle.stub_read.specs.Operations.{layout_at, scalar_at, count_put_at, short_put_at, field_at, stored_at, put_at, bare_puts_at, puts_at};

use crate::StubErr;
use crate::leads::{PutLead, put_lead};
use crate::words::{after, begins, number, octets, order, past, path};
use cast_stub::{Constant, HeadField, Path, Put, Puts};
use std::alloc::Global;
use wire_def::Order;

/// A width and an order.
fn layout(text: &[u8]) -> Result<((u32, Order), &[u8]), StubErr>
    ensures { Gives (λ x. ((x.0.0, x.0.1), x.1.now)) result (layout_at text.now) }
{
    let (width, rest) = number(text, b" ")?;
    let (order, rest) = order(rest)?;
    Ok(((width, order), rest))
}

/// What is stored of a number of a value, behind its path.
fn scalar(alloc: Global, text: &[u8]) -> Result<((Path, (u32, Order)), &[u8]), StubErr>
    ensures { Gives (λ x. ((x.0.0, (x.0.1.0, x.0.1.1)), x.1.now)) result (scalar_at text.now) }
{
    let (path, rest) = path(alloc, text, b" ")?;
    let (layout, rest) = layout(rest)?;
    Ok(((path, layout), rest))
}

/// A length.
fn count(alloc: Global, off: u32, text: &[u8]) -> Result<(Put, &[u8]), StubErr>
    ensures { Gives (λ x. (x.0, x.1.now)) result (count_put_at off text.now) }
{
    let (path, rest) = path(alloc, text, b" ")?;
    let (factor, rest) = number(rest, b" ")?;
    let (summand, rest) = number(rest, b" ")?;
    let (layout, rest) = layout(rest)?;
    Ok((
        Put::Count(off, path, factor, summand, layout.0, layout.1),
        rest,
    ))
}

/// A short Mach descriptor.
fn short(alloc: Global, off: u32, text: &[u8]) -> Result<(Put, &[u8]), StubErr>
    ensures { Gives (λ x. (x.0, x.1.now)) result (short_put_at off text.now) }
{
    let (path, rest) = path(alloc, text, b" ")?;
    let (name, rest) = number(rest, b" ")?;
    let (size, rest) = number(rest, b" ")?;
    let (factor, rest) = number(rest, b"\n")?;
    Ok((Put::Short(off, path, name, size, factor), rest))
}

/// Which number of a head.
fn field(text: &[u8]) -> Result<(HeadField, &[u8]), StubErr>
    ensures { Gives (λ x. (x.0, x.1.now)) result (field_at text.now) }
{
    if begins(text, b"id ") {
        return Ok((HeadField::Id, &text[3..]));
    }
    if begins(text, b"remote ") {
        return Ok((HeadField::Remote, &text[7..]));
    }
    if begins(text, b"local ") {
        return Ok((HeadField::Local, &text[6..]));
    }
    Err(StubErr::Text)
}

/// What is stored at an offset.
fn stored(alloc: Global, off: u32, lead: PutLead, text: &[u8]) -> Result<(Put, &[u8]), StubErr>
    ensures { Gives (λ x. (x.0, x.1.now)) result (stored_at off lead text.now) }
{
    match lead {
        PutLead::Num => {
            let ((path, layout), rest) = scalar(alloc, text)?;
            Ok((Put::Num(off, path, layout.0, layout.1), rest))
        }
        PutLead::Tag => {
            let ((path, layout), rest) = scalar(alloc, text)?;
            Ok((Put::Tag(off, path, layout.0, layout.1), rest))
        }
        PutLead::Flag => {
            let ((path, layout), rest) = scalar(alloc, text)?;
            Ok((Put::Flag(off, path, layout.0, layout.1), rest))
        }
        PutLead::Count => count(alloc, off, text),
        PutLead::Short => short(alloc, off, text),
        PutLead::Const => {
            let (octets, rest) = octets(alloc, text)?;
            let rest = past(rest, b"\n")?;
            Ok((Put::Const(off, Constant::of(alloc, octets)), rest))
        }
        PutLead::Head => {
            let (field, rest) = field(text)?;
            let (layout, rest) = layout(rest)?;
            Ok((Put::Head(off, field, layout.0, layout.1), rest))
        }
    }
}

/// A put, after the word that begins its line.
fn put(alloc: Global, text: &[u8]) -> Result<(Put, &[u8]), StubErr>
    ensures { Gives (λ x. (x.0, x.1.now)) result (put_at text.now) }
{
    let (off, rest) = number(text, b" ")?;
    let Some((lead, rest)) = put_lead(rest) else {
        return Err(StubErr::Text);
    };
    stored(alloc, off, lead, rest)
}

/// As many puts as there are.
#[tactic(auto, using(crate::proofs::Loops::loops))]
fn bare_puts(alloc: Global, text: &[u8]) -> Result<(Puts, &[u8]), StubErr>
    ensures { Gives (λ x. (x.0, x.1.now)) result (bare_puts_at text.now) }
{
    let mut items = Puts::new(alloc);
    let mut rest = text;
    'items: for _ in 0..text.len() {
        let Some(led) = after(rest, b"at ") else {
            return Ok((items, rest));
        };
        let (item, tail) = put(alloc, led)?;
        items.push(item)?;
        rest = tail;
    }
    Ok((items, rest))
}

/// The puts of a chunk, and the line that ends it.
pub(crate) fn puts(alloc: Global, text: &[u8]) -> Result<(Puts, &[u8]), StubErr>
    ensures { Gives (λ x. (x.0, x.1.now)) result (puts_at text.now) }
{
    let (puts, rest) = bare_puts(alloc, text)?;
    let rest = past(rest, b"end\n")?;
    Ok((puts, rest))
}
