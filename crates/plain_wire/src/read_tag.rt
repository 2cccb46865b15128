//! Discriminants from octets, with the arm that is theirs (RFC 4506 section 4.15).

ghost use Rattle.std.specs.Prelude.{◌≡◌, ◌≤◌, IfOk, Some};
ghost use Rattle.kit_base.specs.Limits.{longest_message};
ghost use Rattle.mint.specs.Arms.{arm_found};
ghost use Rattle.mint.specs.Types.{number, scalar_of};
ghost use Rattle.wire_def.specs.declared.encoding.Encoding.TheVariants.{Mach};
ghost use Rattle.wire_def.specs.declared.fault.FaultKind.TheVariants.{BadValue};
ghost use Rattle.wire_def.specs.Scalars.{read_scalar, scalar_place};
ghost use Rattle.wire_def.specs.Lone.{filling, read_pass, scalar_word};
ghost use Rattle.plain_wire.specs.Readers.{Reads, itself, lists, number_of_tag, read_armed};

use crate::cursor::{Cursor, Taken, stop};
use crate::read_described::{descriptor, fills_up};
use crate::read_scalar::{label_at, number_at};
use crate::widths::gap_of;
use mint::kind::Kind;
use mint::node::{Arms, Tag, arm_of};
use wire_def::{Encoding, FaultKind};

/// The kind that a discriminant travels as.
fn kind_of(tag: &Tag) -> Kind
    ensures word { scalar_word (number result) ≡ scalar_word (scalar_of tag.now) }
    ensures filled { filling (number result) ≡ filling (scalar_of tag.now) }
{
    match tag {
        Tag::Num(kind) => *kind,
        Tag::Enum(_) => Kind::I32,
    }
}

/// The number of a discriminant, after its gap.
fn scalar<'a>(enc: Encoding, tag: &Tag, at: Cursor<'a>) -> Taken<'a, i128>
    ensures { Reads itself result (read_scalar enc (scalar_of tag.now) at.entry.place at.entry.rest.now) }
{
    match tag {
        Tag::Num(kind) => number_at(enc, *kind, at),
        Tag::Enum(labels) => label_at(enc, labels, at),
    }
}

/// Where the number of a discriminant begins, after its gap.
#[tactic(auto, using(crate::proofs::Words::labels))]
fn scalar_at(enc: Encoding, tag: &Tag, place: usize) -> usize
    requires { place ≤ longest_message }
    ensures { result ≡ scalar_place enc (scalar_of tag.now) place }
{
    match tag {
        Tag::Num(kind) => place + gap_of(enc, *kind, place),
        Tag::Enum(_) => place + gap_of(enc, Kind::I32, place),
    }
}

/// A discriminant's number without a descriptor, and the node of its arm.
#[tactic(auto, using(crate::proofs::Reading::tags))]
fn tag_here<'a>(
    enc: Encoding,
    tag: &Tag,
    arms: &Arms,
    other: Option<u32>,
    at: Cursor<'a>,
) -> Taken<'a, (i128, u32)>
    ensures arm { IfOk result (λ x. arm_found arms.now other x.0.0 ≡ Some x.0.1) }
    ensures read { Reads number_of_tag result
        (read_armed enc (scalar_of tag.now) arms.now other at.entry.place at.entry.rest.now) }
{
    let (n, next) = scalar(enc, tag, at)?;
    match arm_of(arms, other, &n) {
        Some(item) => Ok(((n, item), next)),
        None => Err(stop(FaultKind::BadValue, scalar_at(enc, tag, at.place))),
    }
}

/// The item of a discriminant, whose arm is looked for before what fills the item up.
fn tag_item<'a>(
    tag: &Tag,
    arms: &Arms,
    other: Option<u32>,
    at: Cursor<'a>,
) -> Taken<'a, (i128, u32)>
    ensures arm { IfOk result (λ x. arm_found arms.now other x.0.0 ≡ Some x.0.1) }
    ensures read { Reads number_of_tag result (read_pass Mach (scalar_of tag.now) (lists arms.now other)
        BadValue at.entry.place at.entry.rest.now) }
{
    let kind = kind_of(tag);
    let ((), start) = descriptor(kind, at)?;
    let (found, next) = tag_here(Encoding::Mach, tag, arms, other, start)?;
    let ((), last) = fills_up(kind, next)?;
    Ok((found, last))
}

/// A discriminant's number, and the node of its arm.
#[tactic(auto, using(crate::proofs::Reading::passes))]
pub(crate) fn tag_with_arm<'a>(
    enc: Encoding,
    tag: &Tag,
    arms: &Arms,
    other: Option<u32>,
    at: Cursor<'a>,
) -> Taken<'a, (i128, u32)>
    ensures arm { IfOk result (λ x. arm_found arms.now other x.0.0 ≡ Some x.0.1) }
    ensures read { Reads number_of_tag result
        (read_pass enc (scalar_of tag.now) (lists arms.now other) BadValue at.entry.place at.entry.rest.now) }
{
    match enc {
        Encoding::Mach => tag_item(tag, arms, other, at),
        _ => tag_here(enc, tag, arms, other, at),
    }
}
