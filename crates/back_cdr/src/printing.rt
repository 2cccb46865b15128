//! The octets of heads whose size is not set yet.

ghost use Rattle.std.specs.Prelude.{◌≡◌, ◌++◌, IfOk, OnOk, length};
ghost use Rattle.giop_head.specs.Items.{flag};
ghost use Rattle.giop_head.specs.Printed as printed;
ghost use Rattle.giop_head.specs.Printed.{answer_octets, begun_octets, header_octets, request_octets, status_octets, user_octets};
ghost use Rattle.back_cdr.specs.Targets.{IsShort};

use aoi::FullName;
use cast_stub::Constant;
use kit_base::{NoMemory, Octets};
use kit_shared::Shared;
use std::alloc::Global;
use wire_def::Order;

/// The message type of requests.
const REQUEST: u8 = 0;

/// The message type of replies.
const REPLY: u8 = 1;

/// A number of octets as an unsigned long.
fn counted(octets: &[u8]) -> u32
    requires { IsShort octets.now }
    ensures { result ≡ length octets.now }
{
    octets.len() as u32
}

/// The header of a message.
fn header(alloc: Global, minor: u8, order: Order, message_type: u8) -> Result<Constant, NoMemory>
    ensures { IfOk result (λ o. o ≡ header_octets minor order message_type) }
{
    Ok(Constant::of(
        alloc,
        Octets::from_slice(alloc, &giop_head::header_octets(minor, order, message_type))?,
    ))
}

/// An unsigned long after other octets.
fn then_long(order: Order, n: u32, octets: Constant) -> Result<Constant, NoMemory>
    ensures { IfOk result (λ o. o ≡ printed.then_long order n octets) }
{
    let mut octets = octets;
    let zeros = [0u8; 4];
    let gap = ((4 - octets.len() % 4) % 4) as usize;
    octets.append(&zeros[..gap])?;
    octets.append(&giop_head::long_octets(order, n))?;
    Ok(octets)
}

/// A sequence of octets after others.
fn then_sequence(order: Order, piece: &[u8], octets: Constant) -> Result<Constant, NoMemory>
    requires { IsShort piece.now }
    ensures { IfOk result (λ o. o ≡ printed.then_sequence order piece.now octets) }
{
    let mut octets = then_long(order, counted(piece), octets)?;
    octets.append(piece)?;
    Ok(octets)
}

/// A sequence of octets, of which this is one more owner, after others.
fn then_shared_sequence(
    order: Order,
    piece: &Shared<Octets>,
    octets: Constant,
) -> Result<Constant, NoMemory>
    requires { IsShort piece.now }
    ensures { IfOk result (λ o. o ≡ printed.then_sequence order piece.now octets) }
{
    let mut octets = then_long(order, counted(piece.as_slice()), octets)?;
    octets.append_shared(piece)?;
    Ok(octets)
}

/// The number of a full name's octets as an unsigned long.
fn counted_full(name: &FullName) -> u32
    requires { IsShort name.now }
    ensures { result ≡ length name.now }
{
    let (prefix, own) = name.parts();
    (prefix.len() + own.len()) as u32
}

/// Appends a full name, of whose prefix this is one more owner.
fn append_full(octets: &mut Constant, name: &FullName) -> Result<(), NoMemory>
    ensures { OnOk result (octets.new ≡ octets.old ++ name.now) }
{
    let (prefix, own) = name.pieces();
    if let Some(prefix) = prefix {
        octets.append_shared(prefix)?;
    }
    octets.append(own)
}

/// A full name as a string, of whose prefix this is one more owner, after other octets.
fn then_full_string(order: Order, name: &FullName, octets: Constant) -> Result<Constant, NoMemory>
    requires { IsShort name.now }
    ensures { IfOk result (λ o. o ≡ printed.then_string order name.now octets) }
{
    let mut octets = then_long(order, counted_full(name) + 1, octets)?;
    append_full(&mut octets, name)?;
    octets.append(&[0])?;
    Ok(octets)
}

/// A string after other octets.
fn then_string(order: Order, piece: &[u8], octets: Constant) -> Result<Constant, NoMemory>
    requires { IsShort piece.now }
    ensures { IfOk result (λ o. o ≡ printed.then_string order piece.now octets) }
{
    let mut octets = then_long(order, counted(piece) + 1, octets)?;
    octets.append(piece)?;
    octets.append(&[0])?;
    Ok(octets)
}

/// The octet of a boolean.
fn flag(holds: bool) -> u8
    ensures { result ≡ flag holds }
{
    if holds { 1 } else { 0 }
}

/// The octets of an unsigned short.
fn short_octets(order: Order, n: u16) -> [u8; 2]
    ensures { result ≡ printed.short_octets order n }
{
    match order {
        Order::Big => n.to_be_bytes(),
        Order::Little => n.to_le_bytes(),
    }
}

/// An unsigned short after other octets.
fn then_short(order: Order, n: u16, octets: Constant) -> Result<Constant, NoMemory>
    ensures { IfOk result (λ o. o ≡ printed.then_short order n octets) }
{
    let mut octets = octets;
    let zeros = [0u8; 2];
    let gap = ((2 - octets.len() % 2) % 2) as usize;
    octets.append(&zeros[..gap])?;
    octets.append(&short_octets(order, n))?;
    Ok(octets)
}

/// The octet of response flags.
fn response_flags(wants: bool) -> u8
    ensures { result ≡ printed.response_flags wants }
{
    if wants { 3 } else { 0 }
}

// ---- what differs between versions

/// No service contexts, where they come before all other fields.
fn then_first(minor: u8, order: Order, octets: Constant) -> Result<Constant, NoMemory>
    ensures { IfOk result (λ o. o ≡ printed.then_first minor order octets) }
{
    if minor == 0 {
        then_long(order, 0, octets)
    } else {
        Ok(octets)
    }
}

/// No service contexts, where they come after the status of a reply.
fn then_last(minor: u8, order: Order, octets: Constant) -> Result<Constant, NoMemory>
    ensures { IfOk result (λ o. o ≡ printed.then_last minor order octets) }
{
    if minor == 0 {
        Ok(octets)
    } else {
        then_long(order, 0, octets)
    }
}

/// Whether a reply is wanted, after other octets.
fn then_wants(minor: u8, wants: bool, octets: Constant) -> Result<Constant, NoMemory>
    ensures { IfOk result (λ o. o ≡ printed.then_wants minor wants octets) }
{
    let mut octets = octets;
    if minor == 0 {
        octets.append(&[flag(wants)])?;
    } else {
        octets.append(&[response_flags(wants), 0, 0, 0])?;
    }
    Ok(octets)
}

/// A key as the target, after other octets.
fn then_target(minor: u8, order: Order, octets: Constant) -> Result<Constant, NoMemory>
    ensures { IfOk result (λ o. o ≡ printed.then_target minor order octets) }
{
    if minor == 0 {
        Ok(octets)
    } else {
        then_short(order, 0, octets)
    }
}

/// The last fields of a request's head, after other octets.
fn then_close(minor: u8, order: Order, octets: Constant) -> Result<Constant, NoMemory>
    ensures { IfOk result (λ o. o ≡ printed.then_close minor order octets) }
{
    if minor == 0 {
        then_sequence(order, &[], octets)
    } else {
        then_long(order, 0, octets)
    }
}

/// Zeros up to a multiple of 8, where a body follows in version 1.2.
fn then_gap(minor: u8, body: bool, octets: Constant) -> Result<Constant, NoMemory>
    ensures { IfOk result (λ o. o ≡ printed.then_gap minor body octets) }
{
    let mut octets = octets;
    if minor != 0 && body {
        let zeros = [0u8; 8];
        let gap = ((8 - octets.len() % 8) % 8) as usize;
        octets.append(&zeros[..gap])?;
    }
    Ok(octets)
}

// ---- heads

/// What comes before a key in a request, with 0 as its id.
fn begun(alloc: Global, minor: u8, order: Order, wants: bool) -> Result<Constant, NoMemory>
    ensures { IfOk result (λ o. o ≡ begun_octets minor order 0 wants) }
{
    let octets = header(alloc, minor, order, REQUEST)?;
    let octets = then_first(minor, order, octets)?;
    let octets = then_long(order, 0, octets)?;
    let octets = then_wants(minor, wants, octets)?;
    then_target(minor, order, octets)
}

/// The head of a request, with 0 as its id, which a body may follow.
#[tactic(auto, unfolding(giop_head::specs::Printed::request_octets))]
pub(crate) fn request(
    alloc: Global,
    minor: u8,
    body: bool,
    order: Order,
    wants: bool,
    key: &Shared<Octets>,
    name: &[u8],
) -> Result<Constant, NoMemory>
    requires key { IsShort key.now }
    requires name { IsShort name.now }
    ensures { IfOk result (λ o. o ≡ request_octets minor body order
        (record { id = 0; wants = wants; key = key.now; name = name.now })) }
{
    let octets = begun(alloc, minor, order, wants)?;
    let octets = then_shared_sequence(order, key, octets)?;
    let octets = then_string(order, name, octets)?;
    let octets = then_close(minor, order, octets)?;
    then_gap(minor, body, octets)
}

/// The head of a reply, up to what follows its status.
fn status(alloc: Global, minor: u8, order: Order, status: u32) -> Result<Constant, NoMemory>
    ensures { IfOk result (λ o. o ≡ status_octets minor order 0 status) }
{
    let octets = header(alloc, minor, order, REPLY)?;
    let octets = then_first(minor, order, octets)?;
    let octets = then_long(order, 0, octets)?;
    let octets = then_long(order, status, octets)?;
    then_last(minor, order, octets)
}

/// The head of an answer.
pub(crate) fn answer(alloc: Global, minor: u8, order: Order) -> Result<Constant, NoMemory>
    ensures { IfOk result (λ o. o ≡ answer_octets minor order 0) }
{
    status(alloc, minor, order, 0)
}

/// The head of a reply with a user exception.
pub(crate) fn user(
    alloc: Global,
    minor: u8,
    order: Order,
    exception: &FullName,
) -> Result<Constant, NoMemory>
    requires { IsShort exception.now }
    ensures { IfOk result (λ o. o ≡ user_octets minor order 0 exception.now) }
{
    let octets = status(alloc, minor, order, 1)?;
    then_full_string(order, exception, octets)
}
