//! The answers of `unmarshal`.

ghost use Rattle.std.specs.Prelude.{◌≡◌, ◌≢◌, ◌<◌, length, IfOk, OnOk, Ok, string_bytes};
ghost use Rattle.hex.specs.Hex.{encode_lower};
ghost use Rattle.mint.specs.Typed.{IsWellTyped};
ghost use Rattle.mint.specs.Values.{seen};
ghost use Rattle.flick_engine.specs.Messages.{request_type};
ghost use Rattle.flick_engine.specs.Received.{asked, ReadCall};
ghost use Rattle.flick_lines.specs.Unmarshalled.{head_name, kind_name, message_refusal, request_text, IsOfOctets, IsUnmarshalled};

use crate::text::copied;
use flick_engine::{Engine, MessageErr, Request};
use hex::FromHexError;
use json_shape::write_request;
use kit_base::{NoMemory, Octets};
use raw_buf::RecvView;
use std::alloc::Global;
use wire_def::{FaultKind, HeadErr};

/// The answer of `unmarshal` to a line, without its line feed.
pub fn unmarshal(alloc: Global, engine: &Engine, line: &[u8]) -> Result<Octets, NoMemory>
    ensures { IfOk result (λ o. IsUnmarshalled engine.now.binding line.now o) }
{
    match kit_digits::decode(alloc, line) {
        Ok(message) => of_octets(alloc, engine, message.as_slice()),
        Err(FromHexError::OutOfMemory) => Err(NoMemory),
        Err(_) => copied(alloc, b"! hex"),
    }
}

/// The answer to a message: that to the line of its digits.
pub fn record_of(alloc: Global, engine: &Engine, message: &[u8]) -> Result<Octets, NoMemory>
    ensures { IfOk result (λ o. IsUnmarshalled engine.now.binding (encode_lower message.now) o) }
{
    of_octets(alloc, engine, message)
}

/// The answer to a message.
fn of_octets(alloc: Global, engine: &Engine, message: &[u8]) -> Result<Octets, NoMemory>
    ensures { IfOk result (λ o.
        IsOfOctets (ReadCall engine.now.binding) (request_text engine.now.binding) (Ok message.now) o) }
{
    let mut view = RecvView::new(message);
    match engine.unmarshal(alloc, &mut view) {
        Ok(request) => copied(alloc, record_text(alloc, engine, &request)?.as_slice()),
        Err(refusal) => copied(alloc, refusal_text(alloc, refusal)?.as_bytes()),
    }
}

/// The record of a request as JSON without blanks: straight from its value, or by its tree.
fn record_text(alloc: Global, engine: &Engine, request: &Request) -> Result<Vec<u8>, NoMemory>
    requires op { request.now.op < length engine.now.binding.ops }
    requires typed { IsWellTyped (request_type engine.now.binding request.now.op) (seen request.now.value) }
    ensures { IfOk result (λ text. text.items ≡ request_text engine.now.binding (asked request.now)) }
{
    let bound = engine.bound();
    match json_shape::request_text(alloc, bound, request.op, &request.head, &request.value)? {
        Some(text) => Ok(text),
        None => by_tree(alloc, engine, request),
    }
}

/// The record of a request by its tree.
fn by_tree(alloc: Global, engine: &Engine, request: &Request) -> Result<Vec<u8>, NoMemory>
    requires op { request.now.op < length engine.now.binding.ops }
    requires typed { IsWellTyped (request_type engine.now.binding request.now.op) (seen request.now.value) }
    ensures { IfOk result (λ text. text.items ≡ request_text engine.now.binding (asked request.now)) }
{
    let record = write_request(
        alloc,
        engine.bound(),
        request.op,
        &request.head,
        &request.value,
    )?;
    Ok(record.to_vec(alloc)?)
}

/// The refusal of octets that are not a message.
pub(crate) fn refusal_text(alloc: Global, refusal: MessageErr) -> Result<String, NoMemory>
    ensures reported { IfOk result (λ s. string_bytes s ≡ message_refusal refusal) }
    ensures memory { OnOk result (refusal ≢ MessageErr.NoMemory) }
{
    let text = match refusal {
        MessageErr::Long => String::from_str(alloc, "! long")?,
        MessageErr::Head(fault) => format!(in alloc; "! head {}", head_name(fault))?,
        MessageErr::NoInterface => String::from_str(alloc, "! interface")?,
        MessageErr::NoOperation => String::from_str(alloc, "! operation")?,
        MessageErr::Body(fault) => format!(in alloc;
            "! body {} {}",
            kind_name(fault.kind),
            fault.at
        )?,
        MessageErr::Trailing(at) => format!(in alloc; "! trailing {at}")?,
        MessageErr::NoMemory => return Err(NoMemory),
    };
    Ok(text)
}

/// The word of a head's fault.
fn head_name(fault: HeadErr) -> &'static str
    ensures { result.now ≡ head_name fault }
{
    match fault {
        HeadErr::Short => "Short",
        HeadErr::Magic => "Magic",
        HeadErr::Version => "Version",
        HeadErr::Type_ => "Type",
        HeadErr::Size => "Size",
        HeadErr::Order => "Order",
        HeadErr::Pad => "Pad",
        HeadErr::Text => "Text",
        HeadErr::Cred => "Cred",
        HeadErr::Complex => "Complex",
        HeadErr::Item => "Item",
        HeadErr::Target => "Target",
    }
}

/// The word of a body's fault.
fn kind_name(kind: FaultKind) -> &'static str
    ensures { result.now ≡ kind_name kind }
{
    match kind {
        FaultKind::Short => "Short",
        FaultKind::OverBound => "OverBound",
        FaultKind::BadValue => "BadValue",
        FaultKind::BadPad => "BadPad",
        FaultKind::BadText => "BadText",
        FaultKind::BadItem => "BadItem",
    }
}
