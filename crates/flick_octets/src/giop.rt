//! The heads of GIOP messages, versions 1.0 and 1.2 (OMG CORBA, chapter GIOP).

use crate::giop_fields::{
    tell_contexts, tell_gap, tell_lead, tell_long, tell_long_choice, tell_sequence, tell_string,
};
use crate::head_fields::{tell_field, tell_named, tell_word, word_ahead};
use crate::sheet::{Halt, Sheet, Told};
use crate::texts::decimal;
use wire_def::Order;

/// The octets of a header.
const HEADER: usize = 12;

/// The names of the states of a reply.
const REPLY_STATES: [&str; 3] = ["NO_EXCEPTION", "USER_EXCEPTION", "SYSTEM_EXCEPTION"];

/// The names of how far an operation had come when a system exception was raised.
const COMPLETIONS: [&str; 3] = ["COMPLETED_YES", "COMPLETED_NO", "COMPLETED_MAYBE"];

/// What a header says.
#[derive(Clone, Copy)]
struct Heading {
    order: Order,
    minor: u8,
}

/// The next octet.
fn octet_ahead(sheet: &Sheet<'_>) -> Result<u8, Halt> {
    match sheet.rest().first() {
        Some(octet) => Ok(*octet),
        None => Err(sheet.fault()),
    }
}

/// The octet that says the order of octets, which is also that of the flags.
fn order_of(octet: u8) -> Option<(Order, &'static str)> {
    match octet {
        0 => Some((Order::Big, "0, the most significant octet first")),
        1 => Some((Order::Little, "1, the least significant octet first")),
        _ => None,
    }
}

/// The version's minor number, where it is one that is read.
fn tell_version(sheet: &mut Sheet<'_>) -> Result<u8, Halt> {
    let (minor, name) = match sheet.rest() {
        [1, 0, ..] => (0, "1.0"),
        [1, 2, ..] => (2, "1.2"),
        _ => return Err(sheet.fault()),
    };
    tell_named(sheet, 2, "GIOP_version", name)?;
    Ok(minor)
}

/// The order of the message's octets.
fn tell_order(sheet: &mut Sheet<'_>, minor: u8) -> Result<Order, Halt> {
    match order_of(octet_ahead(sheet)?) {
        Some((order, name)) => {
            let field = if minor == 0 { "byte_order" } else { "flags" };
            tell_named(sheet, 1, field, name)?;
            Ok(order)
        }
        None => Err(sheet.fault()),
    }
}

/// The header of a message of a type.
fn tell_header(sheet: &mut Sheet<'_>, expected: u8, name: &str) -> Result<Heading, Halt> {
    let size = sheet.total().saturating_sub(HEADER);
    if sheet.rest().len() < HEADER || !sheet.rest().starts_with(b"GIOP") {
        return Err(sheet.fault());
    }
    tell_named(sheet, 4, "magic", "GIOP")?;
    let minor = tell_version(sheet)?;
    let order = tell_order(sheet, minor)?;
    if octet_ahead(sheet)? != expected {
        return Err(sheet.fault());
    }
    tell_named(sheet, 1, "message_type", name)?;
    if word_ahead(sheet, order)? as usize != size {
        return Err(sheet.fault());
    }
    tell_word(sheet, order, "message_size")?;
    Ok(Heading { order, minor })
}

/// The head of a request.
pub(crate) fn tell_call_head(sheet: &mut Sheet<'_>) -> Told {
    let heading = tell_header(sheet, 0, "Request")?;
    let order = heading.order;
    if heading.minor == 0 {
        tell_contexts(sheet, order)?;
        tell_long(sheet, order, "request_id")?;
        tell_wanted(sheet)?;
        tell_sequence(sheet, order, "object_key")?;
        tell_string(sheet, order, "operation")?;
        tell_sequence(sheet, order, "requesting_principal")
    } else {
        tell_long(sheet, order, "request_id")?;
        tell_flags(sheet)?;
        tell_target(sheet, order)?;
        tell_sequence(sheet, order, "target.object_key")?;
        tell_string(sheet, order, "operation")?;
        tell_contexts(sheet, order)?;
        tell_lead(sheet)
    }
}

/// Whether a reply is wanted, in version 1.0.
fn tell_wanted(sheet: &mut Sheet<'_>) -> Told {
    let name = match octet_ahead(sheet)? {
        0 => "false",
        1 => "true",
        _ => return Err(sheet.fault()),
    };
    tell_named(sheet, 1, "response_expected", name)
}

/// Whether a reply is wanted, in version 1.2: bit 0 of four octets.
fn tell_flags(sheet: &mut Sheet<'_>) -> Told {
    if sheet.rest().len() < 4 {
        return Err(sheet.fault());
    }
    let flags = u32::from(octet_ahead(sheet)?);
    let value = decimal(sheet.alloc(), flags)?;
    tell_field(sheet, 1, "response_flags", value)?;
    tell_named(sheet, 3, "reserved", "")
}

/// The kind of a request's target, which is a key.
fn tell_target(sheet: &mut Sheet<'_>, order: Order) -> Told {
    tell_gap(sheet, 2, "target")?;
    let kind = match sheet.rest() {
        [a, b, ..] => match order {
            Order::Big => u16::from_be_bytes([*a, *b]),
            Order::Little => u16::from_le_bytes([*a, *b]),
        },
        _ => return Err(sheet.fault()),
    };
    if kind != 0 {
        return Err(sheet.fault());
    }
    tell_named(sheet, 2, "target", "0, KeyAddr")
}

/// The head of a reply.
pub(crate) fn tell_reply_head(sheet: &mut Sheet<'_>) -> Told {
    let heading = tell_header(sheet, 1, "Reply")?;
    let order = heading.order;
    if heading.minor == 0 {
        tell_contexts(sheet, order)?;
    }
    tell_long(sheet, order, "request_id")?;
    let status = tell_long_choice(sheet, &REPLY_STATES, order, "reply_status")?;
    if heading.minor != 0 {
        tell_contexts(sheet, order)?;
        tell_lead(sheet)?;
    }
    tell_detail(sheet, order, status)
}

/// What follows the status of a reply.
fn tell_detail(sheet: &mut Sheet<'_>, order: Order, status: u32) -> Told {
    if status == 0 {
        return Ok(());
    }
    tell_string(sheet, order, "exception_id")?;
    if status == 1 {
        return Ok(());
    }
    tell_long(sheet, order, "minor_code_value")?;
    tell_long_choice(sheet, &COMPLETIONS, order, "completion_status")?;
    Ok(())
}
