//! What the fields of GIOP heads are made of (OMG CORBA, chapter GIOP, section on CDR).

use crate::body::{tell_end, tell_padding};
use crate::head_fields::{tell_choice, tell_field, tell_length, tell_octets, tell_word};
use crate::layout::to_multiple;
use crate::sheet::{Halt, Sheet, Told};
use crate::texts::quoted;
use wire_def::Order;

/// The octets up to a multiple of 2 or 4. Where they are not all there, the fault is behind them.
pub(crate) fn tell_gap(sheet: &mut Sheet<'_>, width: usize, name: &str) -> Told {
    let gap = to_multiple(width, sheet.end());
    let there = sheet.rest().len();
    if there < gap {
        let at = sheet.end().saturating_add(gap);
        tell_padding(sheet, there, name)?;
        return Err(Halt::At(at));
    }
    tell_padding(sheet, gap, name)
}

/// An unsigned long.
pub(crate) fn tell_long(sheet: &mut Sheet<'_>, order: Order, name: &str) -> Result<u32, Halt> {
    tell_gap(sheet, 4, name)?;
    tell_word(sheet, order, name)
}

/// An unsigned long up to the last of its names; any other is the fault.
pub(crate) fn tell_long_choice(
    sheet: &mut Sheet<'_>,
    names: &[&str],
    order: Order,
    name: &str,
) -> Result<u32, Halt> {
    tell_gap(sheet, 4, name)?;
    tell_choice(sheet, names, order, name)
}

/// A sequence of octets.
pub(crate) fn tell_sequence(sheet: &mut Sheet<'_>, order: Order, name: &str) -> Told {
    tell_gap(sheet, 4, name)?;
    let n = tell_length(sheet, order, name)?;
    tell_octets(sheet, n as usize, name)
}

/// A string; one without an octet 0 at its end, or with another one, is the fault.
pub(crate) fn tell_string(sheet: &mut Sheet<'_>, order: Order, name: &str) -> Told {
    tell_gap(sheet, 4, name)?;
    let n = tell_length(sheet, order, name)? as usize;
    let Some(octets) = sheet.rest().get(..n) else {
        return Err(sheet.fault());
    };
    let letters = octets.iter().take_while(|o| **o != 0).count();
    if letters.saturating_add(1) != n {
        return Err(sheet.fault());
    }
    if letters > 0 {
        tell_letters(sheet, letters, name)?;
    }
    tell_end(sheet, name)
}

/// So many characters, which are there.
fn tell_letters(sheet: &mut Sheet<'_>, n: usize, name: &str) -> Told {
    let Some(letters) = sheet.rest().get(..n) else {
        return Err(sheet.fault());
    };
    let value = quoted(sheet.alloc(), letters)?;
    tell_field(sheet, n, name, value)
}

/// The service contexts: their number, and for each an id and a sequence of octets.
pub(crate) fn tell_contexts(sheet: &mut Sheet<'_>, order: Order) -> Told {
    tell_gap(sheet, 4, "service_context")?;
    let n = tell_length(sheet, order, "service_context")?;
    for _ in 0..n {
        tell_long(sheet, order, "service_context.context_id")?;
        tell_sequence(sheet, order, "service_context.context_data")?;
    }
    Ok(())
}

/// The octets that lead up to a body: up to a multiple of 8, or to the message's end.
pub(crate) fn tell_lead(sheet: &mut Sheet<'_>) -> Told {
    let gap = to_multiple(8, sheet.end()).min(sheet.rest().len());
    tell_padding(sheet, gap, "body")
}
