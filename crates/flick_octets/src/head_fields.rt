//! Fields of heads, whatever the back end.

use crate::entry::What;
use crate::sayings::{Sense, number_said, said_of};
use crate::sheet::{Halt, Sheet, Told};
use crate::texts::{decimal, digits, owned};
use head_kit::{Cursor, word};
use mint::kind::Kind;
use wire_def::Order;

/// A field of so many octets with a value. Where they are not all there, that is the fault.
pub(crate) fn tell_field(sheet: &mut Sheet<'_>, n: usize, name: &str, value: String) -> Told {
    if sheet.rest().len() < n {
        return Err(sheet.fault());
    }
    let alloc = sheet.alloc();
    let said = said_of(alloc, What::Head, name, String::new(alloc), value)?;
    sheet.tell(n, said)
}

/// A field of so many octets whose value has a name.
pub(crate) fn tell_named(sheet: &mut Sheet<'_>, n: usize, name: &str, value: &str) -> Told {
    let value = owned(sheet.alloc(), value)?;
    tell_field(sheet, n, name, value)
}

/// The number in the next four octets.
pub(crate) fn word_ahead(sheet: &Sheet<'_>, order: Order) -> Result<u32, Halt> {
    let at = Cursor {
        place: 0,
        rest: sheet.rest(),
    };
    match word(order, at) {
        Ok((n, _)) => Ok(n),
        Err(_) => Err(sheet.fault()),
    }
}

/// A number of four octets.
pub(crate) fn tell_word(sheet: &mut Sheet<'_>, order: Order, name: &str) -> Result<u32, Halt> {
    let n = word_ahead(sheet, order)?;
    let value = decimal(sheet.alloc(), n)?;
    tell_field(sheet, 4, name, value)?;
    Ok(n)
}

/// A number of four octets up to this one; any other is the fault.
pub(crate) fn tell_word_up_to(
    sheet: &mut Sheet<'_>,
    most: u32,
    order: Order,
    name: &str,
) -> Result<u32, Halt> {
    if word_ahead(sheet, order)? > most {
        return Err(sheet.fault());
    }
    tell_word(sheet, order, name)
}

/// This number in four octets, by its name; any other is the fault.
pub(crate) fn tell_this_word(
    sheet: &mut Sheet<'_>,
    n: u32,
    order: Order,
    name: &str,
    value: &str,
) -> Told {
    if word_ahead(sheet, order)? != n {
        return Err(sheet.fault());
    }
    tell_named(sheet, 4, name, value)
}

/// A number of four octets up to the last of its names; any other is the fault.
pub(crate) fn tell_choice(
    sheet: &mut Sheet<'_>,
    names: &[&str],
    order: Order,
    name: &str,
) -> Result<u32, Halt> {
    let n = word_ahead(sheet, order)?;
    match names.get(n as usize) {
        Some(value) => {
            tell_named(sheet, 4, name, *value)?;
            Ok(n)
        }
        None => Err(sheet.fault()),
    }
}

/// A length of four octets.
pub(crate) fn tell_length(sheet: &mut Sheet<'_>, order: Order, name: &str) -> Result<u32, Halt> {
    let n = word_ahead(sheet, order)?;
    let said = number_said(
        sheet.alloc(),
        name,
        Kind::U32,
        Sense::Length,
        Some(i128::from(n)),
    )?;
    sheet.tell(4, said)?;
    Ok(n)
}

/// So many octets of any content.
pub(crate) fn tell_octets(sheet: &mut Sheet<'_>, n: usize, name: &str) -> Told {
    let Some(octets) = sheet.rest().get(..n) else {
        return Err(sheet.fault());
    };
    if n == 0 {
        return Ok(());
    }
    let value = digits(sheet.alloc(), octets)?;
    tell_field(sheet, n, name, value)
}
