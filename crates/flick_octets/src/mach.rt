//! The heads of Mach messages.

use crate::body::tell_descriptor;
use crate::head_fields::{tell_word, tell_word_up_to, word_ahead};
use crate::sheet::{Sheet, Told};
use wire_def::Order;

/// The octets of a header.
const HEADER: usize = 24;

/// The least number that has bit 31.
const COMPLEX: u32 = 0x8000_0000;

/// The descriptor of a return code, and of the number of an arm.
const RETURN: u32 = 0x1001_2002;

/// The head of a request, which is a header alone; of a reply that has an id.
pub(crate) fn tell_header(sheet: &mut Sheet<'_>, id: Option<u32>) -> Told {
    if sheet.rest().len() < HEADER {
        return Err(sheet.fault());
    }
    if word_ahead(sheet, Order::Little)? >= COMPLEX {
        return Err(sheet.fault());
    }
    tell_word(sheet, Order::Little, "msgh_bits")?;
    if word_ahead(sheet, Order::Little)? as usize != sheet.total() {
        return Err(sheet.fault());
    }
    tell_word(sheet, Order::Little, "msgh_size")?;
    tell_word(sheet, Order::Little, "msgh_remote_port")?;
    tell_word(sheet, Order::Little, "msgh_local_port")?;
    tell_word(sheet, Order::Little, "msgh_seqno")?;
    tell_id(sheet, id)
}

/// The id, where it is any or this one.
fn tell_id(sheet: &mut Sheet<'_>, id: Option<u32>) -> Told {
    let found = word_ahead(sheet, Order::Little)?;
    if let Some(id) = id {
        if found != id {
            return Err(sheet.fault());
        }
    }
    tell_word(sheet, Order::Little, "msgh_id")?;
    Ok(())
}

/// The head of a reply that has an id, to a routine that raises so many exceptions.
pub(crate) fn tell_reply_head(sheet: &mut Sheet<'_>, id: u32, arms: u32) -> Told {
    tell_header(sheet, Some(id))?;
    tell_return(sheet, "RetCode")?;
    let code = tell_word(sheet, Order::Little, "RetCode")?;
    if code != 0 || arms == 0 {
        return Ok(());
    }
    tell_return(sheet, "exception")?;
    tell_word_up_to(sheet, arms, Order::Little, "exception")?;
    Ok(())
}

/// The descriptor of a return code, or of the number of an arm.
fn tell_return(sheet: &mut Sheet<'_>, name: &str) -> Told {
    if word_ahead(sheet, Order::Little)? != RETURN {
        return Err(sheet.fault());
    }
    tell_descriptor(sheet, 4, name)
}
