//! The heads of ONC calls (RFC 5531 section 9), and what replies have of them.

use crate::body::tell_padding;
use crate::head_fields::{
    tell_choice, tell_length, tell_octets, tell_this_word, tell_word, word_ahead,
};
use crate::layout::to_multiple;
use crate::sheet::{Sheet, Told};
use wire_def::Order;

/// The most octets that the body of credentials or of a verifier has.
const LONGEST_BODY: u32 = 400;

/// The names of a message's type.
const TYPES: [&str; 2] = ["CALL", "REPLY"];

/// The transaction id.
pub(crate) fn tell_xid(sheet: &mut Sheet<'_>) -> Told {
    tell_word(sheet, Order::Big, "xid")?;
    Ok(())
}

/// The message type, of the number of the messages that are expected.
pub(crate) fn tell_type(sheet: &mut Sheet<'_>, expected: u32) -> Told {
    if word_ahead(sheet, Order::Big)? != expected {
        return Err(sheet.fault());
    }
    tell_choice(sheet, &TYPES, Order::Big, "mtype")?;
    Ok(())
}

/// The head of a call.
pub(crate) fn tell_call_head(sheet: &mut Sheet<'_>) -> Told {
    tell_xid(sheet)?;
    tell_type(sheet, 0)?;
    tell_this_word(sheet, 2, Order::Big, "rpcvers", "2")?;
    tell_word(sheet, Order::Big, "prog")?;
    tell_word(sheet, Order::Big, "vers")?;
    tell_word(sheet, Order::Big, "proc")?;
    tell_auth(sheet, "cred.flavor", "cred.body")?;
    tell_auth(sheet, "verf.flavor", "verf.body")
}

/// Credentials or a verifier: a flavor, and a body with its padding.
pub(crate) fn tell_auth(sheet: &mut Sheet<'_>, flavor: &str, body: &str) -> Told {
    tell_word(sheet, Order::Big, flavor)?;
    if word_ahead(sheet, Order::Big)? > LONGEST_BODY {
        return Err(sheet.fault());
    }
    let n = tell_length(sheet, Order::Big, body)? as usize;
    tell_octets(sheet, n, body)?;
    tell_zeros(sheet, to_multiple(4, n), body)
}

/// So many octets of padding, each of them 0.
fn tell_zeros(sheet: &mut Sheet<'_>, n: usize, name: &str) -> Told {
    let zeros = sheet.rest().iter().take_while(|o| **o == 0).count();
    if zeros < n {
        tell_padding(sheet, zeros, name)?;
        return Err(sheet.fault());
    }
    tell_padding(sheet, n, name)
}
