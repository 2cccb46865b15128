//! The heads of ONC replies (RFC 5531 section 9).

use crate::head_fields::{tell_choice, tell_word, tell_word_up_to};
use crate::onc::{tell_auth, tell_type, tell_xid};
use crate::sheet::{Sheet, Told};
use wire_def::Order;

/// The names of the states of a reply.
const REPLY_STATES: [&str; 2] = ["MSG_ACCEPTED", "MSG_DENIED"];

/// The names of the states of an accepted call.
const ACCEPT_STATES: [&str; 6] = [
    "SUCCESS",
    "PROG_UNAVAIL",
    "PROG_MISMATCH",
    "PROC_UNAVAIL",
    "GARBAGE_ARGS",
    "SYSTEM_ERR",
];

/// The names of the reasons why a call is denied.
const REJECT_STATES: [&str; 2] = ["RPC_MISMATCH", "AUTH_ERROR"];

/// The head of a reply to a procedure that raises so many exceptions.
pub(crate) fn tell_reply_head(sheet: &mut Sheet<'_>, arms: u32) -> Told {
    tell_xid(sheet)?;
    tell_type(sheet, 1)?;
    if tell_choice(sheet, &REPLY_STATES, Order::Big, "reply_stat")? == 0 {
        tell_auth(sheet, "verf.flavor", "verf.body")?;
        tell_accepted(sheet, arms)
    } else {
        tell_denied(sheet)
    }
}

/// The state of an accepted call.
fn tell_accepted(sheet: &mut Sheet<'_>, arms: u32) -> Told {
    match tell_choice(sheet, &ACCEPT_STATES, Order::Big, "accept_stat")? {
        0 if arms > 0 => {
            tell_word_up_to(sheet, arms, Order::Big, "exception")?;
            Ok(())
        }
        2 => tell_versions(sheet),
        _ => Ok(()),
    }
}

/// Why a call was denied.
fn tell_denied(sheet: &mut Sheet<'_>) -> Told {
    if tell_choice(sheet, &REJECT_STATES, Order::Big, "reject_stat")? == 0 {
        return tell_versions(sheet);
    }
    tell_word(sheet, Order::Big, "auth_stat")?;
    Ok(())
}

/// The least and the greatest of some versions.
fn tell_versions(sheet: &mut Sheet<'_>) -> Told {
    tell_word(sheet, Order::Big, "mismatch_info.low")?;
    tell_word(sheet, Order::Big, "mismatch_info.high")?;
    Ok(())
}
