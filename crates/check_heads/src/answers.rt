//! What is asked of a row.

use crate::{giop, mach, records, refusals};
use check_rows::{Answers, Bad, member};
use serde_json::Value as Json;
use std::alloc::Global;

/// What is asked of a row, by the member `ask`.
#[derive(Clone, Copy)]
enum Ask {
    /// What the head of a GIOP message says that asks something.
    GiopCall,
    /// What the head of a GIOP reply says.
    GiopReply,
    /// The octets of the GIOP reply that refuses a request.
    GiopRefuse,
    /// The octets of the GIOP reply to a request whose target is no key.
    GiopAddressing,
    /// What the head of a request over Mach says.
    MachCall,
    /// What the head of a reply over Mach says.
    MachReply,
    /// The octets of the reply that refuses a request over Mach.
    MachRefuse,
    /// The record of a request, read and written again.
    RecordRequest,
    /// The record of a reply, read and written again.
    RecordReply,
}

/// What these words ask, if they ask something.
fn ask_of(words: &str) -> Option<Ask> {
    match words {
        "giop call" => Some(Ask::GiopCall),
        "giop reply" => Some(Ask::GiopReply),
        "giop refuse" => Some(Ask::GiopRefuse),
        "giop addressing" => Some(Ask::GiopAddressing),
        "mach call" => Some(Ask::MachCall),
        "mach reply" => Some(Ask::MachReply),
        "mach refuse" => Some(Ask::MachRefuse),
        "record request" => Some(Ask::RecordRequest),
        "record reply" => Some(Ask::RecordReply),
        _ => None,
    }
}

/// What a row asks.
fn asked(row: &Json) -> Result<Ask, Bad> {
    let Some(words) = member(row, "ask")?.as_str() else {
        return Err(Bad::Row("nothing is asked"));
    };
    match ask_of(words) {
        Some(ask) => Ok(ask),
        None => Err(Bad::Row("nothing is asked")),
    }
}

/// The answer to what is asked of a row.
fn answer_to(alloc: Global, row: &Json, ask: Ask) -> Result<String, Bad> {
    match ask {
        Ask::GiopCall => giop::call(alloc, row),
        Ask::GiopReply => giop::reply(alloc, row),
        Ask::GiopRefuse => refusals::refused(alloc, row),
        Ask::GiopAddressing => refusals::addressed(alloc, row),
        Ask::MachCall => mach::call(alloc, row),
        Ask::MachReply => mach::reply(alloc, row),
        Ask::MachRefuse => mach::refused(alloc, row),
        Ask::RecordRequest => records::request(alloc, row),
        Ask::RecordReply => records::reply(alloc, row),
    }
}

/// The rows of heads and of records.
pub struct Rows;

impl Answers for Rows {
    fn answer(alloc: Global, row: &Json) -> Result<String, Bad> {
        let ask = asked(row)?;
        answer_to(alloc, row, ask)
    }
}
