//! JSON records of requests and replies, read and written again.

use crate::interfaces::{raising, silent};
use check_rows::{Bad, member};
use json_shape::{RecordErr, read_reply, read_request, write_reply, write_request};
use pres::Bound;
use serde_json::Value as Json;
use std::alloc::Global;
use wire_def::Outcome;

/// The text of a record, or why there is none.
fn text_of(alloc: Global, written: Result<Json, RecordErr>) -> Result<String, Bad> {
    match written {
        Ok(json) => match json.to_string(alloc) {
            Ok(text) => Ok(text),
            Err(_) => Err(Bad::NoMemory),
        },
        Err(RecordErr::NoMemory) => Err(Bad::NoMemory),
        Err(refusal) => Ok(format!(in alloc; "{refusal:?}")?),
    }
}

fn request_again(alloc: Global, bound: &Bound, json: &Json) -> Result<Json, RecordErr> {
    let record = read_request(alloc, bound, json)?;
    let json = write_request(alloc, bound, record.op, &record.head, &record.value)?;
    Ok(json)
}

fn reply_again(alloc: Global, bound: &Bound, json: &Json) -> Result<Json, RecordErr> {
    let record = read_reply(alloc, bound, json)?;
    let answer = Outcome::Answer(record.value);
    let json = write_reply(alloc, bound, record.op, &record.head, &answer)?;
    Ok(json)
}

/// The record that is written of a request that is read, over Mach.
pub fn request(alloc: Global, row: &Json) -> Result<String, Bad> {
    let bound = silent(alloc)?;
    text_of(alloc, request_again(alloc, &bound, member(row, "record")?))
}

/// The record that is written of a reply that is read, over CDR.
pub fn reply(alloc: Global, row: &Json) -> Result<String, Bad> {
    let bound = raising(alloc)?;
    text_of(alloc, reply_again(alloc, &bound, member(row, "record")?))
}
