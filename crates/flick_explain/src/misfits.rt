//! `! value`: the path of the first part that presents no value of its type, and what is wanted there.

use crate::descent::{Step, step_at};
use crate::text::text_of;
use kit_base::NoMemory;
use mint::table::NodeId;
use pres::Bound;
use serde_json::Value as Json;
use std::alloc::Global;

/// More levels than any type has.
const LEVELS: u32 = 64;

/// Where the JSON of a part of a record first presents no value, and what is wanted there.
pub fn misfit(
    alloc: Global,
    bound: &Bound,
    part_name: &str,
    id: NodeId,
    json: &Json,
) -> Result<String, NoMemory> {
    let mut path = text_of(alloc, part_name)?;
    let mut node = id;
    let mut part = json;
    for _ in 0..LEVELS {
        match step_at(alloc, bound, node, part)? {
            Step::Into(piece, next, inner) => {
                path.push_str(piece.as_str())?;
                node = next;
                part = inner;
            }
            Step::Here(piece, wanted) => {
                return Ok(format!(in alloc; "{path}{piece}: {wanted}")?);
            }
        }
    }
    Ok(path)
}
