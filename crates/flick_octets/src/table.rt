//! The table of a message.

ghost use Rattle.std.specs.Prelude.{◌≡◌, ◌≤◌, Some, None, IfOk, length};
ghost use Rattle.flick_octets.specs.Laid.{laid};

use crate::entry::Entry;
use crate::sheet::Sheet;
use crate::stops::{Stop, Why};
use kit_base::NoMemory;
use std::alloc::Global;

/// What the octets of a message are, from the first up to the end or to where it stops.
#[derive(Drop)]
pub struct Table {
    /// The number of the operation, where the message names one.
    pub op: Option<u32>,
    /// The entries, in order: each octet up to the end of the table is in one of them.
    pub entries: Vec<Entry>,
    /// Where the table ends.
    pub end: usize,
    /// The first fault, where there is one.
    pub stop: Option<Stop>,
}

/// The table of entries over a message, up to where it stops.
pub(crate) fn table_of(
    sheet: Sheet<'_>,
    op: Option<u32>,
    stop: Option<Stop>,
    message: &[u8],
) -> Result<Table, NoMemory>
    ensures laid { IfOk result (λ t. laid 0 t.entries.items ≡ Some t.end) }
    ensures within { IfOk result (λ t. t.end ≤ length message.now) }
    ensures whole { IfOk result (λ t. t.stop ≡ None → t.end ≡ length message.now) }
{
    let end = end_of(&stop, message);
    let entries = sheet.closed(end)?;
    Ok(Table {
        op,
        entries,
        end,
        stop,
    })
}

/// The place up to which the octets of a message are told.
pub(crate) fn end_of(stop: &Option<Stop>, message: &[u8]) -> usize
    ensures within { result ≤ length message.now }
    ensures whole { stop.now ≡ None → result ≡ length message.now }
{
    match stop {
        Some(stop) => stop.at.min(message.len()),
        None => message.len(),
    }
}

/// The table of a message that is longer than any.
pub(crate) fn table_of_long(alloc: Global, message: &[u8]) -> Result<Table, NoMemory>
    ensures laid { IfOk result (λ t. laid 0 t.entries.items ≡ Some t.end) }
    ensures within { IfOk result (λ t. t.end ≤ length message.now) }
    ensures whole { IfOk result (λ t. t.stop ≡ None → t.end ≡ length message.now) }
{
    let stop = Some(Stop::new(Why::Long, 0));
    table_of(Sheet::new(alloc, message, 0), None, stop, message)
}
