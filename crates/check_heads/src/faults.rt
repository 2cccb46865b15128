//! The faults of heads, as answers.

use check_rows::Bad;
use std::alloc::Global;
use wire_def::HeadErr;

/// The name of a fault.
pub fn fault_of(alloc: Global, fault: HeadErr) -> Result<String, Bad> {
    Ok(format!(in alloc; "{fault:?}")?)
}
