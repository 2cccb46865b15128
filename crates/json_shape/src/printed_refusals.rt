//! Refusals, written straight from what they say.

ghost use Rattle.std.specs.Prelude.{OnOk};
ghost use Rattle.serde_json.specs.Data.{array};
ghost use Rattle.json_shape.specs.Replies.{refusal_json, refusal_says};
ghost use Rattle.json_shape.specs.Printed.{tokens_of, tokens_of_items, Adds};

use crate::errors::Halt;
use crate::printed_scalars::put_string;
use crate::written_records::refusal_name;
use json::Writer;
use std::alloc::Global;
use wire_def::Refusal;

/// Writes the array of a refusal's name, and of what it says.
#[tactic(auto, using(crate::proofs::Adding::adding))]
pub(crate) fn put_refusal(alloc: Global, why: &Refusal, out: &mut Writer) -> Result<(), Halt>
    ensures { OnOk result (Adds out.old out.new (tokens_of (array (refusal_json why.now)))) }
{
    out.begin_array()?;
    out.string(refusal_name(why))?;
    put_says(alloc, why, out)
}

/// Writes what a refusal says, and the end of the array.
#[tactic(auto, using(crate::proofs::Adding::integers))]
fn put_says(alloc: Global, why: &Refusal, out: &mut Writer) -> Result<(), Halt>
    ensures { OnOk result (Adds out.old out.new (tokens_of_items (refusal_says why.now))) }
{
    match why {
        Refusal::ProgUnavail | Refusal::ProcUnavail | Refusal::GarbageArgs | Refusal::SystemErr => {
            out.end_array()?;
        }
        Refusal::ProgMismatch(low, high) | Refusal::RpcMismatch(low, high) => {
            out.u64(u64::from(*low))?;
            out.u64(u64::from(*high))?;
            out.end_array()?;
        }
        Refusal::AuthError(status) => {
            out.u64(u64::from(*status))?;
            out.end_array()?;
        }
        Refusal::SystemException(id, minor, completion) => {
            put_string(alloc, id.as_slice(), out)?;
            out.u64(u64::from(*minor))?;
            out.u64(u64::from(*completion))?;
            out.end_array()?;
        }
        Refusal::UserException(id) => {
            put_string(alloc, id.as_slice(), out)?;
            out.end_array()?;
        }
        Refusal::RetCode(code) => {
            out.i64(i64::from(*code))?;
            out.end_array()?;
        }
    }
    Ok(())
}
