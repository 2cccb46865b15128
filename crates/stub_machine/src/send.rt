//! A send code that is run as a whole.

ghost use Rattle.std.specs.Prelude.{◌≡◌, ◌≤◌, ◌<◌, ◌+◌, ◌++◌, length, option_map, Some, Err, OnOk};
ghost use Rattle.mint.specs.Values.{seen};
ghost use Rattle.raw_buf.specs.Buf.{NoneFell};
ghost use Rattle.cast_stub.specs.Meaning.{meaning, cost, AreCovered};
ghost use Rattle.cast_stub.specs.Subs.{sent_steps};
ghost use Rattle.kit_base.specs.Limits.{longest_message};
ghost use Rattle.stub_machine.specs.Sending.{paid, IsLong};

use crate::errors::SendErr;
use crate::operations::{Machine, run_block};
use cast_stub::{SendCode, deepest_call};
use kit_base::limits::LONGEST_MESSAGE;
use mint::value::Value;
use raw_buf::SendBuf;
use wire_def::Head;

/// Appends the octets that a code means for a value, at the code's cost.
///
/// After a refusal the buffer has some of them, and is fit for `clear`.
pub fn run_send(
    code: &SendCode,
    head: &Head,
    value: &Value,
    buf: &mut SendBuf,
) -> Result<(), SendErr>
    requires { AreCovered (sent_steps code.now head.now (seen value.now)) (length buf.old.done) }
    // What `Ok` holds.
    ensures done { OnOk result (option_map (λ o. buf.old.done ++ o)
        (meaning code.now head.now (seen value.now) (length buf.old.done)) ≡ Some buf.new.done) }
    ensures tally { OnOk result
        (option_map (paid buf.old.tally) (cost code.now head.now (seen value.now)) ≡ Some buf.new.tally) }
    ensures spent { OnOk result
        (option_map (paid buf.old.spent) (cost code.now head.now (seen value.now)) ≡ Some buf.new.spent) }
    ensures short { OnOk result (length buf.new.done ≤ longest_message) }
    // When each error comes.
    ensures memory { (result ≡ Err SendErr.NoMemory) → length buf.new.done ≤ longest_message }
    // What stays the same.
    ensures stands { NoneFell buf.old.spent buf.new.spent }
    // When the message is too long.
    ensures long { (result ≡ Err SendErr.Long)
        → IsLong (length buf.old.done) (meaning code.now head.now (seen value.now) (length buf.old.done)) }
{
    let machine = Machine {
        subs: &code.subs,
        head,
    };
    match run_block(&machine, deepest_call(), &code.ops, value, buf) {
        _ if buf.octets().len() > LONGEST_MESSAGE => Err(SendErr::Long),
        Ok(()) => Ok(()),
        Err(_) => Err(SendErr::NoMemory),
    }
}
