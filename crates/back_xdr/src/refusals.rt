//! The replies that refuse a call.

ghost use Rattle.std.specs.Prelude.{◌≡◌, ◌≤◌, [], ◌++◌, length, Some, OnErr, OnOk};
ghost use Rattle.raw_buf.specs.Buf.{NoneFell};
ghost use Rattle.raw_buf.specs.Words.{words};
ghost use Rattle.back_xdr.specs.Refusals.{IsOwn, refusal_octets};

use kit_base::NoMemory;
use raw_buf::SendBuf;
use wire_def::{Head, Refusal};

/// Writes the reply that refuses a call into an empty buffer, with an empty verifier. Where memory runs
/// out, the buffer is as it was.
pub fn put_refusal(refusal: &Refusal, head: &Head, buf: &mut SendBuf) -> Result<(), NoMemory>
    requires empty { buf.old.done ≡ [] }
    requires own { IsOwn refusal.now }
    ensures ok { OnOk result (refusal_octets head.now.id refusal.now ≡ Some buf.new.done) }
    ensures err { OnErr result (buf.new ≡ buf.old) }
    ensures spent { NoneFell buf.old.spent buf.new.spent }
{
    let id = head.id;
    match refusal {
        Refusal::ProgUnavail => put_words(&[id, 1, 0, 0, 0, 1], buf),
        Refusal::ProgMismatch(low, high) => put_words(&[id, 1, 0, 0, 0, 2, *low, *high], buf),
        Refusal::ProcUnavail => put_words(&[id, 1, 0, 0, 0, 3], buf),
        Refusal::GarbageArgs => put_words(&[id, 1, 0, 0, 0, 4], buf),
        Refusal::SystemErr => put_words(&[id, 1, 0, 0, 0, 5], buf),
        Refusal::RpcMismatch(low, high) => put_words(&[id, 1, 1, 0, *low, *high], buf),
        Refusal::AuthError(why) => put_words(&[id, 1, 1, 1, *why], buf),
        Refusal::SystemException(_, _, _) => unreachable!(),
        Refusal::UserException(_) => unreachable!(),
        Refusal::RetCode(_) => unreachable!(),
    }
}

/// Puts words into space that it ensures.
fn put_words(numbers: &[u32], buf: &mut SendBuf) -> Result<(), NoMemory>
    requires { length numbers.now ≤ 8 }
    ensures ok { OnOk result (buf.new.done ≡ buf.old.done ++ words numbers.now) }
    ensures err { OnErr result (buf.new ≡ buf.old) }
    ensures spent { NoneFell buf.old.spent buf.new.spent }
{
    buf.ensure(4 * numbers.len())?;
    buf.put_words(numbers);
    Ok(())
}
