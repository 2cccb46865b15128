//! The replies that refuse a request.

ghost use Rattle.std.specs.Prelude.{◌≡◌, [], Some, OnErr, OnOk};
ghost use Rattle.raw_buf.specs.Buf.{NoneFell};
ghost use Rattle.back_mach.specs.Refusals.{IsOwn, refusal_octets};

use crate::putting::{MOVE_SEND_ONCE, put_words, reply_id};
use crate::reply::RETURN;
use kit_base::NoMemory;
use raw_buf::SendBuf;
use wire_def::{Head, Refusal};

/// Writes the reply that refuses the request with an id into an empty buffer. Where memory runs
/// out, the buffer is as it was.
pub fn put_refusal(
    refusal: &Refusal,
    head: &Head,
    id: u32,
    buf: &mut SendBuf,
) -> Result<(), NoMemory>
    requires empty { buf.old.done ≡ [] }
    requires own { IsOwn refusal.now }
    ensures ok { OnOk result (refusal_octets id head.now.remote refusal.now ≡ Some buf.new.done) }
    ensures err { OnErr result (buf.new ≡ buf.old) }
    ensures spent { NoneFell buf.old.spent buf.new.spent }
{
    match refusal {
        Refusal::RetCode(code) => {
            buf.ensure(32)?;
            let numbers = [
                MOVE_SEND_ONCE,
                32,
                head.remote,
                0,
                0,
                reply_id(id),
                RETURN,
                code.cast_unsigned(),
            ];
            put_words(&numbers, buf);
            Ok(())
        }
        _ => unreachable!(),
    }
}
