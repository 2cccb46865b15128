//! The answer to a line.

ghost use Rattle.std.specs.Prelude.{◌≡◌, true, IfOk, OnOk};
ghost use Rattle.raw_buf.specs.Buf.{NoneFell};
ghost use Rattle.flick_lines.specs.Sent.{SendsTo};
ghost use Rattle.flick_lines.specs.Verbs.{IsAnswerTo};

use crate::counted::count;
use crate::marshalled::marshal;
use crate::replied::reply;
use crate::unmarshalled::unmarshal;
use crate::unreplied::unreply;
use crate::verb::Verb;
use flick_engine::Engine;
use json_shape::Scratch;
use kit_base::{NoMemory, Octets};
use raw_buf::SendBuf;
use std::alloc::Global;

/// The answer of a verb to the octets of a line, without its line feed. Messages are made in the buffer, and the
/// scratch is for reading.
pub fn answer(
    alloc: Global,
    verb: Verb,
    engine: &Engine,
    text: &[u8],
    scratch: &mut Scratch,
    buf: &mut SendBuf,
) -> Result<Octets, NoMemory>
    requires answers { (verb ≡ Verb.Reply) → engine.now.answers ≡ true }
    ensures value { IfOk result (λ o. IsAnswerTo verb engine.now text.now o) }
    ensures spent { NoneFell buf.old.spent buf.new.spent }
    ensures sends { OnOk result (SendsTo verb engine.now text.now buf.old buf.new) }
{
    match verb {
        Verb::Marshal => marshal(alloc, engine, text, scratch, buf),
        Verb::Unmarshal => unmarshal(alloc, engine, text),
        Verb::Reply => reply(alloc, engine, text, scratch, buf),
        Verb::Unreply => unreply(alloc, engine, text),
        Verb::Count => count(alloc, engine, text, scratch, buf),
    }
}
