//! The messages of lines, as they stand in a stream.

ghost use Rattle.std.specs.Prelude.{◌≡◌, ◌≤◌, length, Ok, IfOk, OnOk, List, ℕ};
ghost use Rattle.hex.specs.Hex.{decode_of, encode_lower};
ghost use Rattle.kit_base.specs.Limits.{longest_message};
ghost use Rattle.raw_buf.specs.Buf.{NoneFell};
ghost use Rattle.flick_lines.specs.declared.verb.Verb.TheVariants as verbs;
ghost use Rattle.flick_lines.specs.Sent.{SendsTo};
ghost use Rattle.flick_top.specs.Answer.{framed, IsPiped};

use crate::answered::Answered;
use flick_engine::Engine;
use flick_lines::message_of;
use json_shape::Scratch;
use kit_base::{NoMemory, Octets};
use raw_buf::SendBuf;
use std::alloc::Global;
use wire_def::Back;
use wire_frames::frame_head;

/// The message of a line, as it stands in a stream; nothing where the line is refused. The scratch is for reading.
pub fn piped(
    alloc: Global,
    engine: &Engine,
    line: &[u8],
    scratch: &mut Scratch,
    buf: &mut SendBuf,
) -> Result<Answered, NoMemory>
    ensures value { IfOk result (λ a. IsPiped engine.now line.now a.octets a.refused) }
    ensures sends { OnOk result (SendsTo verbs.Marshal engine.now line.now buf.old buf.new) }
    ensures spent { NoneFell buf.old.spent buf.new.spent }
{
    match message_of(alloc, engine, line, scratch, buf)? {
        Some(_) => Ok(Answered {
            octets: Octets::new(alloc),
            refused: true,
        }),
        None => Ok(Answered {
            octets: framed(alloc, engine.bound().back(), buf.octets())?,
            refused: false,
        }),
    }
}

/// A message as it stands in a stream.
fn framed(alloc: Global, back: Back, message: &[u8]) -> Result<Octets, NoMemory>
    requires { length message.now ≤ longest_message }
    ensures value { IfOk result (λ o. o ≡ framed back message.now) }
    ensures spelled { OnOk result (decode_of (encode_lower message.now) ≡ Ok message.now) }
{
    let mut out = Octets::with_room(alloc, message.len().saturating_add(4))?;
    if let Some(head) = frame_head(back, message.len() as u32) {
        out.append(&head)?;
    }
    out.append(message)?;
    Ok(out)
}
