//! The records of lines in the usual form.

ghost use Rattle.std.specs.Prelude.{◌≡◌, ◌<◌, length, true, slice_get, IfOk, IfSome, IsUtf8, OnErr};
ghost use Rattle.mint.specs.Typed.{IsWellTyped};
ghost use Rattle.mint.specs.Types.{type_at};
ghost use Rattle.mint.specs.Values.{seen};
ghost use Rattle.json_shape.specs.Replies.{reply_of};
ghost use Rattle.json_shape.specs.Requests.{request_of};
ghost use Rattle.flick_lines.specs.Usual.{IsUsual};

use flick_engine::Engine;
use json_shape::{RequestRec, Scratch, direct_reply, direct_request};
use kit_base::NoMemory;
use std::alloc::Global;

/// The request of a line in the usual form. `None` says nothing of the line, which may have a request all the same.
pub(crate) fn usual_of(
    alloc: Global,
    engine: &Engine,
    line: &[u8],
    scratch: &mut Scratch,
) -> Result<Option<RequestRec>, NoMemory>
    ensures memory { OnErr result (IsUtf8 line.now) }
    ensures request { IfOk result (λ o. IfSome o (λ r. IsUsual (request_of engine.now.binding) line.now r)) }
    ensures op { IfOk result (λ o. IfSome o (λ r. r.op < length engine.now.binding.ops)) }
    ensures typed { IfOk result (λ o. IfSome o (λ r. IfSome (slice_get engine.now.binding.ops r.op)
        (λ op. IsWellTyped (type_at engine.now.binding.nodes op.request) (seen r.value)))) }
{
    match str::from_utf8(line) {
        Ok(text) => direct_request(alloc, engine.bound(), text, scratch),
        Err(_) => Ok(None),
    }
}

/// The reply of a line in the usual form. `None` says nothing of the line, which may have a reply all the same.
pub(crate) fn usual_reply(
    alloc: Global,
    engine: &Engine,
    line: &[u8],
    scratch: &mut Scratch,
) -> Result<Option<RequestRec>, NoMemory>
    ensures memory { OnErr result (IsUtf8 line.now) }
    ensures reply { IfOk result (λ o. IfSome o (λ r. IsUsual (reply_of engine.now.binding) line.now r)) }
    ensures op { IfOk result (λ o. IfSome o (λ r. r.op < length engine.now.binding.ops)) }
    ensures answered { IfOk result (λ o. IfSome o (λ r. IfSome (slice_get engine.now.binding.ops r.op)
        (λ op. op.has_reply ≡ true))) }
    ensures typed { IfOk result (λ o. IfSome o (λ r. IfSome (slice_get engine.now.binding.ops r.op)
        (λ op. IsWellTyped (type_at engine.now.binding.nodes op.reply) (seen r.value)))) }
{
    match str::from_utf8(line) {
        Ok(text) => direct_reply(alloc, engine.bound(), text, scratch),
        Err(_) => Ok(None),
    }
}
