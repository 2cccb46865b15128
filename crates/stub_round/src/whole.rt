//! Lowered or inlined code that receives a node over any encoding, and its run.

ghost use Rattle.std.specs.Prelude.{◌<◌, ◌≤◌, ◌≡◌, length, drop, IfOk};
ghost use Rattle.kit_base.specs.Limits.{longest_message};
ghost use Rattle.mint.specs.Types.{type_at};
ghost use Rattle.wire_def.specs.Grammar.{AreOctets};
ghost use Rattle.wire_def.specs.Places.{IsPlace};
ghost use Rattle.cast_stub.specs.Got.{IsSoundCode};
ghost use Rattle.stub_receiver.specs.Ran.{IsSpelled};

use cast_stub::recv_copying::add;
use cast_stub::{Path, RecvCode, RecvOp, RecvOps};
use copy_inline::inline_recv;
use kit_base::NoMemory;
use mint::table::Mint;
use raw_buf::RecvView;
use std::alloc::Global;
use stub_lower::lower_recv;
use stub_receiver::{Got, run_recv};
use wire_def::Encoding;

/// The code that calls the code of a node.
pub fn lowered(alloc: Global, enc: Encoding, mint: &Mint, id: u32) -> Result<RecvCode, NoMemory>
    requires { id < length mint.now }
    ensures { IfOk result (λ code. IsSoundCode enc (type_at mint.now id) (IsPlace enc) code) }
{
    let subs = lower_recv(alloc, enc, mint)?;
    let mut ops = RecvOps::new(alloc);
    add(&mut ops, RecvOp::Call(id, Path::new(alloc)))?;
    Ok(RecvCode { ops, subs })
}

/// The code of a node without calls.
pub fn inlined(alloc: Global, enc: Encoding, mint: &Mint, id: u32) -> Result<RecvCode, NoMemory>
    requires { id < length mint.now }
    ensures { IfOk result (λ code. IsSoundCode enc (type_at mint.now id) (IsPlace enc) code) }
{
    mint.types_are_sound();
    let subs = lower_recv(alloc, enc, mint)?;
    inline_recv(alloc, &subs, id)
}

/// The same octets.
fn octets_of(octets: &[u8]) -> &[u8]
    ensures same { result.now ≡ octets.now }
    ensures octets { AreOctets result.now }
{
    &octets[0..]
}

/// The octets that are left, and that there are at least as many as the place says.
fn rest_of<'a>(view: &RecvView<'a>) -> &'a [u8]
    ensures octets { AreOctets (drop view.now.pos view.now.octets) }
    ensures within { view.now.pos ≤ length view.now.octets }
{
    let _pos = view.pos();
    octets_of(view.rest())
}

/// Receives a value of a node's type, by code that is sound over the encoding.
pub fn receive(
    alloc: Global,
    _enc: Encoding,
    code: &RecvCode,
    mint: &Mint,
    id: u32,
    view: &mut RecvView<'_>,
) -> Result<Got, NoMemory>
    requires sound { IsSoundCode _enc (type_at mint.now id) (IsPlace _enc) code.now }
    requires place { IsPlace _enc view.old.pos }
    requires short { length view.old.octets ≤ longest_message }
    ensures spelled { IfOk result (λ got. IsSpelled _enc (type_at mint.now id) got view.old view.new) }
    ensures octets { view.new.octets ≡ view.old.octets }
{
    let _rest = rest_of(view);
    run_recv(alloc, code, mint, id, view)
}
