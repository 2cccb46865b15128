//! The code that receives the values of a node.

ghost use Rattle.std.specs.Prelude.{◌≡◌, ◌<◌, ℕ, length, IfOk};
ghost use Rattle.mint.specs.Types.{type_at};
ghost use Rattle.wire_def.specs.Places.{IsPlace};
ghost use Rattle.chunker.specs.Phases.{AtPhase, IsPhase};
ghost use Rattle.stub_codes.specs.Lowered.{AreOthers, AreReceivers};
ghost use Rattle.stub_codes.specs.Receiving.{Receives, ReceivesOther};

use cast_stub::{RecvCode, RecvSubs};
use chunker::{Phase, chunk_recv};
use copy_inline::{inline_recv, rows_recv};
use kit_base::NoMemory;
use kit_shared::Shared;
use mint::table::{Mint, NodeId};
use std::alloc::Global;
use wire_def::Encoding;

/// What is known of a position at which a value begins.
fn phase_of(enc: Encoding) -> Phase
    ensures phase { IsPhase result }
    ensures within { (p : ℕ) → AtPhase result p → IsPlace enc p }
    ensures all { (p : ℕ) → IsPlace enc p → AtPhase result p }
{
    match enc {
        Encoding::Xdr | Encoding::Mach => Phase { m: 4, r: 0 },
        Encoding::CdrBig | Encoding::CdrLittle => Phase { m: 1, r: 0 },
    }
}

/// The code that receives the values of a node over an encoding: inlined, its rows as blocks, with one test and one
/// take of what stands together.
pub(crate) fn receiving(
    alloc: Global,
    enc: Encoding,
    subs: &RecvSubs,
    mint: &Mint,
    id: NodeId,
) -> Result<RecvCode, NoMemory>
    requires id { id < length mint.now }
    requires subs { AreReceivers enc mint.now subs.now }
    ensures { IfOk result (λ code. Receives enc (type_at mint.now id) code) }
{
    mint.types_are_sound();
    let flat = inline_recv(alloc, subs, id)?;
    let rowed = rows_recv(alloc, enc, &flat, mint, id)?;
    chunk_recv(alloc, &rowed, phase_of(enc))
}

/// The same over another encoding, where there is one.
pub(crate) fn receiving_other(
    alloc: Global,
    other: Option<Encoding>,
    subs: &Option<RecvSubs>,
    mint: &Mint,
    id: NodeId,
) -> Result<Option<Shared<RecvCode>>, NoMemory>
    requires id { id < length mint.now }
    requires subs { AreOthers other mint.now subs.now }
    ensures { IfOk result (λ code. ReceivesOther other (type_at mint.now id) code) }
{
    match other {
        Some(enc) => match subs {
            Some(subs) => {
                let code = receiving(alloc, enc, subs, mint, id)?;
                Ok(Some(Shared::new(alloc, code)?))
            }
            None => unreachable!(),
        },
        None => Ok(None),
    }
}

/// One more owner of such code, where there is some.
pub(crate) fn shared_other(
    other: &Option<Shared<RecvCode>>,
) -> Result<Option<Shared<RecvCode>>, NoMemory>
    ensures { IfOk result (λ o. o ≡ other.now) }
{
    match other {
        Some(code) => Ok(Some(code.share()?)),
        None => Ok(None),
    }
}
