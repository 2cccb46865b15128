//! The code that sends the messages of a head and of the values of a node.

ghost use Rattle.std.specs.Prelude.{◌≡◌, ◌<◌, ◌++◌, length, IfOk, OnOk};
ghost use Rattle.mint.specs.Types.{type_at};
ghost use Rattle.stub_lower.specs.Leads.{AreChunks};
ghost use Rattle.stub_codes.specs.Lowered.{AreLowered, IsBody};
ghost use Rattle.stub_codes.specs.Sending.{IsWhole, SendsAfter};
ghost use Rattle.stub_codes.specs.Held.{code_of};

use crate::backs::{encoding_of, put_tail};
use crate::lowered::Lowered;
use cast_stub::copies::put_copies;
use cast_stub::{SendCode, SendOps, SendSubs};
use chunker::{Phase, chunk};
use copy_inline::rows;
use hoist::hoist;
use kit_base::NoMemory;
use mint::table::{Mint, NodeId};
use std::alloc::Global;
use wire_def::Back;

/// Code without calls that a message's code is made of.
#[derive(Drop)]
pub(crate) enum Body<'a> {
    /// Code that is made for this message alone.
    Own(SendCode),
    /// Code that is kept for other messages too.
    Kept(&'a SendCode),
}

/// Puts all operations after those of `out`.
fn put_all(ops: SendOps, out: &mut SendOps) -> Result<(), NoMemory>
    ensures { OnOk result (out.new ≡ out.old ++ ops) }
{
    for op in ops.into_items() {
        out.push(op)?;
    }
    Ok(())
}

/// Puts the operations of a head and of a body, the body's as copies where it is kept.
fn put_both(alloc: Global, lead: SendOps, body: Body<'_>, out: &mut SendOps) -> Result<(), NoMemory>
    ensures { OnOk result (out.new ≡ (out.old ++ lead) ++ (code_of body.entry).ops) }
{
    put_all(lead, out)?;
    match body {
        Body::Own(code) => put_all(code.ops, out),
        Body::Kept(code) => put_copies(alloc, &code.ops, out),
    }
}

/// How many operations the code of a head and of a body has, with one that states the length.
fn room_of(lead: &SendOps, body: &Body<'_>) -> usize {
    let many = match body {
        Body::Own(code) => code.ops.len(),
        Body::Kept(code) => code.ops.len(),
    };
    lead.len().saturating_add(many).saturating_add(1)
}

/// The operations of a head, those of a body, and what states the length.
#[tactic(auto, using(crate::proofs::Wholes::wholes))]
fn whole(alloc: Global, back: Back, lead: SendCode, body: Body<'_>) -> Result<SendCode, NoMemory>
    ensures { IfOk result (λ code. IsWhole back lead (code_of body.entry) code) }
{
    let mut ops = SendOps::with_room(alloc, room_of(&lead.ops, &body))?;
    put_both(alloc, lead.ops, body, &mut ops)?;
    put_tail(back, &mut ops)?;
    Ok(SendCode {
        ops,
        subs: SendSubs::new(alloc),
    })
}

/// The code that sends the messages of a head and of the values of a node, from code without calls: its room ensured, its
/// rows as blocks, neighbouring stores in one chunk.
pub(crate) fn sending_of(
    alloc: Global,
    back: Back,
    lead: SendCode,
    body: Body<'_>,
    low: &Lowered,
    mint: &Mint,
    id: NodeId,
) -> Result<SendCode, NoMemory>
    requires id { id < length mint.now }
    requires lowered { AreLowered back mint.now low.now }
    requires chunks { AreChunks lead }
    requires body { IsBody low.now.sends id (code_of body) }
    ensures { IfOk result (λ code. SendsAfter back lead (type_at mint.now id) code) }
{
    mint.types_are_sound();
    let given = whole(alloc, back, lead, body)?;
    let code = hoist(alloc, given, mint, id, &low.classes)?;
    let rowed = rows(alloc, encoding_of(back), code, mint, id)?;
    chunk(alloc, rowed, Phase { m: 8, r: 0 })
}

/// The code that sends the messages of a head and of the values of a node, from code that is made for it alone.
pub(crate) fn sending(
    alloc: Global,
    back: Back,
    lead: SendCode,
    body: SendCode,
    low: &Lowered,
    mint: &Mint,
    id: NodeId,
) -> Result<SendCode, NoMemory>
    requires id { id < length mint.now }
    requires lowered { AreLowered back mint.now low.now }
    requires chunks { AreChunks lead }
    requires body { IsBody low.now.sends id body }
    ensures { IfOk result (λ code. SendsAfter back lead (type_at mint.now id) code) }
{
    sending_of(alloc, back, lead, Body::Own(body), low, mint, id)
}
