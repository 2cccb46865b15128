//! What is lowered once for a table, before the codes of operations are made of it.

ghost use Rattle.std.specs.Prelude.{IfOk};
ghost use Rattle.stub_codes.specs.Backs.{encoding};
ghost use Rattle.stub_codes.specs.Lowered.{AreLowered, AreOthers, AreReceivers};

use crate::backs::{encoding_of, lower_recv, lower_send, other_of};
use cast_stub::{RecvSubs, SendSubs};
use kit_base::NoMemory;
use mint::table::Mint;
use std::alloc::Global;
use storage_class::{Classes, classify};
use wire_def::{Back, Encoding};

/// The codes of the nodes of a table over a back end, which call one another, and how long the nodes are.
#[derive(Drop)]
pub(crate) struct Lowered {
    /// The codes that send.
    pub(crate) sends: SendSubs,
    /// The lengths of what is sent.
    pub(crate) classes: Classes,
    /// The codes that receive, in the order of what is sent.
    pub(crate) recvs: RecvSubs,
    /// The codes that receive in the other order, which CDR alone has.
    pub(crate) others: Option<RecvSubs>,
}

/// The codes of the nodes of a table.
pub(crate) fn lower_all(alloc: Global, back: Back, mint: &Mint) -> Result<Lowered, NoMemory>
    ensures { IfOk result (λ low. AreLowered back mint.now low) }
{
    let enc = encoding_of(back);
    let sends = lower_send(alloc, enc, mint)?;
    let classes = classify(alloc, enc, mint)?;
    let recvs = receivers(alloc, enc, mint)?;
    let others = other_receivers(alloc, other_of(back), mint)?;
    Ok(Lowered {
        sends,
        classes,
        recvs,
        others,
    })
}

/// The codes that receive over an encoding.
fn receivers(alloc: Global, enc: Encoding, mint: &Mint) -> Result<RecvSubs, NoMemory>
    ensures { IfOk result (λ subs. AreReceivers enc mint.now subs) }
{
    lower_recv(alloc, enc, mint)
}

/// The codes that receive over another encoding, where there is one.
fn other_receivers(
    alloc: Global,
    other: Option<Encoding>,
    mint: &Mint,
) -> Result<Option<RecvSubs>, NoMemory>
    ensures { IfOk result (λ subs. AreOthers other mint.now subs) }
{
    match other {
        Some(enc) => Ok(Some(receivers(alloc, enc, mint)?)),
        None => Ok(None),
    }
}
