//! The span of each node, from those of the nodes before it.

ghost use Rattle.std.specs.Prelude.{◌≡◌, ◌<◌, length, IfOk};
ghost use Rattle.mint.specs.Types.{type_at, unfolded, fields_at, arms_at, AreBelow, ArmsBelow, IsBelow};
ghost use Rattle.storage_class.specs.Spans.{span, fields_span, arms_span, AreSpans, AreClasses};

use crate::arrays::{items, octets, row};
use crate::classes::Classes;
use crate::scalars::{label_span, number_span, tag_span};
use crate::span::Span;
use kit_base::NoMemory;
use mint::kind::Kind;
use mint::node::{Arms, Node, NodeIds};
use mint::table::{Mint, NodeId};
use std::alloc::Global;
use wire_def::Encoding;

/// The span of each node of a table over an encoding, in one step for each node and each child.
pub fn classify(alloc: Global, enc: Encoding, mint: &Mint) -> Result<Classes, NoMemory>
    ensures encoding { IfOk result (λ c. c.enc ≡ enc) }
    ensures spans { IfOk result (λ c. AreClasses mint.now c) }
{
    let mut classes = Classes::new(alloc, enc);
    for id in 0..mint.len() {
        let span = node_span(enc, mint, &classes, id as NodeId);
        classes.push(span)?;
    }
    Ok(classes)
}

/// The span of the node after those whose spans are known.
fn node_span(enc: Encoding, mint: &Mint, known: &Classes, id: NodeId) -> Span
    requires id { id < length mint.now }
    requires all { length known.now.spans ≡ id }
    requires known { AreSpans enc mint.now known.now.spans }
    ensures { result ≡ span enc (type_at mint.now id) }
{
    let Some(node) = mint.node(id) else {
        unreachable!()
    };
    match node {
        Node::Void => Span::Fixed([0; 8]),
        Node::Num(kind) => number_span(enc, *kind),
        Node::Enum(labels) => label_span(enc, labels),
        Node::Text(count) => octets(enc, *count),
        Node::Row(kind, count) => row(enc, *kind, *count),
        Node::Group(ids) => fields_span(enc, mint, known, ids),
        Node::Items(item, count) => items(enc, *count, known.span(*item)),
        Node::Choice(tag, arms, other) => {
            tag_span(enc, tag).after(arms_span(enc, mint, known, arms, *other))
        }
        Node::Maybe(item) => number_span(enc, Kind::Bool).after(known.span(*item).loose()),
    }
}

/// The span of fields: one after the other where all lengths are fixed, otherwise the sum of the greatest ones.
fn fields_span(enc: Encoding, mint: &Mint, known: &Classes, ids: &NodeIds) -> Span
    requires below { AreBelow (length known.now.spans) ids.now }
    requires known { AreSpans enc mint.now known.now.spans }
    ensures { result ≡ fields_span enc (fields_at (unfolded mint.now) ids.now) }
{
    let ids = ids.as_slice();
    let mut fixed = true;
    let mut chain = Span::Fixed([0; 8]);
    let mut sum = Span::Bounded(0);
    for i in (0..ids.len()).rev() {
        let span = known.span(ids[i]);
        fixed = span.is_fixed() && fixed;
        chain = span.after(chain);
        sum = span.plus(sum);
    }
    if fixed { chain } else { sum }
}

/// The span of whichever arm there is.
fn arms_span(
    enc: Encoding,
    mint: &Mint,
    known: &Classes,
    arms: &Arms,
    other: Option<NodeId>,
) -> Span
    requires arms { ArmsBelow (length known.now.spans) arms.now }
    requires other { IsBelow (length known.now.spans) other }
    requires known { AreSpans enc mint.now known.now.spans }
    ensures { result ≡ arms_span enc (arms_at (unfolded mint.now) arms.now other) }
{
    let arms = arms.as_slice();
    let mut widest = match other {
        Some(id) => known.span(id).loose(),
        None => Span::Bounded(0),
    };
    for i in (0..arms.len()).rev() {
        widest = known.span(arms[i].1).either(widest);
    }
    widest
}
