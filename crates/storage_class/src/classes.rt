//! Classes of the nodes of a table.

ghost use Rattle.std.specs.Prelude.{◌≡◌, ◌<◌, [], ◌∷◌, ◌++◌, length, OnOk, OnErr, Some, slice_get, slice_index_or};
ghost use Rattle.storage_class.specs.Classing.{class_of};

use crate::span::Span;
use kit_base::{Listed, NoMemory};
use mint::table::NodeId;
use std::alloc::Global;
use std::marker::Model;
use wire_def::Encoding;

/// How long what is sent of a type is.
#[derive(Clone, Copy, Debug, PartialEq, Eq)]
pub enum Class {
    /// The length from a position, by its remainder modulo 8.
    Fixed([u32; 8]),
    /// No length is above this.
    Bounded(u64),
    /// No bound is known, or it is above 4,294,967,295.
    Unbounded,
}

/// The spans of a table's nodes over an encoding, in order.
#[derive(Drop)]
pub struct Classes {
    enc: Encoding,
    spans: Listed<Span>,
}

impl Model for Classes {
    ghost use Rattle.storage_class.specs.Spans.{Spanned};

    ghost Value = { Spanned };

    ghost view = { λ c. record { enc = c.enc; spans = c.spans } };
}

impl Classes {
    /// The spans of no nodes.
    pub(crate) fn new(alloc: Global, enc: Encoding) -> Classes
        ensures enc { result.enc ≡ enc }
        ensures spans { result.spans ≡ [] }
    {
        Classes {
            enc,
            spans: Listed::new(alloc),
        }
    }

    /// The encoding that the spans are of.
    pub fn enc(&self) -> Encoding
        ensures { result ≡ self.now.enc }
    {
        self.enc
    }

    /// The span of a node.
    pub fn span(&self, id: NodeId) -> Span
        requires { id < length self.now.spans }
        ensures { slice_get self.now.spans id ≡ Some result }
    {
        self.spans.as_slice()[id as usize]
    }

    /// Puts the span of the next node after the others.
    pub(crate) fn push(&mut self, span: Span) -> Result<(), NoMemory>
        ensures enc { self.new.enc ≡ self.old.enc }
        ensures ok { OnOk result (self.new.spans ≡ self.old.spans ++ span ∷ []) }
        ensures err { OnErr result (self.new.spans ≡ self.old.spans) }
    {
        self.spans.push(span)
    }

    /// The class of a node. Takes no memory.
    pub fn max(&self, id: NodeId) -> Class
        requires { id < length self.now.spans }
        ensures { result ≡ class_of (slice_index_or self.now.spans id Span.Unbounded) }
    {
        match self.span(id) {
            Span::Fixed(f) => Class::Fixed(f),
            Span::Bounded(n) => Class::Bounded(u64::from(n)),
            Span::Unbounded => Class::Unbounded,
        }
    }
}
