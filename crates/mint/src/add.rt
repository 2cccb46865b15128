//! Adding a node to a table.

ghost use Rattle.std.specs.Prelude.{◌≢◌, ◌≡◌, ◌∷◌, [], ◌++◌, ◌<◌, ◌≤◌, ◌+◌, length, IfOk, IfErr, IfSome, OnOk, OnErr, None, Some, Err, nat_lt};
ghost use Rattle.std.specs.List.{list_all};
ghost use Rattle.kit_base.specs.Limits.{deepest};
ghost use Rattle.mint.specs.Blank.{blank, depth, fields_depth, arms_depth, least, blanks, blank_arm};
ghost use Rattle.mint.specs.Measured.{size_of};
ghost use Rattle.mint.specs.Sound.{is_unfit, is_empty, is_mislabelled, is_zero, is_below, children_below, refusal, level_refusal};
ghost use Rattle.mint.specs.Types.{Scalar, level, unfolded, fields_at, arms_at, HasChildrenBelow, AreBelow, ArmsBelow, IsBelow};
ghost use Rattle.mint.specs.Values.{weight, weights};

use crate::errors::MintErr;
use crate::kind::{Count, Kind};
use crate::labelling::{are_arms, are_labels, is_labelled};
use crate::node::{Arms, Node, NodeIds};
use crate::size::Size;
use crate::table::{Mint, NodeId};
use kit_base::limits::{DEEPEST, HEAVIEST_BLANK, MOST_NODES};

impl Mint {
    /// Appends a node, and gives its number, counted from 0. Its children are nodes that the table
    /// has already.
    pub fn add(&mut self, node: Node) -> Result<NodeId, MintErr>
        ensures ok { OnOk result (self.new ≡ self.old ++ node ∷ []) }
        ensures id { IfOk result (λ id. id ≡ length self.old) }
        ensures taken { OnOk result (refusal self.old node ≡ None) }
        ensures cause { IfErr result (λ e. e ≢ MintErr.NoMemory → refusal self.old node ≡ Some e) }
        ensures refused { IfSome (refusal self.old node) (λ e. result ≡ Err e) }
        ensures err { OnErr result (self.new ≡ self.old) }
    {
        let id = self.len() as NodeId;
        let size = self.size_of(&node)?;
        self.put(node, size)?;
        Ok(id)
    }

    /// The size of a node, or why the table does not take it.
    fn size_of(&self, node: &Node) -> Result<Size, MintErr>
        ensures ok { IfOk result (λ s. s ≡ size_of (level (unfolded self.now) node.now)) }
        ensures taken { OnOk result (refusal self.now node.now ≡ None) }
        ensures cause { IfErr result (λ e. refusal self.now node.now ≡ Some e) }
    {
        if self.len() >= MOST_NODES {
            return Err(MintErr::Many);
        }
        if !has_children_below(node, self.len() as NodeId) {
            return Err(MintErr::Forward);
        }
        self.measure(node)
    }

    /// The size of a node whose children are in the table, or why the table does not take it.
    fn measure(&self, node: &Node) -> Result<Size, MintErr>
        requires { HasChildrenBelow (length self.now) node.now }
        ensures ok { IfOk result (λ s. s ≡ size_of (level (unfolded self.now) node.now)) }
        ensures taken { OnOk result (level_refusal (level (unfolded self.now) node.now) ≡ None) }
        ensures cause { IfErr result (λ e. level_refusal (level (unfolded self.now) node.now) ≡ Some e) }
    {
        if self.is_unfit(node) {
            return Err(MintErr::Kind);
        }
        if self.is_empty(node) {
            return Err(MintErr::Empty);
        }
        if self.is_mislabelled(node) {
            return Err(MintErr::Labels);
        }
        let depth = self.depth(node);
        if depth > DEEPEST {
            return Err(MintErr::Deep);
        }
        let weight = self.blank_weight(node);
        if weight > u128::from(HEAVIEST_BLANK) {
            return Err(MintErr::Heavy);
        }
        Ok(Size {
            depth,
            weight: weight as u32,
        })
    }

    /// Whether a node is a row of Bool, or a text of an exact length.
    fn is_unfit(&self, node: &Node) -> bool
        ensures { result ≡ is_unfit (level (unfolded self.now) node.now) }
    {
        matches!(
            node,
            Node::Row(Kind::Bool, _) | Node::Text(Count::Exactly(_))
        )
    }

    /// Whether the count of a node is exactly 0, or the blank value of its element weighs nothing.
    fn is_empty(&self, node: &Node) -> bool
        requires { HasChildrenBelow (length self.now) node.now }
        ensures { result ≡ is_empty (level (unfolded self.now) node.now) }
    {
        match node {
            Node::Text(count) | Node::Row(_, count) => count.is_zero(),
            Node::Items(item, count) => count.is_zero() || self.size(*item).weight == 0,
            _ => false,
        }
    }

    /// Whether a node has labels or arms that are not allowed.
    fn is_mislabelled(&self, node: &Node) -> bool
        ensures { result ≡ is_mislabelled (level (unfolded self.now) node.now) }
    {
        match node {
            Node::Enum(labels) => !are_labels(labels),
            Node::Choice(tag, arms, other) => !(is_labelled(tag) && are_arms(tag, arms, *other)),
            _ => false,
        }
    }

    /// How many levels the type of a node has.
    fn depth(&self, node: &Node) -> u32
        requires { HasChildrenBelow (length self.now) node.now }
        ensures { result ≡ depth (level (unfolded self.now) node.now) }
    {
        match node {
            Node::Group(ids) => 1 + self.fields_depth(ids),
            Node::Items(item, _) => 1 + self.size(*item).depth,
            Node::Choice(_, arms, other) => 1 + self.arms_depth(arms, *other),
            Node::Maybe(item) => 1 + self.size(*item).depth,
            _ => 1,
        }
    }

    fn fields_depth(&self, ids: &NodeIds) -> u32
        requires { AreBelow (length self.now) ids.now }
        ensures value { result ≡ fields_depth (fields_at (unfolded self.now) ids.now) }
        ensures bound { result ≤ deepest }
    {
        let mut deepest = 0;
        for id in ids.as_slice() {
            deepest = deepest.max(self.size(*id).depth);
        }
        deepest
    }

    fn arms_depth(&self, arms: &Arms, other: Option<NodeId>) -> u32
        requires arms { ArmsBelow (length self.now) arms.now }
        requires other { IsBelow (length self.now) other }
        ensures value { result ≡ arms_depth (arms_at (unfolded self.now) arms.now other) }
        ensures bound { result ≤ deepest }
    {
        let mut deepest = 0;
        for (_, id) in arms.as_slice() {
            deepest = deepest.max(self.size(*id).depth);
        }
        match other {
            Some(id) => deepest.max(self.size(id).depth),
            None => deepest,
        }
    }

    /// What a node's blank value weighs.
    fn blank_weight(&self, node: &Node) -> u128
        requires { HasChildrenBelow (length self.now) node.now }
        ensures { result ≡ weight (blank (level (unfolded self.now) node.now)) }
    {
        match node {
            Node::Void => 0,
            Node::Num(_) | Node::Enum(_) | Node::Text(_) | Node::Maybe(_) => 1,
            Node::Row(_, count) => 1 + u128::from(count.least()),
            Node::Group(ids) => self.fields_weight(ids),
            Node::Items(item, count) => {
                1 + u128::from(count.least()) * u128::from(self.size(*item).weight)
            }
            Node::Choice(_, arms, other) => self.arm_weight(arms, *other),
        }
    }

    fn fields_weight(&self, ids: &NodeIds) -> u128
        requires { AreBelow (length self.now) ids.now }
        ensures { result ≡ weights (blanks (fields_at (unfolded self.now) ids.now)) }
    {
        let mut sum = 0;
        for id in ids.as_slice() {
            sum += u128::from(self.size(*id).weight);
        }
        sum
    }

    fn arm_weight(&self, arms: &Arms, other: Option<NodeId>) -> u128
        requires arms { ArmsBelow (length self.now) arms.now }
        requires other { IsBelow (length self.now) other }
        ensures { (s : Scalar) → result ≡ weight (blank_arm s (arms_at (unfolded self.now) arms.now other)) }
    {
        match arms.get(0) {
            Some((_, id)) => 1 + u128::from(self.size(*id).weight),
            None => match other {
                Some(id) => 1 + u128::from(self.size(id).weight),
                None => 0,
            },
        }
    }
}

impl Count {
    /// The least number of elements that it allows.
    pub fn least(self) -> u32
        ensures { result ≡ least self }
    {
        match self {
            Count::Exactly(n) => n,
            _ => 0,
        }
    }

    fn is_zero(self) -> bool
        ensures { result ≡ is_zero self }
    {
        matches!(self, Count::Exactly(0))
    }
}

/// Whether the number of each child of a node is below `id`.
fn has_children_below(node: &Node, id: NodeId) -> bool
    ensures { result ≡ children_below id node.now }
{
    match node {
        Node::Group(ids) => are_below(ids, id),
        Node::Items(item, _) | Node::Maybe(item) => *item < id,
        Node::Choice(_, arms, other) => are_arms_below(arms, id) && is_below(*other, id),
        _ => true,
    }
}

fn are_below(ids: &NodeIds, id: NodeId) -> bool
    ensures { result ≡ list_all (λ i. nat_lt i id) ids.now }
{
    ids.as_slice().iter().all(|i| *i < id)
}

fn are_arms_below(arms: &Arms, id: NodeId) -> bool
    ensures { result ≡ list_all (λ a. nat_lt a.1 id) arms.now }
{
    arms.as_slice().iter().all(|arm| arm.1 < id)
}

fn is_below(other: Option<NodeId>, id: NodeId) -> bool
    ensures { result ≡ is_below id other }
{
    match other {
        Some(i) => i < id,
        None => true,
    }
}
