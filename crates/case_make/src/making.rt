//! Values drawn for nodes.

ghost use Rattle.std.specs.Prelude.{◌≡◌, ◌<◌, ◌≤◌, length, map, IfOk, IfErr};
ghost use Rattle.kit_base.specs.Limits.{heaviest_blank};
ghost use Rattle.mint.specs.Types.{type_at, unfolded, fields_at, arms_at, scalar_of, text, row_of, choice_type, maybe_type, AreBelow, ArmsBelow, IsBelow};
ghost use Rattle.mint.specs.Typed.{IsWellTyped};
ghost use Rattle.mint.specs.Values.{seen, row, weight};
ghost use Rattle.case_make.specs.Draws.{several};
ghost use Rattle.case_make.specs.Made.{drawn, drawn_arm, drawn_array, drawn_fields, made};
ghost use Rattle.case_make.specs.Making.{IsMade, IsTooHeavy, weigh_all};

use crate::maker::{Maker, Stop};
use kit_base::NoMemory;
use kit_base::limits::HEAVIEST_BLANK;
use mint::blank_value::blank;
use mint::kind::{Count, Kind};
use mint::node::{Arms, Node, NodeIds, Tag, arm_of};
use mint::table::{Mint, NodeId};
use mint::value::{Row, Value, Values};
use std::alloc::Global;

/// The value that a number makes for a node. It goes down the levels of the table, of which there are
/// at most 32, and weighs at most 1,048,576: in place of one that would weigh more the blank value is
/// made.
pub fn make_value(alloc: Global, number: u64, mint: &Mint, id: NodeId) -> Result<Value, NoMemory>
    requires { id < length mint.now }
    ensures value { IfOk result (λ v. seen v ≡ made (type_at mint.now id) number) }
    ensures typed { IfOk result (λ v. IsWellTyped (type_at mint.now id) (seen v)) }
    ensures light { IfOk result (λ v. weight (seen v) ≤ heaviest_blank) }
{
    mint.types_are_sound();
    let mut maker = Maker {
        state: number,
        left: HEAVIEST_BLANK,
    };
    match maker.value(alloc, mint, id) {
        Ok(value) => Ok(value),
        Err(Stop::Heavy) => blank(alloc, mint, id),
        Err(Stop::NoMemory) => Err(NoMemory),
    }
}

impl Maker {
    #[cycle(value)]
    fn value(&mut self, alloc: Global, mint: &Mint, id: NodeId) -> Result<Value, Stop>
        requires { id < length mint.now }
        ensures ok { IfOk result
            (λ v. IsMade weight self.old self.new (drawn (type_at mint.now id) self.old.state) (seen v)) }
        ensures heavy { IfErr result (λ e. e ≡ Stop.Heavy → IsTooHeavy weight self.old
            (drawn (type_at mint.now id) self.old.state)) }
    {
        let Some(node) = mint.node(id) else {
            unreachable!()
        };
        match node {
            Node::Void => Ok(Value::Void),
            Node::Num(kind) => {
                self.weigh(1)?;
                Ok(Value::Num(self.number(*kind)))
            }
            Node::Enum(labels) => {
                self.weigh(1)?;
                Ok(Value::Num(self.label(labels)))
            }
            Node::Text(count) => Ok(Value::Row(self.text(alloc, *count)?)),
            Node::Row(kind, count) => Ok(Value::Row(self.row(alloc, *kind, *count)?)),
            Node::Group(ids) => Ok(Value::Group(self.fields(alloc, mint, id, ids)?)),
            Node::Items(item, count) => {
                self.weigh(1)?;
                let many = self.length(*count);
                Ok(Value::Items(self.items(alloc, mint, id, *item, many)?))
            }
            Node::Choice(tag, arms, other) => self.choice(alloc, mint, id, tag, arms, *other),
            Node::Maybe(item) => self.maybe(alloc, mint, id, *item),
        }
    }

    /// The values of the fields of a struct.
    #[cycle(value)]
    fn fields(
        &mut self,
        alloc: Global,
        mint: &Mint,
        id: NodeId,
        ids: &NodeIds,
    ) -> Result<Values, Stop>
        requires id { id < length mint.now }
        requires below { AreBelow id ids.now }
        ensures ok { IfOk result
            (λ v. IsMade weigh_all self.old self.new
            (drawn_fields (fields_at (unfolded mint.now) ids.now) self.old.state)
            (map seen v)) }
        ensures heavy { IfErr result (λ e. e ≡ Stop.Heavy → IsTooHeavy weigh_all self.old
            (drawn_fields (fields_at (unfolded mint.now) ids.now) self.old.state)) }
    {
        let mut values = Values::new(alloc);
        for field in ids.as_slice() {
            values.push(self.value(alloc, mint, *field)?)?;
        }
        Ok(values)
    }

    /// So many values of a node.
    #[cycle(value)]
    fn items(
        &mut self,
        alloc: Global,
        mint: &Mint,
        id: NodeId,
        item: NodeId,
        many: u32,
    ) -> Result<Values, Stop>
        requires id { id < length mint.now }
        requires below { item < id }
        ensures ok { IfOk result
            (λ v. IsMade weigh_all self.old self.new
            (several (drawn (type_at mint.now item)) many self.old.state)
            (map seen v)) }
        ensures heavy { IfErr result (λ e. e ≡ Stop.Heavy → IsTooHeavy weigh_all self.old
            (several (drawn (type_at mint.now item)) many self.old.state)) }
    {
        let mut values = Values::new(alloc);
        for _ in 0..many {
            values.push(self.value(alloc, mint, item)?)?;
        }
        Ok(values)
    }

    /// A number of a union, and the value of its arm.
    #[cycle(value)]
    fn choice(
        &mut self,
        alloc: Global,
        mint: &Mint,
        id: NodeId,
        tag: &Tag,
        arms: &Arms,
        other: Option<NodeId>,
    ) -> Result<Value, Stop>
        requires id { id < length mint.now }
        requires below { ArmsBelow id arms.now }
        requires other { IsBelow id other }
        ensures ok { IfOk result
            (λ v. IsMade weight self.old self.new
            (drawn (choice_type (scalar_of tag.now) (arms_at (unfolded mint.now) arms.now other))
            self.old.state)
            (seen v)) }
        ensures heavy { IfErr result (λ e. e ≡ Stop.Heavy → IsTooHeavy weight self.old
            (drawn (choice_type (scalar_of tag.now) (arms_at (unfolded mint.now) arms.now other))
            self.old.state)) }
    {
        self.weigh(1)?;
        let n = self.tag(tag, arms);
        let inner = self.arm(alloc, mint, id, arms, other, &n)?;
        Ok(Value::arm(alloc, n, inner)?)
    }

    /// A value of the arm of a number.
    #[cycle(value)]
    fn arm(
        &mut self,
        alloc: Global,
        mint: &Mint,
        id: NodeId,
        arms: &Arms,
        other: Option<NodeId>,
        n: &i128,
    ) -> Result<Value, Stop>
        requires id { id < length mint.now }
        requires below { ArmsBelow id arms.now }
        requires other { IsBelow id other }
        ensures ok { IfOk result
            (λ v. IsMade weight self.old self.new
            (drawn_arm (arms_at (unfolded mint.now) arms.now other) n.now self.old.state)
            (seen v)) }
        ensures heavy { IfErr result (λ e. e ≡ Stop.Heavy → IsTooHeavy weight self.old
            (drawn_arm (arms_at (unfolded mint.now) arms.now other) n.now self.old.state)) }
    {
        match arm_of(arms, other, n) {
            Some(item) => self.value(alloc, mint, item),
            None => Ok(Value::Void),
        }
    }

    /// A value that may be there.
    #[cycle(value)]
    fn maybe(&mut self, alloc: Global, mint: &Mint, id: NodeId, item: NodeId) -> Result<Value, Stop>
        requires id { id < length mint.now }
        requires below { item < id }
        ensures ok { IfOk result
            (λ v. IsMade weight self.old self.new
            (drawn (maybe_type (type_at mint.now item)) self.old.state)
            (seen v)) }
        ensures heavy { IfErr result (λ e. e ≡ Stop.Heavy → IsTooHeavy weight self.old
            (drawn (maybe_type (type_at mint.now item)) self.old.state)) }
    {
        self.weigh(1)?;
        if self.draw(2) == 0 {
            return Ok(Value::Opt(None));
        }
        let inner = self.value(alloc, mint, item)?;
        Ok(Value::present(alloc, inner)?)
    }

    /// The octets of a text.
    fn text(&mut self, alloc: Global, count: Count) -> Result<Row, Stop>
        ensures ok { IfOk result
            (λ v. IsMade weight self.old self.new
            (drawn_array (text count) self.old.state)
            (row v.kind v.numbers)) }
        ensures heavy { IfErr result (λ e. e ≡ Stop.Heavy → IsTooHeavy weight self.old
            (drawn_array (text count) self.old.state)) }
    {
        let many = self.length(count);
        self.weigh(1 + u64::from(many))?;
        let mut row = Row::new(alloc, Kind::Char);
        for _ in 0..many {
            row.push(i128::from(self.draw(255) + 1))?;
        }
        Ok(row)
    }

    /// The numbers of an array.
    fn row(&mut self, alloc: Global, kind: Kind, count: Count) -> Result<Row, Stop>
        ensures ok { IfOk result
            (λ v. IsMade weight self.old self.new
            (drawn_array (row_of kind count) self.old.state)
            (row v.kind v.numbers)) }
        ensures heavy { IfErr result (λ e. e ≡ Stop.Heavy → IsTooHeavy weight self.old
            (drawn_array (row_of kind count) self.old.state)) }
    {
        let many = self.length(count);
        self.weigh(1 + u64::from(many))?;
        let mut row = Row::new(alloc, kind);
        for _ in 0..many {
            row.push(self.number(kind))?;
        }
        Ok(row)
    }
}
