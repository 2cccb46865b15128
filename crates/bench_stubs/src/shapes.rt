//! Tables of types whose code is made, of a size.

use mint::errors::MintErr;
use mint::kind::{Count, Kind};
use mint::node::{Arms, Node, NodeIds, Tag};
use mint::table::{Mint, NodeId};
use std::alloc::Global;

/// What the type is.
#[derive(Clone, Copy)]
pub enum Shape {
    /// A struct of so many `int`.
    Fields,
    /// A struct of so many lists of structs of two `int`.
    Lists,
    /// Lists within one another.
    Deep,
    /// Lists of at most 100 elements within one another.
    Bounded,
    /// Structs of twice the same within one another, a list at their ends.
    Pairs,
    /// A union of so many arms, each a string.
    Arms,
}

/// The type of a word of the command line.
pub fn shape_of(word: &str) -> Option<Shape> {
    match word {
        "fields" => Some(Shape::Fields),
        "lists" => Some(Shape::Lists),
        "deep" => Some(Shape::Deep),
        "bounded" => Some(Shape::Bounded),
        "pairs" => Some(Shape::Pairs),
        "arms" => Some(Shape::Arms),
        _ => None,
    }
}

/// So many times the same field.
fn same(alloc: Global, id: NodeId, times: u32) -> Result<Node, MintErr> {
    let mut fields = NodeIds::new(alloc);
    for _ in 0..times {
        fields.push(id)?;
    }
    Ok(Node::Group(fields))
}

/// A union of so many arms, each of which is the same.
fn union_of(alloc: Global, id: NodeId, times: u32) -> Result<Node, MintErr> {
    let mut arms = Arms::new(alloc);
    for n in 0..times {
        arms.push((i128::from(n), id))?;
    }
    Ok(Node::Choice(Tag::Num(Kind::U32), arms, None))
}

/// The table of a shape, and the shape's node.
pub fn table_of(alloc: Global, shape: Shape, size: u32) -> Result<(Mint, NodeId), MintErr> {
    let mut table = Mint::new(alloc);
    let number = table.add(Node::Num(Kind::I32))?;
    let id = match shape {
        Shape::Fields => table.add(same(alloc, number, size)?)?,
        Shape::Lists => {
            let pair = table.add(same(alloc, number, 2)?)?;
            let list = table.add(Node::Items(pair, Count::Any))?;
            table.add(same(alloc, list, size)?)?
        }
        Shape::Deep => nested(&mut table, number, Count::Any, size)?,
        Shape::Bounded => nested(&mut table, number, Count::AtMost(100), size)?,
        Shape::Pairs => {
            let list = table.add(Node::Items(number, Count::Any))?;
            doubled(alloc, &mut table, list, size)?
        }
        Shape::Arms => {
            let text = table.add(Node::Text(Count::Any))?;
            table.add(union_of(alloc, text, size)?)?
        }
    };
    Ok((table, id))
}

/// Lists within one another, so many.
fn nested(table: &mut Mint, number: NodeId, count: Count, times: u32) -> Result<NodeId, MintErr> {
    let mut id = number;
    for _ in 0..times {
        id = table.add(Node::Items(id, count))?;
    }
    Ok(id)
}

/// Structs of twice the same within one another, so many.
fn doubled(alloc: Global, table: &mut Mint, list: NodeId, times: u32) -> Result<NodeId, MintErr> {
    let mut id = list;
    for _ in 0..times {
        id = table.add(same(alloc, id, 2)?)?;
    }
    Ok(id)
}
