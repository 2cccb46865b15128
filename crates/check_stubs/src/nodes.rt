//! Tables of types.

use check_rows::{Bad, list, member, number, part, word};
use kit_base::Listed;
use mint::errors::MintErr;
use mint::kind::{Count, Kind};
use mint::node::{Arms, Labels, Node, NodeIds, Tag};
use mint::table::Mint;
use serde_json::Value as Json;
use std::alloc::Global;

/// What became of the nodes of a case.
pub enum Made {
    /// The table of them all.
    Table(Mint),
    /// The first that is refused, by its place.
    Refused(MintErr, usize),
}

/// The kind of a number, by its name: `"i32"`.
pub fn kind_of(json: &Json) -> Result<Kind, Bad> {
    match json.as_str() {
        Some("octet") => Ok(Kind::Octet),
        Some("i8") => Ok(Kind::I8),
        Some("u8") => Ok(Kind::U8),
        Some("char") => Ok(Kind::Char),
        Some("i16") => Ok(Kind::I16),
        Some("u16") => Ok(Kind::U16),
        Some("i32") => Ok(Kind::I32),
        Some("u32") => Ok(Kind::U32),
        Some("i64") => Ok(Kind::I64),
        Some("u64") => Ok(Kind::U64),
        Some("bool") => Ok(Kind::Bool),
        _ => Err(Bad::Row("no kind")),
    }
}

/// `{"exactly": n}`, `{"most": n}`, or none for any.
fn count_of(json: Option<&Json>) -> Result<Count, Bad> {
    let Some(json) = json else {
        return Ok(Count::Any);
    };
    match json.get("exactly") {
        Some(n) => Ok(Count::Exactly(word(n)?)),
        None => Ok(Count::AtMost(word(member(json, "most")?)?)),
    }
}

fn labels_of(alloc: Global, json: &Json) -> Result<Labels, Bad> {
    let mut numbers = Listed::new(alloc);
    for label in list(json)? {
        match i32::try_from(number(label)?) {
            Ok(n) => numbers.push(n)?,
            Err(_) => return Err(Bad::Row("no label")),
        }
    }
    Ok(Labels::of(alloc, numbers.as_slice())?)
}

fn ids_of(alloc: Global, json: &Json) -> Result<NodeIds, Bad> {
    let mut ids = NodeIds::new(alloc);
    for id in list(json)? {
        ids.push(word(id)?)?;
    }
    Ok(ids)
}

fn arms_of(alloc: Global, json: &Json) -> Result<Arms, Bad> {
    let mut arms = Arms::new(alloc);
    for arm in list(json)? {
        arms.push((number(part(arm, 0)?)?, word(part(arm, 1)?)?))?;
    }
    Ok(arms)
}

/// A kind, or the labels of an enum.
fn tag_of(alloc: Global, json: &Json) -> Result<Tag, Bad> {
    if json.is_array() {
        return Ok(Tag::Enum(labels_of(alloc, json)?));
    }
    Ok(Tag::Num(kind_of(json)?))
}

fn choice_of(alloc: Global, json: &Json) -> Result<Node, Bad> {
    let other = match json.get(3usize) {
        Some(id) => Some(word(id)?),
        None => None,
    };
    Ok(Node::Choice(
        tag_of(alloc, part(json, 1)?)?,
        arms_of(alloc, part(json, 2)?)?,
        other,
    ))
}

/// A node, as an array that begins with its form.
fn node_of(alloc: Global, json: &Json) -> Result<Node, Bad> {
    match part(json, 0)?.as_str() {
        Some("void") => Ok(Node::Void),
        Some("num") => Ok(Node::Num(kind_of(part(json, 1)?)?)),
        Some("enum") => Ok(Node::Enum(labels_of(alloc, part(json, 1)?)?)),
        Some("text") => Ok(Node::Text(count_of(json.get(1usize))?)),
        Some("row") => Ok(Node::Row(kind_of(part(json, 1)?)?, count_of(json.get(2usize))?)),
        Some("group") => Ok(Node::Group(ids_of(alloc, part(json, 1)?)?)),
        Some("items") => Ok(Node::Items(word(part(json, 1)?)?, count_of(json.get(2usize))?)),
        Some("choice") => choice_of(alloc, json),
        Some("maybe") => Ok(Node::Maybe(word(part(json, 1)?)?)),
        _ => Err(Bad::Row("no node")),
    }
}

/// The table of the nodes, up to the first that is refused.
pub fn build(alloc: Global, row: &Json) -> Result<Made, Bad> {
    let mut table = Mint::new(alloc);
    for json in list(member(row, "nodes")?)? {
        let place = table.len();
        match table.add(node_of(alloc, json)?) {
            Ok(_) => {}
            Err(MintErr::NoMemory) => return Err(Bad::NoMemory),
            Err(error) => return Ok(Made::Refused(error, place)),
        }
    }
    Ok(Made::Table(table))
}

/// The table of a case, of which no node is refused.
pub fn table_of(alloc: Global, row: &Json) -> Result<Mint, Bad> {
    match build(alloc, row)? {
        Made::Table(table) => Ok(table),
        Made::Refused(_, _) => Err(Bad::Row("a node is refused")),
    }
}
