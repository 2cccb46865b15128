//! What is said of the octets of a body, and the paths of its parts.

use crate::entry::{Said, What};
use crate::texts::{item_text, kind_word, number_text, owned};
use kit_base::NoMemory;
use mint::kind::Kind;
use pres::{FieldTable, Shape};
use std::alloc::Global;

/// What a number in a body stands for.
#[derive(Clone, Copy)]
pub(crate) enum Sense<'a> {
    /// For itself.
    Number,
    /// For an item of an enum of this shape.
    Item(&'a Shape),
    /// For a length.
    Length,
    /// For whether an optional value is there.
    Presence,
}

/// What is said of octets with a path.
pub(crate) fn said_of(
    alloc: Global,
    what: What,
    path: &str,
    of_type: String,
    value: String,
) -> Result<Said, NoMemory> {
    Ok(Said {
        what,
        path: owned(alloc, path)?,
        of_type,
        value,
    })
}

/// A number of a kind as JSON, where it is read.
pub(crate) fn value_text(alloc: Global, kind: Kind, n: Option<i128>) -> Result<String, NoMemory> {
    match n {
        Some(n) => number_text(alloc, kind, n),
        None => Ok(String::new(alloc)),
    }
}

/// What is said of a number of a kind, where it is read.
pub(crate) fn number_said(
    alloc: Global,
    path: &str,
    kind: Kind,
    sense: Sense<'_>,
    n: Option<i128>,
) -> Result<Said, NoMemory> {
    let (what, of_type) = match sense {
        Sense::Number => (What::Value, kind_word(kind)),
        Sense::Item(_) => (What::Value, "enum"),
        Sense::Length => (What::Length, kind_word(kind)),
        Sense::Presence => (What::Optional, ""),
    };
    let value = match (sense, n) {
        (Sense::Item(shape), Some(n)) => item_text(alloc, shape, n)?,
        _ => value_text(alloc, kind, n)?,
    };
    said_of(alloc, what, path, owned(alloc, of_type)?, value)
}

/// The path of a field, by its name, or by its place where the fields have no names.
pub(crate) fn field_path(
    alloc: Global,
    path: &str,
    names: Option<&FieldTable>,
    i: usize,
) -> Result<String, NoMemory> {
    let Some(names) = names else {
        return place_path(alloc, path, i);
    };
    if i >= names.len() {
        return owned(alloc, path);
    }
    member_path(alloc, path, names.text(i))
}

/// The path of a member.
pub(crate) fn member_path(alloc: Global, path: &str, name: &str) -> Result<String, NoMemory> {
    Ok(format!(in alloc; "{path}.{name}")?)
}

/// The path of an element.
pub(crate) fn place_path(alloc: Global, path: &str, i: usize) -> Result<String, NoMemory> {
    Ok(format!(in alloc; "{path}[{i}]")?)
}
