//! Declarations as text.

use crate::shown::{put_expr, put_int, put_name, put_octets, put_type};
use check_rows::Bad;
use corba_decls::{
    Aliased, Case, Constant, ConstantType, Declaration, Declarator, Enum, Label, Member, Tag,
    Typedef, Union,
};
use idl_exprs::Identifier;
use std::alloc::Global;

/// A declarator: its name, and its dimensions in brackets.
fn put_declarator(alloc: Global, out: &mut String, declarator: &Declarator) -> Result<(), Bad> {
    put_octets(out, declarator.name.name.as_slice())?;
    for dimension in declarator.dimensions.as_slice() {
        out.push_str("[")?;
        put_expr(alloc, out, &dimension.length)?;
        out.push_str("]")?;
    }
    Ok(())
}

/// Declarators after a blank, with commas between them.
fn put_declarators(alloc: Global, out: &mut String, declarators: &[Declarator]) -> Result<(), Bad> {
    let mut between = " ";
    for declarator in declarators {
        out.push_str(between)?;
        put_declarator(alloc, out, declarator)?;
        between = ",";
    }
    Ok(())
}

/// What has members: its word, its name, and each member with a `;`.
fn put_members(
    alloc: Global,
    out: &mut String,
    word: &str,
    name: &Identifier,
    members: &[Member],
) -> Result<(), Bad> {
    out.push_str(word)?;
    put_octets(out, name.name.as_slice())?;
    out.push_str("{")?;
    for member in members {
        put_type(alloc, out, &member.of)?;
        put_declarators(alloc, out, member.declarators.as_slice())?;
        out.push_str(";")?;
    }
    out.push_str("}")?;
    Ok(())
}

fn put_enum(out: &mut String, item: &Enum) -> Result<(), Bad> {
    out.push_str("enum ")?;
    put_octets(out, item.name.name.as_slice())?;
    let mut between = "{";
    for one in item.items.as_slice() {
        out.push_str(between)?;
        put_octets(out, one.name.as_slice())?;
        between = ",";
    }
    out.push_str("}")?;
    Ok(())
}

fn put_tag(out: &mut String, tag: &Tag) -> Result<(), Bad> {
    match tag {
        Tag::Int(int) => put_int(out, int),
        Tag::Char => Ok(out.push_str("char")?),
        Tag::Boolean => Ok(out.push_str("boolean")?),
        Tag::Named(name) => put_name(out, name),
    }
}

/// A case: its labels, each with a `:`, and its element with a `;`.
fn put_case(alloc: Global, out: &mut String, case: &Case) -> Result<(), Bad> {
    for label in case.labels.as_slice() {
        match label {
            Label::Case(value) => {
                out.push_str("case ")?;
                put_expr(alloc, out, value)?;
            }
            Label::Default => out.push_str("default")?,
        }
        out.push_str(":")?;
    }
    put_type(alloc, out, &case.of)?;
    out.push_str(" ")?;
    put_declarator(alloc, out, &case.declarator)?;
    out.push_str(";")?;
    Ok(())
}

fn put_union(alloc: Global, out: &mut String, item: &Union) -> Result<(), Bad> {
    out.push_str("union ")?;
    put_octets(out, item.name.name.as_slice())?;
    out.push_str("(")?;
    put_tag(out, &item.tag)?;
    out.push_str("){")?;
    for case in item.cases.as_slice() {
        put_case(alloc, out, case)?;
    }
    out.push_str("}")?;
    Ok(())
}

fn put_typedef(alloc: Global, out: &mut String, item: &Typedef) -> Result<(), Bad> {
    out.push_str("typedef ")?;
    match &item.of {
        Aliased::Type(of) => put_type(alloc, out, of)?,
        Aliased::Struct(of) => {
            put_members(alloc, out, "struct ", &of.name, of.members.as_slice())?
        }
        Aliased::Union(of) => put_union(alloc, out, of)?,
        Aliased::Enum(of) => put_enum(out, of)?,
    }
    put_declarators(alloc, out, item.declarators.as_slice())
}

fn put_constant_type(out: &mut String, of: &ConstantType) -> Result<(), Bad> {
    match of {
        ConstantType::Int(int) => put_int(out, int),
        ConstantType::Char => Ok(out.push_str("char")?),
        ConstantType::Boolean => Ok(out.push_str("boolean")?),
        ConstantType::Octet => Ok(out.push_str("octet")?),
        ConstantType::Text => Ok(out.push_str("string")?),
        ConstantType::Named(name) => put_name(out, name),
    }
}

fn put_constant(alloc: Global, out: &mut String, item: &Constant) -> Result<(), Bad> {
    out.push_str("const ")?;
    put_constant_type(out, &item.of)?;
    out.push_str(" ")?;
    put_octets(out, item.name.name.as_slice())?;
    out.push_str("=")?;
    put_expr(alloc, out, &item.value)
}

/// A declaration.
pub fn put_declaration(alloc: Global, out: &mut String, item: &Declaration) -> Result<(), Bad> {
    match item {
        Declaration::Typedef(item) => put_typedef(alloc, out, item),
        Declaration::Struct(item) => {
            put_members(alloc, out, "struct ", &item.name, item.members.as_slice())
        }
        Declaration::Union(item) => put_union(alloc, out, item),
        Declaration::Enum(item) => put_enum(out, item),
        Declaration::Constant(item) => put_constant(alloc, out, item),
        Declaration::Exception(item) => {
            put_members(
                alloc,
                out,
                "exception ",
                &item.name,
                item.members.as_slice(),
            )
        }
    }
}
