//! Tokens and trees as text.

use check_rows::Bad;
use corba_decls::{Base, Int, IntSize, Simple, TypeName, TypeNode};
use idl_exprs::{BinaryOp, Expr, Leaf, Node, ScopedName, UnaryOp};
use idl_lex::{Token, TokenKind};
use std::alloc::Global;

/// A token: its line, and what it is.
pub fn put_token(alloc: Global, out: &mut String, token: &Token) -> Result<(), Bad> {
    if !out.is_empty() {
        out.push_str(" ")?;
    }
    let line = format!(in alloc; "{}:", token.line)?;
    out.push_str(line.as_str())?;
    match &token.kind {
        TokenKind::Name(name) => put_octets(out, name.as_slice()),
        TokenKind::Number(n) => put_number(alloc, out, *n),
        TokenKind::Char(code) => put_character(alloc, out, *code),
        TokenKind::Text(codes) => put_text(alloc, out, codes.as_slice()),
        TokenKind::FileName(name) => put_octets(out, name.as_slice()),
        TokenKind::Mark(mark) => put_octets(out, mark.as_slice()),
    }
}

/// Octets of a name or a mark, each as the character of its code.
pub fn put_octets(out: &mut String, octets: &[u8]) -> Result<(), Bad> {
    for octet in octets {
        out.push(char::from(*octet))?;
    }
    Ok(())
}

/// A number by its decimal digits.
fn put_number(alloc: Global, out: &mut String, n: i128) -> Result<(), Bad> {
    let digits = format!(in alloc; "{n}")?;
    out.push_str(digits.as_str())?;
    Ok(())
}

/// A character by its code.
fn put_character(alloc: Global, out: &mut String, code: u8) -> Result<(), Bad> {
    let shown = format!(in alloc; "'{code}'")?;
    out.push_str(shown.as_str())?;
    Ok(())
}

/// A string by the hexadecimal digits of its characters' codes.
fn put_text(alloc: Global, out: &mut String, codes: &[u8]) -> Result<(), Bad> {
    out.push_str("\"")?;
    for code in codes {
        let digits = format!(in alloc; "{code:02x}")?;
        out.push_str(digits.as_str())?;
    }
    out.push_str("\"")?;
    Ok(())
}

/// A scoped name: its parts with `::` between them, and before the first where it is absolute.
pub fn put_name(out: &mut String, name: &ScopedName) -> Result<(), Bad> {
    let mut is_first = !name.absolute;
    for part in name.parts.as_slice() {
        if !is_first {
            out.push_str("::")?;
        }
        put_octets(out, part.name.as_slice())?;
        is_first = false;
    }
    Ok(())
}

fn put_leaf(alloc: Global, out: &mut String, leaf: &Leaf) -> Result<(), Bad> {
    match leaf {
        Leaf::Number(n) => put_number(alloc, out, *n),
        Leaf::Character(code) => put_character(alloc, out, *code),
        Leaf::Text(codes) => put_text(alloc, out, codes.as_slice()),
        Leaf::Truth(true) => Ok(out.push_str("TRUE")?),
        Leaf::Truth(false) => Ok(out.push_str("FALSE")?),
        Leaf::Name(name) => put_name(out, name),
    }
}

fn unary_mark(op: UnaryOp) -> &'static str {
    match op {
        UnaryOp::Minus => "-",
        UnaryOp::Plus => "+",
    }
}

fn binary_mark(op: BinaryOp) -> &'static str {
    match op {
        BinaryOp::Or => "|",
        BinaryOp::Xor => "^",
        BinaryOp::And => "&",
        BinaryOp::Left => "<<",
        BinaryOp::Right => ">>",
        BinaryOp::Add => "+",
        BinaryOp::Sub => "-",
        BinaryOp::Mul => "*",
        BinaryOp::Div => "/",
        BinaryOp::Rem => "%",
    }
}

/// An expression: a leaf, or an operator before its operands, in parentheses.
pub fn put_expr(alloc: Global, out: &mut String, expr: &Expr) -> Result<(), Bad> {
    match &expr.node {
        Node::Leaf(leaf) => put_leaf(alloc, out, leaf),
        Node::Unary(op, operand) => {
            out.push_str("(")?;
            out.push_str(unary_mark(*op))?;
            out.push_str(" ")?;
            put_expr(alloc, out, operand)?;
            out.push_str(")")?;
            Ok(())
        }
        Node::Binary(op, left, right) => {
            out.push_str("(")?;
            out.push_str(binary_mark(*op))?;
            out.push_str(" ")?;
            put_expr(alloc, out, left)?;
            out.push_str(" ")?;
            put_expr(alloc, out, right)?;
            out.push_str(")")?;
            Ok(())
        }
    }
}

fn simple_word(simple: Simple) -> &'static str {
    match simple {
        Simple::Char => "char",
        Simple::Boolean => "boolean",
        Simple::Octet => "octet",
        Simple::Float => "float",
        Simple::Double => "double",
        Simple::Wchar => "wchar",
        Simple::Wstring => "wstring",
        Simple::Any => "any",
        Simple::Object => "Object",
    }
}

/// An integer type by its keyword, with `unsigned-` before it where it has no sign.
pub fn put_int(out: &mut String, int: &Int) -> Result<(), Bad> {
    if int.unsigned {
        out.push_str("unsigned-")?;
    }
    match int.size {
        IntSize::Short => Ok(out.push_str("short")?),
        IntSize::Long => Ok(out.push_str("long")?),
        IntSize::LongLong => Ok(out.push_str("long-long")?),
    }
}

fn put_base(alloc: Global, out: &mut String, base: &Base) -> Result<(), Bad> {
    match base {
        Base::Simple(simple) => Ok(out.push_str(simple_word(*simple))?),
        Base::LongDouble => Ok(out.push_str("long-double")?),
        Base::Int(int) => put_int(out, int),
        Base::Name(name) => put_name(out, name),
        Base::Text(None) => Ok(out.push_str("string")?),
        Base::Text(Some(bound)) => {
            out.push_str("string<")?;
            put_expr(alloc, out, bound)?;
            out.push_str(">")?;
            Ok(())
        }
    }
}

/// A type: sequences by brackets.
pub fn put_type(alloc: Global, out: &mut String, name: &TypeName) -> Result<(), Bad> {
    match &name.node {
        TypeNode::Base(base) => put_base(alloc, out, base),
        TypeNode::Sequence(element, bound) => {
            out.push_str("[")?;
            put_type(alloc, out, element)?;
            if let Some(bound) = bound {
                out.push_str("; ")?;
                put_expr(alloc, out, bound)?;
            }
            out.push_str("]")?;
            Ok(())
        }
    }
}
