//! The numbers that words encode, and whether they are a node's.

ghost use Rattle.std.specs.Prelude.{◌≡◌, ◌<◌, ◌^◌, true};
ghost use Rattle.mint.specs.Types.{type_at, number, label, text, scalar_of};
ghost use Rattle.mint.specs.declared.kind.Count.TheVariants.{Any};
ghost use Rattle.wire_def.specs.Arrays.{kind_of};
ghost use Rattle.wire_def.specs.Scalars.{number_of, is_signed};
ghost use Rattle.wire_def.specs.Orders.{width_as};
ghost use Rattle.cast_stub.specs.Parts.{IsThere, on_some};
ghost use Rattle.stub_receiver.specs.Drawn.{array_at, scalar_in, passing, digit_passing};

use mint::fits::has_label;
use mint::kind::Kind;
use mint::node::{Labels, Node, Tag};
use mint::table::Mint;

/// The number of a word in two's complement.
fn signed(width: u32, m: u64) -> i128
    requires { m < 256 ^ width }
    ensures { result ≡ number_of true (width_as width) m }
{
    let n = i128::from(m);
    match width {
        1 => { if n < 128 { n } else { n - 256 } }
        2 => { if n < 32768 { n } else { n - 65536 } }
        4 => { if n < 2147483648 { n } else { n - 4294967296 } }
        _ => {
            if n < 9223372036854775808 {
                n
            } else {
                n - 18446744073709551616
            }
        }
    }
}

/// The number of a word, for a kind.
fn kind_number(kind: Kind, width: u32, m: u64) -> i128
    requires { m < 256 ^ width }
    ensures { result ≡ number_of (is_signed (number kind)) (width_as width) m }
{
    match kind {
        Kind::I8 | Kind::I16 | Kind::I32 | Kind::I64 => signed(width, m),
        _ => i128::from(m),
    }
}

/// The number of a word, where it is one of the tag's.
pub fn tag_number(tag: &Tag, width: u32, m: u64) -> Option<i128>
    requires { m < 256 ^ width }
    ensures { result ≡ passing (width_as width) m (scalar_of tag.now) }
{
    match tag {
        Tag::Num(kind) => number_in_row(*kind, width, m),
        Tag::Enum(labels) => label_number(labels, width, m),
    }
}

/// The number of a word, where it is one of the labels.
fn label_number(labels: &Labels, width: u32, m: u64) -> Option<i128>
    requires { m < 256 ^ width }
    ensures { result ≡ passing (width_as width) m (label labels.now) }
{
    let n = signed(width, m);
    match has_label(labels, n) {
        true => Some(n),
        false => None,
    }
}

/// The number of a node that is a scalar, if it is one of its numbers.
#[tactic(auto, using(crate::proofs::Drafting::drafting))]
pub fn scalar_number(mint: &Mint, id: u32, width: u32, m: u64) -> Option<i128>
    requires fits { m < 256 ^ width }
    requires scalar { IsThere (scalar_in (type_at mint.now id)) }
    ensures { result ≡ on_some (scalar_in (type_at mint.now id)) (passing (width_as width) m) }
{
    let Some(node) = mint.node(id) else {
        unreachable!()
    };
    match node {
        Node::Num(kind) => number_in_row(*kind, width, m),
        Node::Enum(labels) => label_number(labels, width, m),
        Node::Void => unreachable!(),
        Node::Text(_) => unreachable!(),
        Node::Row(_, _) => unreachable!(),
        Node::Group(_) => unreachable!(),
        Node::Items(_, _) => unreachable!(),
        Node::Choice(_, _, _) => unreachable!(),
        Node::Maybe(_) => unreachable!(),
    }
}

/// The number of a word, where it is one of the kind's.
fn number_in_row(kind: Kind, width: u32, m: u64) -> Option<i128>
    requires { m < 256 ^ width }
    ensures { result ≡ passing (width_as width) m (number kind) }
{
    let n = kind_number(kind, width, m);
    match kind.has(n) {
        true => Some(n),
        false => None,
    }
}

/// The number of a word, where it is a letter's.
fn letter_number(width: u32, m: u64) -> Option<i128>
    requires { m < 256 ^ width }
    ensures { result ≡ digit_passing (text Any) (width_as width) m }
{
    match number_in_row(Kind::Char, width, m) {
        Some(n) if n != 0 => Some(n),
        _ => None,
    }
}

/// The number of a node's row or text, if it is one of its numbers.
#[tactic(auto, using(crate::proofs::Drafting::drafting))]
pub fn digit_number(mint: &Mint, id: u32, width: u32, m: u64) -> Option<i128>
    requires fits { m < 256 ^ width }
    ensures { result ≡ digit_passing (array_at mint.now id) (width_as width) m }
{
    let Some(node) = mint.node(id) else {
        return letter_number(width, m);
    };
    match node {
        Node::Row(kind, _) => number_in_row(*kind, width, m),
        Node::Void => letter_number(width, m),
        Node::Num(_) => letter_number(width, m),
        Node::Enum(_) => letter_number(width, m),
        Node::Text(_) => letter_number(width, m),
        Node::Group(_) => letter_number(width, m),
        Node::Items(_, _) => letter_number(width, m),
        Node::Choice(_, _, _) => letter_number(width, m),
        Node::Maybe(_) => letter_number(width, m),
    }
}

/// The kind of the numbers of a node's row or text.
#[tactic(auto, using(crate::proofs::Drafting::drafting))]
pub fn kind_at(mint: &Mint, id: u32) -> Kind
    ensures { result ≡ kind_of (array_at mint.now id) }
{
    let Some(node) = mint.node(id) else {
        return Kind::Char;
    };
    match node {
        Node::Row(kind, _) => *kind,
        Node::Void => Kind::Char,
        Node::Num(_) => Kind::Char,
        Node::Enum(_) => Kind::Char,
        Node::Text(_) => Kind::Char,
        Node::Group(_) => Kind::Char,
        Node::Items(_, _) => Kind::Char,
        Node::Choice(_, _, _) => Kind::Char,
        Node::Maybe(_) => Kind::Char,
    }
}
