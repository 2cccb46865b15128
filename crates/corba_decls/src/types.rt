//! Types.

ghost use Rattle.std.specs.Prelude.{◌≡◌, ◌≤◌, ◌<◌, ◌+◌};
ghost use Rattle.idl_read.specs.Reading.{Gives};
ghost use Rattle.corba_decls.specs.TypeReaders.{plain_at, string_at, base_at, bound_at, type_by, shared_at, type_at};

use crate::ints::{begins_int, int};
use crate::simple::{begins_long_double, begins_simple, close, simple};
use crate::type_tree::{Base, TypeName};
use idl_exprs::{Expr, expression, scoped};
use idl_lex::Token;
use idl_read::{Halt, Parsed, begins, begins_mark, mark, word};
use std::alloc::Global;

/// A type that is not a sequence or a string.
#[tactic(auto, unfolding(crate::specs::TypeReaders::plain_at))]
fn plain(alloc: Global, tokens: &[Token]) -> Parsed<'_, Base>
    ensures { Gives (λ x. (x.0, x.1.now)) result (plain_at tokens.now) }
{
    if begins_simple(tokens) {
        let (simple, rest) = simple(tokens)?;
        return Ok((Base::Simple(simple), rest));
    }
    if begins_long_double(tokens) {
        let rest = word(tokens, b"long")?;
        let rest = word(rest, b"double")?;
        return Ok((Base::LongDouble, rest));
    }
    if begins_int(tokens) {
        let (int, rest) = int(tokens)?;
        return Ok((Base::Int(int), rest));
    }
    let (name, rest) = scoped(alloc, tokens)?;
    Ok((Base::Name(name), rest))
}

/// What follows `string`, and whether its last mark ends the sequence around it too.
#[tactic(auto, unfolding(crate::specs::TypeReaders::string_at))]
fn string(alloc: Global, levels: u32, tokens: &[Token]) -> Result<(Base, bool, &[Token]), Halt>
    requires { levels ≤ 32 }
    ensures { Gives (λ x. ((x.0, x.1), x.2.now)) result (string_at levels tokens.now) }
{
    if begins_mark(tokens, b"<") {
        let rest = mark(tokens, b"<")?;
        let (bound, rest) = expression(alloc, levels, true, rest)?;
        let (shared, rest) = close(rest)?;
        return Ok((Base::Text(Some(bound)), shared, rest));
    }
    Ok((Base::Text(None), false, tokens))
}

/// A type that is not a sequence, and whether its last mark ends the sequence around it too.
#[tactic(auto, unfolding(crate::specs::TypeReaders::base_at))]
fn base(alloc: Global, levels: u32, tokens: &[Token]) -> Result<(TypeName, bool, &[Token]), Halt>
    requires { levels ≤ 32 }
    ensures { Gives (λ x. ((x.0, x.1), x.2.now)) result (base_at levels tokens.now) }
{
    if begins(tokens, b"string") {
        let rest = word(tokens, b"string")?;
        let (text, shared, rest) = string(alloc, levels, rest)?;
        return Ok((TypeName::of_base(text), shared, rest));
    }
    let (plain, rest) = plain(alloc, tokens)?;
    Ok((TypeName::of_base(plain), false, rest))
}

/// The bound of a sequence, and whether the mark that ends it ends the sequence around it too.
#[tactic(auto, unfolding(crate::specs::TypeReaders::bound_at))]
fn bound(
    alloc: Global,
    levels: u32,
    tokens: &[Token],
) -> Result<(Option<Expr>, bool, &[Token]), Halt>
    requires { levels ≤ 32 }
    ensures { Gives (λ x. ((x.0, x.1), x.2.now)) result (bound_at levels tokens.now) }
{
    if begins_mark(tokens, b",") {
        let rest = mark(tokens, b",")?;
        let (bound, rest) = expression(alloc, levels, true, rest)?;
        let (shared, rest) = close(rest)?;
        return Ok((Some(bound), shared, rest));
    }
    let (shared, rest) = close(tokens)?;
    Ok((None, shared, rest))
}

/// A type within so many levels and one more, and whether its last mark ends the sequence around
/// it too.
#[cycle(sharing)]
fn sharing(alloc: Global, below: u32, tokens: &[Token]) -> Result<(TypeName, bool, &[Token]), Halt>
    requires { below < 32 }
    ensures { Gives (λ x. ((x.0, x.1), x.2.now)) result (type_by (shared_at below) (below + 1) tokens.now) }
{
    if begins(tokens, b"sequence") {
        let rest = word(tokens, b"sequence")?;
        let rest = mark(rest, b"<")?;
        let (element, ended, rest) = shared(alloc, below, rest)?;
        if ended {
            let sequence = TypeName::of_elements(alloc, element, None)?;
            return Ok((sequence, false, rest));
        }
        let (bound, shared, rest) = bound(alloc, below + 1, rest)?;
        let sequence = TypeName::of_elements(alloc, element, bound)?;
        return Ok((sequence, shared, rest));
    }
    base(alloc, below + 1, tokens)
}

/// A type within so many levels, and whether its last mark ends the sequence around it too.
#[cycle(sharing)]
fn shared(alloc: Global, levels: u32, tokens: &[Token]) -> Result<(TypeName, bool, &[Token]), Halt>
    requires { levels ≤ 32 }
    ensures { Gives (λ x. ((x.0, x.1), x.2.now)) result (shared_at levels tokens.now) }
{
    if levels == 0 {
        return Err(Halt::Syntax);
    }
    sharing(alloc, levels - 1, tokens)
}

/// A type (`<type_spec>`) within so many levels, and the tokens after it.
#[tactic(auto, unfolding(crate::specs::TypeReaders::type_at))]
pub fn type_name(alloc: Global, levels: u32, tokens: &[Token]) -> Parsed<'_, TypeName>
    requires { levels ≤ 32 }
    ensures { Gives (λ x. (x.0, x.1.now)) result (type_at levels tokens.now) }
{
    let (name, ended, rest) = shared(alloc, levels, tokens)?;
    if ended {
        return Err(Halt::Syntax);
    }
    Ok((name, rest))
}
