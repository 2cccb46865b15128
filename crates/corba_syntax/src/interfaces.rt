//! Interfaces.

ghost use Rattle.std.specs.Prelude.{◌≡◌, ◌≤◌};
ghost use Rattle.idl_read.specs.Reading.{Gives};
ghost use Rattle.corba_syntax.specs.InterfaceReaders.{bases_at, interface_at};

use crate::Reference;
use crate::interface_tree::{Export, Interface};
use idl_exprs::Identifier;
use idl_lex::Token;
use idl_read::{Parsed, Production, begins_mark, each_nested, joined_nested, mark, word};
use kit_base::Listed;
use std::alloc::Global;

/// The interfaces that are inherited from (`<inheritance_spec>`); none where no `:` comes first.
#[tactic(auto, unfolding(crate::specs::InterfaceReaders::bases_at))]
fn bases(alloc: Global, levels: u32, tokens: &[Token]) -> Parsed<'_, Listed<Reference>>
    requires { levels ≤ 32 }
    ensures { Gives (λ x. (x.0, x.1.now)) result (bases_at levels tokens.now) }
{
    if begins_mark(tokens, b":") {
        let rest = mark(tokens, b":")?;
        let (names, rest) = joined_nested::<Reference>(alloc, levels, rest, b",")?;
        return Ok((names, rest));
    }
    Ok((Listed::new(alloc), tokens))
}

/// An interface (`<interface_dcl>`) within so many levels and its `;`, and the tokens after them.
#[tactic(auto, unfolding(crate::specs::InterfaceReaders::interface_at))]
pub fn interface(alloc: Global, levels: u32, tokens: &[Token]) -> Parsed<'_, Interface>
    requires { levels ≤ 32 }
    ensures { Gives (λ x. (x.0, x.1.now)) result (interface_at levels tokens.now) }
{
    let rest = word(tokens, b"interface")?;
    let (name, rest) = Identifier::read(alloc, rest)?;
    let (bases, rest) = bases(alloc, levels, rest)?;
    let rest = mark(rest, b"{")?;
    let (exports, rest) = each_nested::<Export>(alloc, levels, rest)?;
    let rest = mark(rest, b"}")?;
    let rest = mark(rest, b";")?;
    Ok((
        Interface {
            name,
            bases,
            exports,
        },
        rest,
    ))
}
