//! What an interface declares.

ghost use Rattle.std.specs.Prelude.{◌≡◌, ◌≤◌};
ghost use Rattle.idl_read.specs.Reading.{Gives};
ghost use Rattle.corba_syntax.specs.InterfaceReaders.{exported_at};

use crate::interface_tree::Export;
use crate::{attribute, begins_attribute, operation};
use corba_decls::{begins_declaration, declaration};
use idl_lex::Token;
use idl_read::{Nested, Parsed, mark, stands_before};
use std::alloc::Global;

/// What is declared, without the `;` that ends it.
#[tactic(auto, unfolding(crate::specs::InterfaceReaders::exported_at))]
fn exported(alloc: Global, levels: u32, tokens: &[Token]) -> Parsed<'_, Export>
    requires { levels ≤ 32 }
    ensures { Gives (λ x. (x.0, x.1.now)) result (exported_at levels tokens.now) }
{
    if begins_declaration(tokens) {
        let (item, rest) = declaration(alloc, levels, tokens)?;
        return Ok((Export::Declaration(item), rest));
    }
    if begins_attribute(tokens) {
        let (item, rest) = attribute(alloc, levels, tokens)?;
        return Ok((Export::Attribute(item), rest));
    }
    let (item, rest) = operation(alloc, levels, tokens)?;
    Ok((Export::Operation(item), rest))
}

impl Nested for Export {
    ghost use Rattle.idl_exprs.specs.Readers.{is_open};
    ghost use Rattle.corba_syntax.specs.InterfaceReaders.{export_at};

    ghost goes = { is_open };

    ghost within = { export_at };

    fn is_next(tokens: &[Token]) -> bool {
        stands_before(tokens, b"}")
    }

    #[tactic(auto, unfolding(crate::specs::InterfaceReaders::export_at))]
    fn read(alloc: Global, levels: u32, tokens: &[Token]) -> Parsed<'_, Self> {
        let (item, rest) = exported(alloc, levels, tokens)?;
        let rest = mark(rest, b";")?;
        Ok((item, rest))
    }
}
