//! Names that refer to interfaces and exceptions.

ghost use Rattle.std.specs.Prelude.{◌≡◌, ◌≤◌};

use crate::operation_tree::Reference;
use idl_exprs::scoped;
use idl_lex::Token;
use idl_read::{Halt, Nested, Parsed, begins_mark};
use std::alloc::Global;

impl Nested for Reference {
    ghost use Rattle.corba_syntax.specs.OperationReaders.{is_further, reference_at};

    ghost goes = { is_further };

    ghost within = { reference_at };

    fn is_next(tokens: &[Token]) -> bool {
        begins_mark(tokens, b",")
    }

    fn read(alloc: Global, levels: u32, tokens: &[Token]) -> Parsed<'_, Self> {
        if levels == 0 {
            return Err(Halt::Syntax);
        }
        let (name, rest) = scoped(alloc, tokens)?;
        Ok((Reference { name }, rest))
    }
}
