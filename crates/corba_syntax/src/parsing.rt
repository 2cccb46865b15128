//! The tree of a file.

ghost use Rattle.std.specs.Prelude.{◌≡◌, IfOk, IfErr, List};
ghost use Rattle.idl_lex.specs.declared.kinds.Token.{Token};
ghost use Rattle.corba_syntax.specs.Derivation.{Derives, Explains, TokensAreDecided};
ghost use Rattle.corba_syntax.specs.declared.definition_tree.Definition.{Definition};

use crate::Tree;
use crate::definitions::outermost;
use idl_lex::Tokens;
use idl_read::{Halt, SyntaxErr};
use std::alloc::Global;

/// The tree that has these tokens, or the line where the first definition begins that has none.
pub fn parse(alloc: Global, tokens: &Tokens) -> Result<Tree, SyntaxErr>
    ensures tree { IfOk result (λ tree. Derives tree tokens.now) }
    ensures stop { IfErr result (λ fault. Explains fault tokens.now) }
{
    let mut defs = Tree::new(alloc);
    let mut rest = tokens.as_slice();
    'defs: while let [first, ..] = rest {
        match outermost(alloc, rest) {
            Ok((def, after)) => {
                defs.push(def)?;
                rest = after;
            }
            Err(Halt::Syntax) => return Err(SyntaxErr::Syntax(first.line)),
            Err(Halt::NoMemory) => return Err(SyntaxErr::NoMemory),
        }
    }
    Ok(defs)
}

/// Tokens derive from at most one tree.
pub fn one_tree()
    ensures { (a b : List Definition) (tokens : List Token) → Derives a tokens → Derives b tokens → a ≡ b }
{}

/// All tokens have a tree, or have none and a line at which they fail.
pub fn tokens_are_decided()
    ensures { TokensAreDecided }
{}
