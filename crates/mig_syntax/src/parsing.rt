//! The tree of a file.

ghost use Rattle.std.specs.Prelude.{◌≡◌, IfOk, IfErr, List};
ghost use Rattle.idl_lex.specs.declared.kinds.Token.{Token};
ghost use Rattle.idl_read.specs.Files.{AreDefs, Explains as explains};
ghost use Rattle.mig_syntax.specs.Derivation.{statement, first_line, Derives, Explains, TokensAreDecided};
ghost use Rattle.mig_syntax.specs.declared.tree.Subsystem.{Subsystem};

use crate::Tree;
use crate::statements::{heading, statement};
use crate::tree::{Statement, Subsystem};
use idl_lex::{Token, Tokens};
use idl_read::{Halt, SyntaxErr};
use kit_base::Listed;
use std::alloc::Global;

/// The statements that have these tokens.
fn statements(alloc: Global, tokens: &[Token]) -> Result<Listed<Statement>, SyntaxErr>
    ensures tree { IfOk result (λ items. AreDefs statement items tokens.now) }
    ensures stop { IfErr result (λ fault. explains statement fault tokens.now) }
{
    let mut items = Listed::new(alloc);
    let mut rest = tokens;
    'items: while let [first, ..] = rest {
        match statement(alloc, rest) {
            Ok((item, after)) => {
                items.push(item)?;
                rest = after;
            }
            Err(Halt::Syntax) => return Err(SyntaxErr::Syntax(first.line)),
            Err(Halt::NoMemory) => return Err(SyntaxErr::NoMemory),
        }
    }
    Ok(items)
}

/// The line of the first token, and 1 where there is none.
fn first_line(tokens: &[Token]) -> u32
    ensures { result ≡ first_line tokens.now }
{
    match tokens {
        [first, ..] => first.line,
        [] => 1,
    }
}

/// The tree that has these tokens.
pub fn parse(alloc: Global, tokens: &Tokens) -> Result<Tree, SyntaxErr>
    ensures tree { IfOk result (λ tree. Derives tree tokens.now) }
    ensures stop { IfErr result (λ fault. Explains fault tokens.now) }
{
    let all = tokens.as_slice();
    match heading(alloc, all) {
        Ok((name, base, rest)) => match statements(alloc, rest) {
            Ok(statements) => Ok(Subsystem {
                name,
                base,
                statements,
            }),
            Err(fault) => Err(fault),
        },
        Err(Halt::Syntax) => Err(SyntaxErr::Syntax(first_line(all))),
        Err(Halt::NoMemory) => Err(SyntaxErr::NoMemory),
    }
}

/// Tokens are those of at most one tree.
pub fn one_tree()
    ensures { (a b : Subsystem) (tokens : List Token) → Derives a tokens → Derives b tokens → a ≡ b }
{}

/// All tokens have a tree, or have none and a line on which they fail.
pub fn tokens_are_decided()
    ensures { TokensAreDecided }
{}
