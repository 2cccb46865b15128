//! A law of expressions. The function does nothing; its contract is the law.

ghost use Rattle.std.specs.Prelude.{◌≡◌, ℕ, List};
ghost use Rattle.idl_lex.specs.declared.kinds.TokenKind.{TokenKind};
ghost use Rattle.idl_exprs.specs.declared.languages.Language.{Language};
ghost use Rattle.idl_exprs.specs.Trees.{Tree};
ghost use Rattle.idl_exprs.specs.Spelling.{expression_in};

/// Tokens are those of at most one expression of a language.
pub fn one_expression()
    ensures { (language : Language) (levels : ℕ) (a b : Tree) (tokens : List TokenKind)
        → expression_in language levels a tokens → expression_in language levels b tokens → a ≡ b }
{}
