//! Laws of the grammar. Each function does nothing; its contract is the law.

ghost use Rattle.std.specs.Prelude.{◌≡◌, ℕ, List, Option, false};
ghost use Rattle.idl_lex.specs.declared.kinds.TokenKind.{TokenKind};
ghost use Rattle.idl_exprs.specs.Trees.{Tree};
ghost use Rattle.corba_decls.specs.declared.type_tree.Base.{Base};
ghost use Rattle.corba_decls.specs.TypeSpelling.{type};
ghost use Rattle.idl_lex.specs.declared.kinds.Token.{Token};
ghost use Rattle.idl_read.specs.Grammar.{kinds};
ghost use Rattle.corba_decls.specs.MemberSpelling.{structure, exception, enumeration};
ghost use Rattle.corba_decls.specs.declared.member_tree.Struct.{Struct};
ghost use Rattle.corba_decls.specs.declared.member_tree.Exception.{Exception};
ghost use Rattle.corba_decls.specs.declared.member_tree.Enum.{Enum};
ghost use Rattle.corba_decls.specs.DeclSpelling.{declaration};
ghost use Rattle.corba_decls.specs.declared.decl_tree.Declaration.{Declaration};

/// Tokens are those of at most one type.
pub fn one_type()
    ensures { (levels : ℕ) (a b : List (Option Tree) × Base) (tokens : List TokenKind)
        → type levels a.0 a.1 false tokens → type levels b.0 b.1 false tokens → a ≡ b }
{}

/// Tokens are those of at most one struct.
pub fn one_structure()
    ensures { (levels : ℕ) (a b : Struct) (tokens : List Token) → structure levels a (kinds tokens)
        → structure levels b (kinds tokens) → a ≡ b }
{}

/// Tokens are those of at most one exception.
pub fn one_exception()
    ensures { (levels : ℕ) (a b : Exception) (tokens : List Token) → exception levels a (kinds tokens)
        → exception levels b (kinds tokens) → a ≡ b }
{}

/// Tokens are those of at most one enumeration.
pub fn one_enumeration()
    ensures { (a b : Enum) (tokens : List Token) → enumeration a (kinds tokens)
        → enumeration b (kinds tokens) → a ≡ b }
{}

/// Tokens are those of at most one declaration.
pub fn one_declaration()
    ensures { (levels : ℕ) (a b : Declaration) (tokens : List TokenKind) → declaration levels a tokens
        → declaration levels b tokens → a ≡ b }
{}
