//! A law of the trees that the grammar gives. The function does nothing; its contract is the law.

ghost use Rattle.std.specs.Prelude.{◌≡◌, ℕ, List, true};
ghost use Rattle.idl_lex.specs.declared.kinds.TokenKind.{TokenKind};
ghost use Rattle.corba_decls.specs.declared.decl_tree.Declaration.{Declaration as DeclarationTree};
ghost use Rattle.corba_decls.specs.DeclSpelling.{declaration};
ghost use Rattle.corba_shapes.specs.Declarations.{is_whole};

/// The declarations that the grammar gives are whole: no struct and no enum of them is empty.
pub fn declarations_are_whole()
    ensures { (n : ℕ) (x : DeclarationTree) (ks : List TokenKind) → declaration n x ks → is_whole x ≡ true }
{}
