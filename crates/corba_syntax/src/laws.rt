//! Laws of the grammar. Each function does nothing; its contract is the law.

ghost use Rattle.std.specs.Prelude.{◌≡◌, ℕ, List};
ghost use Rattle.idl_lex.specs.declared.kinds.Token.{Token};
ghost use Rattle.idl_read.specs.Grammar.{kinds};
ghost use Rattle.corba_syntax.specs.OperationSpelling.{attribute, operation};
ghost use Rattle.corba_syntax.specs.declared.operation_tree.Attribute.{Attribute};
ghost use Rattle.corba_syntax.specs.declared.operation_tree.Operation.{Operation};
ghost use Rattle.corba_syntax.specs.InterfaceSpelling.{interface};
ghost use Rattle.corba_syntax.specs.declared.interface_tree.Interface.{Interface};

/// Tokens are those of at most one declaration of attributes.
pub fn one_attribute()
    ensures { (levels : ℕ) (a b : Attribute) (tokens : List Token)
        → attribute levels a (kinds tokens) → attribute levels b (kinds tokens) → a ≡ b }
{}

/// Tokens are those of at most one operation.
pub fn one_operation()
    ensures { (levels : ℕ) (a b : Operation) (tokens : List Token)
        → operation levels a (kinds tokens) → operation levels b (kinds tokens) → a ≡ b }
{}

/// Tokens are those of at most one interface.
pub fn one_interface()
    ensures { (levels : ℕ) (a b : Interface) (tokens : List Token)
        → interface levels a (kinds tokens) → interface levels b (kinds tokens) → a ≡ b }
{}
