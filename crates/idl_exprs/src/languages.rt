//! The languages whose files have expressions, and what each has of them.

ghost use Rattle.std.specs.Prelude.{◌≡◌};
ghost use Rattle.idl_exprs.specs.Spelling.{has, has_signs};

use idl_const::BinaryOp;

/// A language whose files have expressions.
#[derive(Clone, Copy, Debug, PartialEq, Eq)]
pub enum Language {
    /// CORBA IDL: literals and names, with all operators.
    Corba,
    /// MIG: numbers, with `+`, `-`, `*` and `/` between them.
    Mig,
}

/// Whether the language has operators before operands.
pub(crate) fn has_signs(language: Language) -> bool
    ensures { result ≡ has_signs language }
{
    match language {
        Language::Corba => true,
        Language::Mig => false,
    }
}

/// Whether the language has this operator between operands.
pub(crate) fn has(language: Language, op: BinaryOp) -> bool
    ensures { result ≡ has language op }
{
    match (language, op) {
        (Language::Corba, _) => true,
        (Language::Mig, BinaryOp::Add | BinaryOp::Sub | BinaryOp::Mul | BinaryOp::Div) => true,
        (Language::Mig, _) => false,
    }
}
