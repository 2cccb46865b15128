//! Which of two faults of a name is reported, and the refusal of a declaration.

ghost use Rattle.std.specs.Prelude.{◌≡◌};
ghost use Rattle.idl_names.specs.Answers.{Gives};
ghost use Rattle.corba_scopes.specs.Names.{lower_of, refused_by};

use aoi::{NameErr, NameFault};

/// The lower of two faults of one identifier: Twice is lower than CaseClash.
pub fn lower_of(f: Option<NameFault>, g: Option<NameFault>) -> Option<NameFault>
    ensures { result ≡ lower_of f g }
{
    match (f, g) {
        (None, g) => g,
        (Some(f), None) => Some(f),
        (Some(NameFault::Twice), Some(_)) => Some(NameFault::Twice),
        (Some(_), Some(g)) => Some(g),
    }
}

/// Refuses what has a fault, with the number of its declaration.
pub fn refuse_fault(decl: u32, fault: Option<NameFault>) -> Result<(), NameErr>
    ensures value { Gives (λ x. x) result (refused_by decl fault) }
    ensures exact { result ≡ refused_by decl fault }
{
    match fault {
        Some(fault) => Err(NameErr { fault, decl }),
        None => Ok(()),
    }
}
