//! Declarations.

ghost use Rattle.idl_names.specs.Answers.{Gives};
ghost use Rattle.corba_shapes.specs.Held.{state};
ghost use Rattle.corba_shapes.specs.Declarations.{declaration_on};

use crate::aliases::typedef;
use crate::constants::constant;
use crate::enums::enum_;
use crate::state::Shapes;
use crate::structs::{exception, struct_};
use crate::unions::union_;
use aoi::NameErr;
use corba_decls::Declaration;
use std::alloc::Global;

/// Declares what a declaration declares, by its number.
pub fn declare(alloc: Global, r: &mut Shapes, d: u32, x: &Declaration) -> Result<(), NameErr>
    ensures { Gives (λ _. state r.new) result
        (declaration_on d (state r.old) x.now) }
{
    match x {
        Declaration::Typedef(t) => typedef(alloc, r, d, t),
        Declaration::Struct(t) => struct_(alloc, r, d, t),
        Declaration::Union(u) => union_(alloc, r, d, u),
        Declaration::Enum(e) => enum_(alloc, r, d, e),
        Declaration::Constant(c) => constant(alloc, r, d, c),
        Declaration::Exception(e) => exception(alloc, r, d, e),
    }
}
