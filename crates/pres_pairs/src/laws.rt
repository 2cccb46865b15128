//! The law of pairs, as the contract of a function that does nothing.

ghost use Rattle.pres_pairs.specs.Laws.{PairsHaveOneType};

/// Two bindings of one unit have messages of the same types for an operation, whatever their back ends: so the same values
/// are well typed.
pub fn bindings_have_one_type()
    ensures { PairsHaveOneType }
{}
