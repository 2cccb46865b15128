//! The laws of binding, each the contract of a function that does nothing.

ghost use Rattle.pres.specs.Laws.{UnitsAreBound};

/// Each sound unit that has no reason against it has a binding.
pub fn units_are_bound()
    ensures { UnitsAreBound }
{}
