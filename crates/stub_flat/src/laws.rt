//! The law of flats, as the contract of a function that does nothing.

ghost use Rattle.stub_flat.specs.Laws.{OneFlatOneMeaning};

/// Codes of one flat append the same octets from position 0, for every head and every value of the node's type.
pub fn equal_flats_have_one_meaning()
    ensures { OneFlatOneMeaning }
{}
