//! The laws of the JSON of values, each the contract of a function that does nothing.

ghost use Rattle.json_shape.specs.Laws.{OneValue, RecordsAreReadBack, ValueOrNone, WrittenPresents};

/// A tree presents at most one value.
pub fn json_presents_one_value()
    ensures { OneValue }
{}

/// The tree that is written for a well-typed value presents it.
pub fn written_json_presents()
    ensures { WrittenPresents }
{}

/// A tree presents a value, or none.
pub fn json_is_decided()
    ensures { ValueOrNone }
{}

/// A request record that is written is read as the same request, and presents the same value.
pub fn records_are_read_back()
    ensures { RecordsAreReadBack }
{}
