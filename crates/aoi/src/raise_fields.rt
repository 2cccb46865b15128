//! The members of an exception, whose names are looked at once.

ghost use Rattle.std.specs.Prelude.{◌≡◌, true};
ghost use Rattle.aoi.specs.Shapes.{members};
ghost use Rattle.aoi.specs.Names.{AreAscii, names_of};

use crate::{Field, Fields};
use std::marker::Model;

/// The members of an exception, as fields, which contracts see as their list. It is kept whether all their names are of
/// ASCII.
#[derive(Debug, Drop)]
pub struct RaiseFields {
    fields: Fields,
    ascii: bool,
}

impl Model for RaiseFields {
    ghost use Rattle.std.specs.Prelude.{◌≡◌, List, true};
    ghost use Rattle.std.specs.Coded.{coded_list};
    ghost use Rattle.aoi.specs.declared.types.Field.{Field};
    ghost use Rattle.aoi.specs.contracts.types.Field as f;
    ghost use Rattle.aoi.specs.Shapes.{members};
    ghost use Rattle.aoi.specs.Names.{AreAscii, names_of};

    ghost Value = { List Field };

    ghost coded = { coded_list f.the_row.coded };

    ghost view = { λ m. m.fields };

    ghost invariant = { λ m. m.ascii ≡ true → AreAscii (names_of (members m.fields)) };
}

/// Whether the names of fields are of ASCII.
fn are_named_in_ascii(fields: &[Field]) -> bool
    ensures { result ≡ true → AreAscii (names_of (members fields.now)) }
{
    for field in fields {
        if !field.name.as_slice().is_ascii() {
            return false;
        }
    }
    true
}

impl RaiseFields {
    /// These fields.
    pub fn new(fields: Fields) -> RaiseFields
        ensures { result ≡ fields }
    {
        let ascii = are_named_in_ascii(fields.as_slice());
        RaiseFields { fields, ascii }
    }

    /// The fields.
    pub fn as_slice(&self) -> &[Field]
        ensures { result.now ≡ self.now }
    {
        self.fields.as_slice()
    }

    /// Whether all names are of ASCII, without a look at them.
    pub fn are_ascii(&self) -> bool
        ensures { result ≡ true → AreAscii (names_of (members self.now)) }
    {
        self.ascii
    }
}
