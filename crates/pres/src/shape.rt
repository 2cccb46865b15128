//! What names a node has besides what its type says.

use crate::{FieldTable, ItemTable};
use kit_base::Listed;

/// The names that belong to a node.
#[derive(Drop)]
pub enum Shape {
    /// None.
    Plain,
    /// Those of a struct's or an exception's fields, in order.
    FieldNames(FieldTable),
    /// The items of an enum, or of the enum that a union's tag is, as they are declared.
    LabelNames(ItemTable),
}

/// The shapes of a table's nodes, in order.
pub type Pres = Listed<Shape>;
