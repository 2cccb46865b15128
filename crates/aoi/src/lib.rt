//! The interface of a file: its named types, and its interfaces with their operations.
#![tactic(auto)]

mod distinct;
mod faults;
mod full_names;
mod interfaces;
mod raise_fields;
mod soundness;
mod types;
mod units;

pub use faults::{NameErr, NameFault};
pub use full_names::{FullName, FullNames};
pub use interfaces::{Interface, Interfaces, Operation, Operations, Raise, Raises};
pub use raise_fields::RaiseFields;
pub use soundness::{is_sound, unfolded};
pub use types::{Counts, Field, Fields, Items, Ty, Types, UnionArms};
pub use units::{Unit, UnitErr};
