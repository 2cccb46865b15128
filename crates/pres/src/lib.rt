//! How the data of a program stands for the messages of an interface.
#![tactic(auto)]

mod binding;
mod bound;
mod build;
mod draft;
mod drawing;
mod elements;
mod errors;
mod faults;
mod fields;
mod held;
mod items;
mod key_order;
mod laws;
mod messages;
mod naming;
mod ops;
mod raise_table;
mod raises;
mod scalars;
mod shape;
mod sizes;
mod sorting;
mod texts;
mod units;

pub use binding::bind;
pub use bound::Bound;
pub use errors::BindErr;
pub use fields::FieldTable;
pub use items::ItemTable;
pub use laws::units_are_bound;
pub use messages::gets_null;
pub use ops::{Op, Ops};
pub use shape::{Pres, Shape};
pub use texts::{is_full_text_of, is_text_of, text_after, text_of};
