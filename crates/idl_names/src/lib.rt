//! What the resolution of names answers, for every front end, and what the types that names stand for have in common.
#![tactic(auto)]

mod labels;
mod names;
mod numbers;
mod refusals;
mod table;
mod types;
mod uses;

pub use labels::{add_label, add_number_of, is_label, is_of};
pub use names::Names;
pub use numbers::{add_integer, add_number, after, has_integer, has_number};
pub use refusals::{count_of, fault, in_range, natural, next_decl, refuse, want};
pub use table::Table;
pub use types::{
    add_type, array_of, arrays_of, boxed, enum_of, item_of, optional_of, struct_of, union_of,
};
pub use uses::{Tag, Use, tag_of_use, ty_of_use};
