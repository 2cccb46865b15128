//! What the declarations of types, constants and exceptions of a CORBA IDL file declare (CORBA, chapter on
//! IDL syntax and semantics, "Type declaration", "Constant declaration" and "Exception declaration").
#![tactic(auto)]

mod aliases;
mod constants;
mod declarations;
mod enums;
mod fields;
mod forms;
mod laws;
mod state;
mod structs;
mod types;
mod unions;

pub use declarations::declare;
pub use forms::{Core, Form, form_ty, named_type, type_form};
pub use laws::declarations_are_whole;
pub use state::Shapes;
pub use types::TypeList;
