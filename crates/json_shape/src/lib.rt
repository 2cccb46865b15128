//! Values as JSON and back, by the names that an interface gives them.
#![tactic(auto)]

mod errors;
mod field_order;
mod laws;
mod members;
mod names;
mod numbers;
mod objects;
mod operations;
mod printed_records;
mod printed_refusals;
mod printed_replies;
mod printed_scalars;
mod printing;
mod reading;
mod records;
mod replies;
mod requests;
mod rows;
mod scalars;
mod texts;
mod usual;
mod usual_answers;
mod usual_args;
mod usual_digits;
mod usual_heads;
mod usual_replies;
mod usual_requests;
mod usual_scalars;
mod usual_tokens;
mod writing;
mod written_records;

pub use errors::{RecordErr, ShapeErr};
pub use json::Scratch;
pub use laws::{
    json_is_decided, json_presents_one_value, records_are_read_back, written_json_presents,
};
pub use operations::dotted;
pub use printed_records::request_text;
pub use printed_replies::reply_text;
pub use reading::to_value;
pub use records::RequestRec;
pub use replies::{read_given, read_reply, reply_named};
pub use requests::read_request;
pub use usual_replies::direct_reply;
pub use usual_requests::direct_request;
pub use writing::to_json;
pub use written_records::{write_reply, write_request};
