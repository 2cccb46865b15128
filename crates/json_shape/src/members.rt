//! The members of records.

ghost use Rattle.std.specs.Prelude.{◌≡◌, option_map, unwrap_or, codes, string_bytes};
ghost use Rattle.std.specs.List.{list_all};
ghost use Rattle.std.specs.BTreeMap.{keys};
ghost use Rattle.serde_json.specs.Find.{as_str};
ghost use Rattle.serde_json.specs.View.{view};
ghost use Rattle.json_shape.specs.Members.{has_only, head_key, head_word, is_mach, word_in, head_number, is_text, is_list, is_table, text_at, number_at};
ghost use Rattle.json_shape.specs.Requests.{is_request_key};
ghost use Rattle.json_shape.specs.Replies.{is_reply_key};

use serde_json::{Map, Value as Json};
use wire_def::{Back, Head};

/// The key of the first head number.
pub(crate) fn head_key(back: Back) -> &'static str
    ensures { result.now ≡ head_key back }
{
    match back {
        Back::Xdr => "xid",
        Back::CdrBig | Back::CdrLittle => "id",
        Back::Mach => "remote",
    }
}

/// The first head number.
pub(crate) fn head_word(back: Back, head: &Head) -> u32
    ensures { result ≡ head_word back head.now }
{
    match back {
        Back::Xdr | Back::CdrBig | Back::CdrLittle => head.id,
        Back::Mach => head.remote,
    }
}

/// Whether messages are those of Mach.
pub(crate) fn is_mach(back: Back) -> bool
    ensures { result ≡ is_mach back }
{
    back == Back::Mach
}

/// Whether a request record may have a member of the key.
fn is_request_key(back: Back, key: &str) -> bool
    ensures { result ≡ is_request_key back key.now }
{
    key == "op" || key == "args" || key == head_key(back) || (is_mach(back) && key == "local")
}

/// Whether a reply record may have a member of the key.
fn is_reply_key(back: Back, key: &str) -> bool
    ensures { result ≡ is_reply_key back key.now }
{
    key == "op"
        || key == head_key(back)
        || key == "result"
        || key == "outs"
        || key == "raise"
        || key == "members"
}

/// Whether the JSON is an object with no members besides those of a request record.
pub(crate) fn has_request_keys(back: Back, json: &Json) -> bool
    ensures { result ≡ has_only (is_request_key back) (view json.now) }
{
    match json.as_object() {
        Some(members) => are_request_keys(back, members),
        None => false,
    }
}

/// Whether all members are those of a request record.
fn are_request_keys(back: Back, members: &Map<String, Json>) -> bool
    ensures { result ≡ list_all (λ k. is_request_key back (string_bytes k)) (keys members.now) }
{
    members.keys().all(|k| is_request_key(back, k.as_str()))
}

/// Whether the JSON is an object with no members besides those of a reply record.
pub(crate) fn has_reply_keys(back: Back, json: &Json) -> bool
    ensures { result ≡ has_only (is_reply_key back) (view json.now) }
{
    match json.as_object() {
        Some(members) => are_reply_keys(back, members),
        None => false,
    }
}

/// Whether all members are those of a reply record.
fn are_reply_keys(back: Back, members: &Map<String, Json>) -> bool
    ensures { result ≡ list_all (λ k. is_reply_key back (string_bytes k)) (keys members.now) }
{
    members.keys().all(|k| is_reply_key(back, k.as_str()))
}

/// The whole number of 32 bits that the JSON is.
fn word_in(json: &Json) -> Option<u32>
    ensures { result ≡ word_in (view json.now) }
{
    u32::try_from(json.as_u64()?).ok()
}

/// A head number, which is 0 where the member is absent.
pub(crate) fn head_number(member: Option<&Json>) -> Option<u32>
    ensures { result ≡ head_number (option_map (λ j. view j.now) member.entry) }
{
    match member {
        Some(json) => word_in(json),
        None => Some(0),
    }
}

/// Whether a member is a string.
pub(crate) fn is_text(member: Option<&Json>) -> bool
    ensures { result ≡ is_text (option_map (λ j. view j.now) member.entry) }
{
    match member {
        Some(json) => json.is_string(),
        None => false,
    }
}

/// Whether a member is an array, or absent.
pub(crate) fn is_list(member: Option<&Json>) -> bool
    ensures { result ≡ is_list (option_map (λ j. view j.now) member.entry) }
{
    match member {
        Some(json) => json.is_array(),
        None => true,
    }
}

/// Whether a member is an object, or absent.
pub(crate) fn is_table(member: Option<&Json>) -> bool
    ensures { result ≡ is_table (option_map (λ j. view j.now) member.entry) }
{
    match member {
        Some(json) => json.is_object(),
        None => true,
    }
}

/// The text of a member; empty where it is none.
pub(crate) fn text_at<'a>(json: &'a Json, key: &str) -> &'a str
    ensures { result.now ≡ text_at key.now (view json.now) }
{
    match json.get(key) {
        Some(member) => text_in(member),
        None => "",
    }
}

/// The text that the JSON is; empty where it is none.
fn text_in(json: &Json) -> &str
    ensures { result.now ≡ unwrap_or (as_str (view json.now)) (codes "") }
{
    match json.as_str() {
        Some(text) => text,
        None => "",
    }
}

/// The head number of a member; 0 where it is none.
pub(crate) fn number_at(json: &Json, key: &str) -> u32
    ensures { result ≡ number_at key.now (view json.now) }
{
    match head_number(json.get(key)) {
        Some(number) => number,
        None => 0,
    }
}
