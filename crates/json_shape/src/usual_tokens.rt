//! The next tokens of text: a string, a number, a boolean, null, and where arrays and objects begin and end.

ghost use Rattle.std.specs.Prelude.{◌≡◌, ◌∷◌, IfOk, IsTrue, OnOk};
ghost use Rattle.json.specs.Token.{begin_array, begin_object, boolean, end_array, end_object, key, null, number, string};
ghost use Rattle.json_shape.specs.Usual.{key_token};

use crate::errors::Unusual;
use json::{Reader, Token};

/// The string that comes next.
pub(crate) fn string_next<'a>(reader: &mut Reader<'a>) -> Result<&'a str, Unusual>
    ensures { IfOk result (λ s. reader.old ≡ string s.now ∷ reader.new) }
{
    match reader.next() {
        Some(Token::String(text)) => Ok(text),
        _ => Err(Unusual),
    }
}

/// The text of the number that comes next.
pub(crate) fn digits_next<'a>(reader: &mut Reader<'a>) -> Result<&'a str, Unusual>
    ensures { IfOk result (λ s. reader.old ≡ number s.now ∷ reader.new) }
{
    match reader.next() {
        Some(Token::Number(digits)) => Ok(digits),
        _ => Err(Unusual),
    }
}

/// The boolean that comes next.
pub(crate) fn boolean_next(reader: &mut Reader<'_>) -> Result<bool, Unusual>
    ensures { IfOk result (λ b. reader.old ≡ boolean b ∷ reader.new) }
{
    match reader.next() {
        Some(Token::Bool(truth)) => Ok(truth),
        _ => Err(Unusual),
    }
}

/// Takes the null that comes next.
pub(crate) fn null_next(reader: &mut Reader<'_>) -> Result<(), Unusual>
    ensures { OnOk result (reader.old ≡ null ∷ reader.new) }
{
    match reader.next() {
        Some(Token::Null) => Ok(()),
        _ => Err(Unusual),
    }
}

/// Takes the bracket that begins an array.
pub(crate) fn begin_items(reader: &mut Reader<'_>) -> Result<(), Unusual>
    ensures { OnOk result (reader.old ≡ begin_array ∷ reader.new) }
{
    match reader.next() {
        Some(Token::BeginArray) => Ok(()),
        _ => Err(Unusual),
    }
}

/// Takes the bracket that ends an array.
pub(crate) fn end_items(reader: &mut Reader<'_>) -> Result<(), Unusual>
    ensures { OnOk result (reader.old ≡ end_array ∷ reader.new) }
{
    match reader.next() {
        Some(Token::EndArray) => Ok(()),
        _ => Err(Unusual),
    }
}

/// Takes the brace that begins an object.
pub(crate) fn begin_members(reader: &mut Reader<'_>) -> Result<(), Unusual>
    ensures { OnOk result (reader.old ≡ begin_object ∷ reader.new) }
{
    match reader.next() {
        Some(Token::BeginObject) => Ok(()),
        _ => Err(Unusual),
    }
}

/// Takes the brace that ends an object.
pub(crate) fn end_members(reader: &mut Reader<'_>) -> Result<(), Unusual>
    ensures { OnOk result (reader.old ≡ end_object ∷ reader.new) }
{
    match reader.next() {
        Some(Token::EndObject) => Ok(()),
        _ => Err(Unusual),
    }
}

/// The key that comes next, or none at the brace that ends an object.
pub(crate) fn key_next<'a>(reader: &mut Reader<'a>) -> Result<Option<&'a str>, Unusual>
    ensures { IfOk result (λ k. reader.old ≡ key_token k ∷ reader.new) }
{
    match reader.next() {
        Some(Token::Key(key)) => Ok(Some(key)),
        Some(Token::EndObject) => Ok(None),
        _ => Err(Unusual),
    }
}

/// Takes the key that comes next, where it is this one.
pub(crate) fn after_key(name: &str, reader: &mut Reader<'_>) -> Result<(), Unusual>
    ensures { OnOk result (reader.old ≡ key name.now ∷ reader.new) }
{
    match reader.next() {
        Some(Token::Key(found)) if found == name => Ok(()),
        _ => Err(Unusual),
    }
}

/// Whether a key that was taken is this one.
pub(crate) fn is_key(taken: Option<&str>, name: &str) -> bool
    ensures { IsTrue result → key_token taken.entry ≡ key name.now }
{
    match taken {
        Some(found) => found == name,
        None => false,
    }
}

/// Whether what was taken in place of a key is the end of an object.
pub(crate) fn is_end(taken: Option<&str>) -> bool
    ensures { IsTrue result → key_token taken.entry ≡ end_object }
{
    taken.is_none()
}
