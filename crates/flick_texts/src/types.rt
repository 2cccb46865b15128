//! The texts of types.

ghost use Rattle.std.specs.Prelude.{◌≡◌, ◌++◌, [], None, OnOk, slice_index_or, codes};
ghost use Rattle.std.specs.Option.{option_map};
ghost use Rattle.aoi.specs.Shapes.{arms_seen, default_of, members, seen};
ghost use Rattle.stub_print.specs.Putting.{IsPut};
ghost use Rattle.flick_texts.specs.Arrays.{all_elements_text};
ghost use Rattle.flick_texts.specs.TypeText.{arms_text, elements_text, fields_text, items_text, kind_word, mark_after, names_of, parameters_text, string_text, trees_of, type_text};

use crate::words::{put, put_numbered, put_signed};
use aoi::{Field, FullName, Ty};
use kit_base::{Name, NoMemory, Octets};
use mint::kind::{Count, Kind};

/// Puts the text of a type over the types of its unit.
#[cycle(put)]
pub(crate) fn put_type(out: &mut Octets, ty: &Ty, types: &[(FullName, Ty)]) -> Result<(), NoMemory>
    ensures { OnOk result (IsPut out.old (type_text (names_of (trees_of types.now)) (seen ty.now)) out.new) }
{
    match ty {
        Ty::Void => put(out, b"void"),
        Ty::Num(kind) => put(out, kind_word(*kind)),
        Ty::Enum(items) => put_enum(out, items.as_slice()),
        Ty::Text(count) => put_string(out, *count),
        Ty::Array(item, count) => {
            put_elements(out, *count)?;
            put_type(out, item, types)
        }
        Ty::Arrays(item, count, within) => {
            put_elements(out, *count)?;
            put_all_elements(out, within.as_slice())?;
            put_type(out, item, types)
        }
        Ty::Struct(fields) => {
            put(out, b"struct{")?;
            put_fields(out, fields.as_slice(), types)?;
            put(out, b"}")
        }
        Ty::Union(tag, arms, other) => {
            put(out, b"union ")?;
            put_type(out, tag, types)?;
            put(out, b"{")?;
            put_arms(out, arms.as_slice(), types)?;
            put_default(out, mark_after(arms.as_slice()), other, types)?;
            put(out, b"}")
        }
        Ty::Optional(item) => {
            put(out, b"maybe ")?;
            put_type(out, item, types)
        }
        Ty::Named(k) => put_type_name(out, types, *k),
    }
}

/// Puts the texts of fields, each after the field's name.
#[cycle(put)]
fn put_fields(out: &mut Octets, fields: &[Field], types: &[(FullName, Ty)]) -> Result<(), NoMemory>
    ensures { OnOk result (IsPut out.old
        (fields_text (names_of (trees_of types.now)) [] (members fields.now)) out.new) }
{
    let mut mark: &[u8] = b"";
    for field in fields {
        put(out, mark)?;
        put(out, field.name.as_slice())?;
        put(out, b":")?;
        put_type(out, &field.ty, types)?;
        mark = b";";
    }
    Ok(())
}

/// Puts the texts of arms, each after its number.
#[cycle(put)]
fn put_arms(out: &mut Octets, arms: &[(i128, Ty)], types: &[(FullName, Ty)]) -> Result<(), NoMemory>
    ensures { OnOk result (IsPut out.old
        (arms_text (names_of (trees_of types.now)) [] (arms_seen arms.now None)) out.new) }
{
    let mut mark: &[u8] = b"";
    for (n, ty) in arms {
        put(out, mark)?;
        put_signed(out, n)?;
        put(out, b":")?;
        put_type(out, ty, types)?;
        mark = b";";
    }
    Ok(())
}

/// The mark before a default arm that follows arms.
fn mark_after(arms: &[(i128, Ty)]) -> &'static [u8]
    ensures { result.now ≡ mark_after [] arms.now }
{
    if arms.is_empty() { b"" } else { b";" }
}

/// Puts the text of the default arm, if there is one.
#[cycle(put)]
fn put_default(
    out: &mut Octets,
    mark: &[u8],
    other: &Option<Box<Ty>>,
    types: &[(FullName, Ty)],
) -> Result<(), NoMemory>
    ensures { OnOk result (IsPut out.old (arms_text (names_of (trees_of types.now)) mark.now
        (default_of (option_map (λ b. seen b.value) other.now))) out.new) }
{
    match other {
        Some(ty) => {
            put(out, mark)?;
            put(out, b"default:")?;
            put_type(out, ty, types)
        }
        None => Ok(()),
    }
}

/// Puts the texts of parameters, after a mark where there are any.
pub(crate) fn put_parameters(
    out: &mut Octets,
    first: &[u8],
    fields: &[Field],
    types: &[(FullName, Ty)],
) -> Result<(), NoMemory>
    ensures { OnOk result (IsPut out.old
        (parameters_text (names_of (trees_of types.now)) first.now (members fields.now)) out.new) }
{
    let mut mark = first;
    for field in fields {
        put(out, mark)?;
        put_type(out, &field.ty, types)?;
        mark = b", ";
    }
    Ok(())
}

/// The parts of the name of the type of a number.
fn type_name(types: &[(FullName, Ty)], k: u32) -> (&[u8], &[u8])
    ensures { result.0.now ++ result.1.now ≡ slice_index_or (names_of (trees_of types.now)) k [] }
{
    match types.get(k as usize) {
        Some((name, _)) => name.parts(),
        None => (&[], &[]),
    }
}

/// Puts the name of the type of a number.
fn put_type_name(out: &mut Octets, types: &[(FullName, Ty)], k: u32) -> Result<(), NoMemory>
    ensures { OnOk result (IsPut out.old
        (λ rest. slice_index_or (names_of (trees_of types.now)) k [] ++ rest) out.new) }
{
    let (prefix, own) = type_name(types, k);
    put(out, prefix)?;
    put(out, own)
}

/// Puts the text of an enum.
fn put_enum(out: &mut Octets, items: &[(Name, i32)]) -> Result<(), NoMemory>
    ensures { OnOk result (IsPut out.old
        (λ rest. codes "enum{" ++ items_text [] items.now (codes "}" ++ rest)) out.new) }
{
    put(out, b"enum{")?;
    put_items(out, items)?;
    put(out, b"}")
}

/// Puts the names and numbers of the items of an enum.
fn put_items(out: &mut Octets, items: &[(Name, i32)]) -> Result<(), NoMemory>
    ensures { OnOk result (IsPut out.old (items_text [] items.now) out.new) }
{
    let mut mark: &[u8] = b"";
    for (name, n) in items {
        put(out, mark)?;
        put(out, name.as_slice())?;
        put(out, b"=")?;
        put_signed(out, &i128::from(*n))?;
        mark = b",";
    }
    Ok(())
}

/// Puts the text of a string.
fn put_string(out: &mut Octets, count: Count) -> Result<(), NoMemory>
    ensures { OnOk result (IsPut out.old (string_text count) out.new) }
{
    match count {
        Count::Exactly(n) | Count::AtMost(n) => put_numbered(out, b"text ", u64::from(n)),
        Count::Any => put(out, b"text"),
    }
}

/// Puts how many elements there are.
fn put_elements(out: &mut Octets, count: Count) -> Result<(), NoMemory>
    ensures { OnOk result (IsPut out.old (elements_text count) out.new) }
{
    match count {
        Count::Exactly(n) => {
            put_numbered(out, b"array ", u64::from(n))?;
            put(out, b" of ")
        }
        Count::AtMost(n) => {
            put_numbered(out, b"list ", u64::from(n))?;
            put(out, b" of ")
        }
        Count::Any => put(out, b"list of "),
    }
}

/// Puts how many elements there are in each of arrays of arrays, from the outside in.
fn put_all_elements(out: &mut Octets, counts: &[Count]) -> Result<(), NoMemory>
    ensures { OnOk result (IsPut out.old (all_elements_text counts.now) out.new) }
{
    for count in counts {
        put_elements(out, *count)?;
    }
    Ok(())
}

/// The word of a kind of numbers.
fn kind_word(kind: Kind) -> &'static [u8]
    ensures { result.now ≡ kind_word kind }
{
    match kind {
        Kind::Octet => b"octet",
        Kind::I8 => b"i8",
        Kind::U8 => b"u8",
        Kind::Char => b"char",
        Kind::I16 => b"i16",
        Kind::U16 => b"u16",
        Kind::I32 => b"i32",
        Kind::U32 => b"u32",
        Kind::I64 => b"i64",
        Kind::U64 => b"u64",
        Kind::Bool => b"bool",
    }
}
