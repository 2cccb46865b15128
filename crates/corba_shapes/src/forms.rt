//! The types that are used.

ghost use Rattle.std.specs.Prelude.{◌≡◌, IfOk};
ghost use Rattle.aoi.specs.Shapes.{seen};
ghost use Rattle.idl_names.specs.Answers.{Gives};
ghost use Rattle.corba_shapes.specs.Forms.{kind_of, number_core, type_of_meaning, named_type, named_core};
ghost use Rattle.corba_shapes.specs.Forms.{simple_core, bounded, base_core, single, type_form};
ghost use Rattle.corba_shapes.specs.Forms.{core_shape, rowed, form_shape, lengths_of};
ghost use Rattle.corba_shapes.specs.Forms.{is_row, core_tag, core_text, form_tag, form_text};

use aoi::{Counts, NameErr, NameFault, Ty};
use corba_decls::{Base, Int, IntSize, Simple, TypeName, TypeNode};
use corba_scopes::{Meaning, Scopes};
use idl_exprs::{Expr, ScopedName};
use idl_names::{Tag, Use, array_of, arrays_of, fault, tag_of_use, ty_of_use};
use kit_base::NoMemory;
use kit_shared::Shared;
use mint::kind::{Count, Kind};
use std::alloc::Global;

/// A type that is neither a sequence nor an array.
#[derive(Clone, Copy, Debug, PartialEq, Eq)]
pub enum Core {
    /// A number, or a type of the unit; and where that is a string, how many characters it has.
    Used(Use, Option<Count>),
    /// A string that is written out, by how many characters it has.
    Text(Count),
}

/// A type that is used.
#[derive(Drop)]
pub struct Form {
    /// What its innermost sequence holds; itself, where it is not a sequence.
    pub core: Core,
    /// How many elements its sequences have, the innermost first.
    pub rows: Counts,
}

/// The lengths of an array, if there is one: that of the outermost, and those within it, kept once.
pub(crate) type Kept = Option<(Count, Shared<Counts>)>;

/// The kind of an integer type.
pub(crate) fn kind_of(i: &Int) -> Kind
    ensures { result ≡ kind_of i.now }
{
    match (i.unsigned, i.size) {
        (true, IntSize::Short) => Kind::U16,
        (true, IntSize::Long) => Kind::U32,
        (true, IntSize::LongLong) => Kind::U64,
        (false, IntSize::Short) => Kind::I16,
        (false, IntSize::Long) => Kind::I32,
        (false, IntSize::LongLong) => Kind::I64,
    }
}

/// A number of a kind.
pub(crate) fn number_core(kind: Kind) -> Core
    ensures { result ≡ number_core kind }
{
    Core::Used(Use::Number(kind), None)
}

/// The type of what a name stands for, if it is declared.
fn type_of_meaning(d: u32, meaning: Option<Meaning>) -> Result<(Use, Option<Count>), NameErr>
    ensures value { Gives (λ x. x) result (type_of_meaning d meaning) }
    ensures exact { result ≡ type_of_meaning d meaning }
{
    let Some(meaning) = meaning else {
        return Err(fault(NameFault::Unknown, d));
    };
    match meaning {
        Meaning::Type(used, text) => Ok((used, text)),
        _ => Err(fault(NameFault::NotType, d)),
    }
}

/// The type that a scoped name stands for here; and how many characters it has, where it is a string.
pub fn named_type(
    scopes: &Scopes,
    d: u32,
    name: &ScopedName,
) -> Result<(Use, Option<Count>), NameErr>
    ensures { Gives (λ x. x) result (named_type scopes.now d name.now) }
{
    let meaning = scopes.named(name);
    type_of_meaning(d, meaning)
}

/// The type that a scoped name stands for here, as one that is not a row.
pub(crate) fn named_core(scopes: &Scopes, d: u32, name: &ScopedName) -> Result<Core, NameErr>
    ensures { Gives (λ x. x) result (named_core scopes.now d name.now) }
{
    let (used, text) = named_type(scopes, d, name)?;
    Ok(Core::Used(used, text))
}

/// A type of one word: `char`, `boolean` and `octet` are numbers, and the others are out of scope.
fn simple_core(d: u32, word: Simple) -> Result<Core, NameErr>
    ensures value { Gives (λ x. x) result (simple_core d word) }
    ensures exact { result ≡ simple_core d word }
{
    match word {
        Simple::Char => Ok(number_core(Kind::Char)),
        Simple::Boolean => Ok(number_core(Kind::Bool)),
        Simple::Octet => Ok(number_core(Kind::Octet)),
        _ => Err(fault(NameFault::OutOfScope, d)),
    }
}

/// How many elements a sequence may have, or characters a string.
fn bounded(scopes: &Scopes, d: u32, bound: &Option<Expr>) -> Result<Count, NameErr>
    ensures { Gives (λ x. x) result (bounded scopes.now d bound.now) }
{
    match bound {
        None => Ok(Count::Any),
        Some(e) => Ok(Count::AtMost(scopes.length(d, e)?)),
    }
}

/// A type that is not a sequence.
fn base_core(scopes: &Scopes, d: u32, base: &Base) -> Result<Core, NameErr>
    ensures { Gives (λ x. x) result (base_core scopes.now d base.now) }
{
    match base {
        Base::Simple(word) => simple_core(d, *word),
        Base::LongDouble => Err(fault(NameFault::OutOfScope, d)),
        Base::Int(i) => Ok(number_core(kind_of(i))),
        Base::Name(name) => named_core(scopes, d, name),
        Base::Text(bound) => Ok(Core::Text(bounded(scopes, d, bound)?)),
    }
}

/// What does not stand in a sequence.
pub(crate) fn single(alloc: Global, core: Core) -> Form
    ensures { result ≡ single core }
{
    Form {
        core,
        rows: Counts::new(alloc),
    }
}

/// A type as it is used here.
pub fn type_form(alloc: Global, scopes: &Scopes, d: u32, t: &TypeName) -> Result<Form, NameErr>
    ensures { Gives (λ x. x) result (type_form scopes.now d t.now.0 t.now.1) }
{
    match &t.node {
        TypeNode::Base(base) => Ok(single(alloc, base_core(scopes, d, base)?)),
        TypeNode::Sequence(element, bound) => {
            let mut form = type_form(alloc, scopes, d, element)?;
            form.rows.push(bounded(scopes, d, bound)?)?;
            Ok(form)
        }
    }
}

/// The type of what is not a row.
fn core_ty(core: Core) -> Ty
    ensures { seen result ≡ core_shape core }
{
    match core {
        Core::Used(used, _) => ty_of_use(used),
        Core::Text(count) => Ty::Text(count),
    }
}

/// Rows of rows, the innermost first.
fn rowed(alloc: Global, ty: Ty, rows: &[Count]) -> Result<Ty, NoMemory>
    ensures { IfOk result (λ t. seen t ≡ rowed (seen ty) rows.now) }
{
    match rows {
        [count, rest @ ..] => rowed(alloc, array_of(alloc, ty, *count)?, rest),
        [] => Ok(ty),
    }
}

/// The lengths of an array, the outermost first, as what types may share.
pub(crate) fn kept(alloc: Global, lengths: &[Count]) -> Result<Kept, NoMemory>
    ensures { IfOk result (λ k. lengths_of k ≡ lengths.now) }
{
    match lengths {
        [count, within @ ..] => {
            let within = Counts::from_slice(alloc, within)?;
            Ok(Some((*count, Shared::new(alloc, within)?)))
        }
        [] => Ok(None),
    }
}

/// A type that is used, with the lengths of an array after it, which it shares, as a type of the unit.
pub(crate) fn kept_ty(alloc: Global, form: &Form, lengths: &Kept) -> Result<Ty, NoMemory>
    ensures { IfOk result (λ t. seen t ≡ form_shape form.now (lengths_of lengths.now)) }
{
    let ty = rowed(alloc, core_ty(form.core), form.rows.as_slice())?;
    match lengths {
        Some((count, within)) => arrays_of(alloc, ty, *count, within),
        None => Ok(ty),
    }
}

/// A type that is used, with the lengths of an array after it, the outermost first, as a type of the unit.
pub fn form_ty(alloc: Global, form: &Form, lengths: &[Count]) -> Result<Ty, NoMemory>
    ensures { IfOk result (λ t. seen t ≡ form_shape form.now lengths.now) }
{
    let lengths = kept(alloc, lengths)?;
    kept_ty(alloc, form, &lengths)
}

/// Whether a type with the lengths of an array is a row: a sequence or an array.
fn is_row(rows: &[Count], lengths: &[Count]) -> bool
    ensures { result ≡ is_row rows.now lengths.now }
{
    match (rows, lengths) {
        ([], []) => false,
        _ => true,
    }
}

/// What is not a row as the tag of a union.
pub(crate) fn core_tag(core: Core) -> Tag
    ensures { result ≡ core_tag core }
{
    match core {
        Core::Used(used, _) => tag_of_use(used),
        Core::Text(_) => Tag::Other,
    }
}

/// How many characters what is not a row has, where it is a string.
pub(crate) fn core_text(core: Core) -> Option<Count>
    ensures { result ≡ core_text core }
{
    match core {
        Core::Used(_, text) => text,
        Core::Text(count) => Some(count),
    }
}

/// What a type with the lengths of an array is as the tag of a union.
pub(crate) fn form_tag(form: &Form, lengths: &[Count]) -> Tag
    ensures { result ≡ form_tag form.now lengths.now }
{
    if is_row(form.rows.as_slice(), lengths) {
        return Tag::Other;
    }
    core_tag(form.core)
}

/// How many characters a type with the lengths of an array has, where it is a string.
pub(crate) fn form_text(form: &Form, lengths: &[Count]) -> Option<Count>
    ensures { result ≡ form_text form.now lengths.now }
{
    if is_row(form.rows.as_slice(), lengths) {
        return None;
    }
    core_text(form.core)
}
