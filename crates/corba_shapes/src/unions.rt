//! Unions.

ghost use Rattle.std.specs.Prelude.{◌≡◌, [], ◌++◌, None, true, false, IfOk, OnOk};
ghost use Rattle.std.specs.Option.{option_map, unwrap_or, is_some};
ghost use Rattle.aoi.specs.Shapes.{seen, void, choice, default, arms_of};
ghost use Rattle.idl_names.specs.Answers.{Gives};
ghost use Rattle.idl_names.specs.Uses.{shape_of_use};
ghost use Rattle.idl_names.specs.Arms.{arms_for, arms_held};
ghost use Rattle.corba_shapes.specs.Held.{state};
ghost use Rattle.corba_shapes.specs.Forms.{form_shape, lengths_of};
ghost use Rattle.corba_shapes.specs.Unions.{tag_use, is_no_tag, label_on, labels_on};
ghost use Rattle.corba_shapes.specs.Unions.{other_with, case_on, cases_on, union_on};

use crate::fields::placed;
use crate::forms::{Form, Kept, form_ty, kept, kept_ty, kind_of, named_type, type_form};
use crate::state::Shapes;
use aoi::{NameErr, NameFault, Ty, UnionArms};
use corba_decls::{Case, Label, Tag as TagTree, Union};
use corba_scopes::Scopes;
use idl_names::{Tag, Use, add_number_of, after, boxed, refuse, tag_of_use, ty_of_use, union_of};
use indexmap::IndexSet;
use kit_base::NoMemory;
use mint::kind::{Count, Kind};
use std::alloc::Global;

/// The type of a tag.
fn tag_use(scopes: &Scopes, d: u32, tag: &TagTree) -> Result<Use, NameErr>
    ensures { Gives (λ x. x) result (tag_use scopes.now d tag.now) }
{
    match tag {
        TagTree::Int(i) => Ok(Use::Number(kind_of(i))),
        TagTree::Char => Ok(Use::Number(Kind::Char)),
        TagTree::Boolean => Ok(Use::Number(Kind::Bool)),
        TagTree::Named(name) => Ok(named_type(scopes, d, name)?.0),
    }
}

/// Whether a type is not a tag.
fn is_no_tag(tag: Tag) -> bool
    ensures { result ≡ is_no_tag tag }
{
    match tag {
        Tag::Number(Kind::Octet) | Tag::Other => true,
        _ => false,
    }
}

/// Puts a label after those that stand before it, and says whether there is a default now.
fn label(
    scopes: &Scopes,
    labels: &IndexSet<(u32, i128)>,
    tag: Tag,
    d: u32,
    numbers: &mut IndexSet<i128>,
    default: bool,
    label: &Label,
) -> Result<bool, NameErr>
    ensures { Gives (λ b. record { numbers = numbers.new.keys; default = b }) result
        (label_on scopes.now labels.now.keys tag d
        (record { numbers = numbers.old.keys; default = default }) label.now) }
{
    match label {
        Label::Case(e) => {
            let n = scopes.number(d, e)?;
            add_number_of(labels, tag, d, numbers, n)?;
            Ok(default)
        }
        Label::Default => {
            refuse(NameFault::Label, d, default)?;
            Ok(true)
        }
    }
}

/// Puts labels after those that stand before them, and says whether there is a default now.
fn labels_of(
    scopes: &Scopes,
    labels: &IndexSet<(u32, i128)>,
    tag: Tag,
    d: u32,
    numbers: &mut IndexSet<i128>,
    default: bool,
    list: &[Label],
) -> Result<bool, NameErr>
    ensures { Gives (λ b. record { numbers = numbers.new.keys; default = b }) result
        (labels_on scopes.now labels.now.keys tag d
        (record { numbers = numbers.old.keys; default = default }) list.now) }
{
    let mut given = default;
    for l in list {
        given = label(scopes, labels, tag, d, numbers, given, l)?;
    }
    Ok(given)
}

/// Puts an arm after the others for each of the numbers. The arms share the lengths.
fn add_kept(
    alloc: Global,
    arms: &mut UnionArms,
    numbers: &[i128],
    form: &Form,
    lengths: &Kept,
) -> Result<(), NoMemory>
    ensures { OnOk result (arms_held arms.new
        ≡ arms_held arms.old ++ arms_for (form_shape form.now (lengths_of lengths.now)) numbers.now) }
{
    for n in numbers {
        arms.push((*n, kept_ty(alloc, form, lengths)?))?;
    }
    Ok(())
}

/// Puts an arm after the others for each of the numbers.
fn add_arms(
    alloc: Global,
    arms: &mut UnionArms,
    numbers: &[i128],
    form: &Form,
    lengths: &[Count],
) -> Result<(), NoMemory>
    ensures { OnOk result
        (arms_held arms.new ≡ arms_held arms.old ++ arms_for (form_shape form.now lengths.now) numbers.now) }
{
    let lengths = kept(alloc, lengths)?;
    add_kept(alloc, arms, numbers, form, &lengths)
}

/// What the default is after a case: the type of the case, where it is the first that has the default.
fn other_with(
    alloc: Global,
    default: bool,
    other: Option<Box<Ty>>,
    form: &Form,
    lengths: &[Count],
) -> Result<Option<Box<Ty>>, NoMemory>
    ensures { IfOk result (λ o. option_map (λ b. seen b.value) o
        ≡ other_with default (option_map (λ b. seen b.value) other) (form_shape form.now lengths.now)) }
{
    match other {
        Some(ty) => Ok(Some(ty)),
        None => {
            if !default {
                return Ok(None);
            }
            Ok(Some(boxed(alloc, form_ty(alloc, form, lengths)?)?))
        }
    }
}

/// Puts a case after those that stand before it.
fn case(
    alloc: Global,
    scopes: &mut Scopes,
    labels: &IndexSet<(u32, i128)>,
    tag: Tag,
    d: u32,
    numbers: &mut IndexSet<i128>,
    arms: &mut UnionArms,
    other: Option<Box<Ty>>,
    case: &Case,
) -> Result<Option<Box<Ty>>, NameErr>
    ensures { Gives (λ o. record {
      names = scopes.new;
      numbers = numbers.new.keys;
      arms = arms_held arms.new;
      other = option_map (λ b. seen b.value) o;
    }) result (case_on labels.now.keys tag d (record {
      names = scopes.old;
      numbers = numbers.old.keys;
      arms = arms_held arms.old;
      other = option_map (λ b. seen b.value) other;
    }) case.now) }
{
    let default = labels_of(
        scopes,
        labels,
        tag,
        d,
        numbers,
        other.is_some(),
        case.labels.as_slice(),
    )?;
    let form = type_form(alloc, scopes, d, &case.of)?;
    let lengths = placed(alloc, scopes, d, &case.declarator)?;
    let lengths = lengths.as_slice();
    add_arms(
        alloc,
        arms,
        after(numbers.as_slice(), arms.len()),
        &form,
        lengths,
    )?;
    Ok(other_with(alloc, default, other, &form, lengths)?)
}

/// The arms of cases, and what the default is, if there is one.
fn cases(
    alloc: Global,
    scopes: &mut Scopes,
    labels: &IndexSet<(u32, i128)>,
    tag: Tag,
    d: u32,
    numbers: &mut IndexSet<i128>,
    list: &[Case],
) -> Result<(UnionArms, Option<Box<Ty>>), NameErr>
    ensures { Gives (λ c. record {
      names = scopes.new;
      numbers = numbers.new.keys;
      arms = arms_held c.0;
      other = option_map (λ b. seen b.value) c.1;
    }) result (cases_on labels.now.keys tag d
        (record { names = scopes.old; numbers = numbers.old.keys; arms = []; other = None }) list.now) }
{
    let mut arms = UnionArms::new(alloc);
    let mut other = None;
    for c in list {
        other = case(alloc, scopes, labels, tag, d, numbers, &mut arms, other, c)?;
    }
    Ok((arms, other))
}

/// What every number that has no arm chooses.
fn other_ty(alloc: Global, other: Option<Box<Ty>>) -> Result<Box<Ty>, NoMemory>
    ensures { IfOk result (λ b. seen b.value ≡ unwrap_or (option_map (λ b. seen b.value) other) void) }
{
    match other {
        Some(ty) => Ok(ty),
        None => boxed(alloc, Ty::Void),
    }
}

/// The type of a union.
fn union_ty(
    alloc: Global,
    used: Use,
    arms: UnionArms,
    other: Option<Box<Ty>>,
) -> Result<Ty, NoMemory>
    ensures { IfOk result (λ t. seen t ≡ choice (shape_of_use used)
        (arms_of (arms_held arms) (default (unwrap_or (option_map (λ b. seen b.value) other) void)))) }
{
    let other = other_ty(alloc, other)?;
    union_of(alloc, ty_of_use(used), arms, Some(other))
}

/// Declares a union, after its cases.
pub(crate) fn union_(alloc: Global, r: &mut Shapes, d: u32, u: &Union) -> Result<(), NameErr>
    ensures { Gives (λ _. state r.new) result (union_on d (state r.old) u.now) }
{
    let name = u.name.name.as_slice();
    r.scopes.refuse_clash(alloc, d, name)?;
    r.scopes.enter(alloc, name)?;
    let used = tag_use(&r.scopes, d, &u.tag)?;
    let tag = tag_of_use(used);
    refuse(NameFault::NotType, d, is_no_tag(tag))?;
    let mut numbers = IndexSet::new(alloc);
    let (arms, other) = cases(
        alloc,
        &mut r.scopes,
        &r.labels,
        tag,
        d,
        &mut numbers,
        u.cases.as_slice(),
    )?;
    r.scopes.leave();
    let ty = union_ty(alloc, used, arms, other)?;
    r.declare_type(alloc, d, name, ty, Tag::Other, None)
}
