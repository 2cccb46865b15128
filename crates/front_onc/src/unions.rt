//! Unions.

ghost use Rattle.std.specs.Prelude.{◌≡◌, [], ◌++◌, IfOk, OnOk};
ghost use Rattle.std.specs.Option.{option_map};
ghost use Rattle.aoi.specs.Shapes.{seen, default_of};
ghost use Rattle.idl_names.specs.Answers.{Gives};
ghost use Rattle.idl_names.specs.Arms.{arms_for, arms_held};
ghost use Rattle.front_onc.specs.Held.{state};
ghost use Rattle.front_onc.specs.Unions.{label_on, labels_on, arm_shape, arm_on, case_on, cases_on, other, union_shape, union_on};

use crate::forms::{form, name_of, ty};
use crate::meaning::Scope;
use crate::state::Resolver;
use crate::values::{type_use, value};
use crate::{Form, NameErr, NameFault, Tag, Use};
use aoi::{Ty, UnionArms};
use idl_names::{
    Names, add_number_of, after, boxed, fault, refuse, tag_of_use, ty_of_use, union_of,
};
use indexmap::IndexSet;
use kit_base::NoMemory;
use onc_syntax::{Arm, Case, Label, Union};
use std::alloc::Global;

/// Appends a label to those before it.
fn label(
    r: &Resolver,
    tag: Tag,
    d: u32,
    numbers: &mut IndexSet<i128>,
    label: &Label,
) -> Result<(), NameErr>
    ensures { Gives (λ _. numbers.new.keys) result
        (label_on r.now.scope r.now.labels tag d numbers.old.keys label.now) }
{
    let n = value(r.scope(), d, &label.value)?;
    add_number_of(r.labels(), tag, d, numbers, n)
}

/// Appends the labels of a case to those before them.
fn labels(
    r: &Resolver,
    tag: Tag,
    d: u32,
    numbers: &mut IndexSet<i128>,
    list: &[Label],
) -> Result<(), NameErr>
    ensures { Gives (λ _. numbers.new.keys) result
        (labels_on r.now.scope r.now.labels tag d numbers.old.keys list.now) }
{
    for l in list {
        label(r, tag, d, numbers, l)?;
    }
    Ok(())
}

/// What an arm makes of its type.
fn arm(
    alloc: Global,
    scope: &Scope,
    d: u32,
    names: &mut Names,
    arm: &Arm,
) -> Result<Option<Form>, NameErr>
    ensures { Gives (λ f. (f, names.new)) result (arm_on scope.now d names.old arm.now) }
{
    let decl = match arm {
        Arm::Void => return Ok(None),
        Arm::Decl(decl) => decl,
    };
    let name = name_of(decl).as_slice();
    let form = form(scope, d, names.has(name), decl)?;
    names.push(alloc, name)?;
    Ok(Some(form))
}

fn arm_ty(alloc: Global, form: Option<Form>) -> Result<Ty, NoMemory>
    ensures { IfOk result (λ t. seen t ≡ arm_shape form) }
{
    match form {
        None => Ok(Ty::Void),
        Some(form) => ty(alloc, form),
    }
}

/// Appends an arm for each of the numbers.
fn add_arms(
    alloc: Global,
    arms: &mut UnionArms,
    numbers: &[i128],
    form: Option<Form>,
) -> Result<(), NoMemory>
    ensures { OnOk result (arms_held arms.new ≡ arms_held arms.old ++ arms_for (arm_shape form) numbers.now) }
{
    for n in numbers {
        arms.push((*n, arm_ty(alloc, form)?))?;
    }
    Ok(())
}

/// Appends a case to those before it.
fn case(
    alloc: Global,
    r: &Resolver,
    tag: Tag,
    d: u32,
    numbers: &mut IndexSet<i128>,
    names: &mut Names,
    arms: &mut UnionArms,
    case: &Case,
) -> Result<(), NameErr>
    ensures { Gives (λ _. record { numbers = numbers.new.keys; names = names.new; arms = arms_held arms.new })
        result (case_on r.now.scope r.now.labels tag d
        (record { numbers = numbers.old.keys; names = names.old; arms = arms_held arms.old }) case.now) }
{
    labels(r, tag, d, numbers, case.labels.as_slice())?;
    let form = arm(alloc, r.scope(), d, names, &case.arm)?;
    add_arms(alloc, arms, after(numbers.as_slice(), arms.len()), form)?;
    Ok(())
}

/// The arms of cases.
fn cases(
    alloc: Global,
    r: &Resolver,
    tag: Tag,
    d: u32,
    numbers: &mut IndexSet<i128>,
    names: &mut Names,
    list: &[Case],
) -> Result<UnionArms, NameErr>
    ensures { Gives (λ arms. record { numbers = numbers.new.keys; names = names.new; arms = arms_held arms })
        result (cases_on r.now.scope r.now.labels tag d
        (record { numbers = numbers.old.keys; names = names.old; arms = [] }) list.now) }
{
    let mut arms = UnionArms::new(alloc);
    for c in list {
        case(alloc, r, tag, d, numbers, names, &mut arms, c)?;
    }
    Ok(arms)
}

/// The default arm.
fn other(
    alloc: Global,
    scope: &Scope,
    d: u32,
    names: &mut Names,
    default: &Option<Arm>,
) -> Result<Option<Box<Ty>>, NameErr>
    ensures { Gives (λ o. default_of (option_map (λ b. seen b.value) o)) result
        (other scope.now d names.old default.now) }
{
    let Some(a) = default else {
        return Ok(None);
    };
    let form = arm(alloc, scope, d, names, a)?;
    Ok(Some(boxed(alloc, arm_ty(alloc, form)?)?))
}

/// The type of a union, by the type of its tag.
fn body(alloc: Global, r: &Resolver, d: u32, used: Use, u: &Union) -> Result<Ty, NameErr>
    ensures { Gives seen result (union_shape (state r.now) d used u.now) }
{
    let tag = tag_of_use(used);
    refuse(NameFault::NotType, d, tag == Tag::Other)?;
    let mut numbers = IndexSet::new(alloc);
    let mut names = Names::new(alloc);
    names.push(alloc, u.tag_name.as_slice())?;
    let arms = cases(
        alloc,
        r,
        tag,
        d,
        &mut numbers,
        &mut names,
        u.cases.as_slice(),
    )?;
    let other = other(alloc, r.scope(), d, &mut names, &u.default)?;
    Ok(union_of(alloc, ty_of_use(used), arms, other)?)
}

/// A union.
pub(crate) fn union_(alloc: Global, r: &mut Resolver, d: u32, u: &Union) -> Result<(), NameErr>
    ensures { Gives (λ _. state r.new) result (union_on d (state r.old) u.now) }
{
    let name = u.name.as_slice();
    if r.scope().has(name) {
        return Err(fault(NameFault::Twice, d));
    }
    let used = type_use(r.scope(), d, &u.tag)?;
    let ty = body(alloc, r, d, used, u)?;
    r.declare_type(alloc, name, ty, Tag::Other)
}
