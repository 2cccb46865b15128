//! The numbers of enums, and the labels of unions.

ghost use Rattle.std.specs.Prelude.{◌≡◌, ◌∷◌, [], ◌++◌, false, OnOk};
ghost use Rattle.idl_names.specs.Answers.{Gives};
ghost use Rattle.idl_names.specs.Labels.{is_label, is_of, labelled, numbered};

use crate::numbers::{add_integer, has_integer};
use crate::refusals::{fault, refuse};
use crate::uses::Tag;
use aoi::{NameErr, NameFault};
use indexmap::IndexSet;
use kit_base::NoMemory;
use kit_base::limits::MOST_LABELS;

/// Whether a number is one of the k-th type's.
pub fn is_label(labels: &IndexSet<(u32, i128)>, k: u32, n: i128) -> bool
    ensures { result ≡ is_label k n labels.now.keys }
{
    labels.contains(&(k, n))
}

/// Puts a number of the k-th type after the others.
fn push_label(labels: &mut IndexSet<(u32, i128)>, k: u32, n: i128) -> Result<(), NoMemory>
    requires { is_label k n labels.old.keys ≡ false }
    ensures ok { OnOk result (labels.new.keys ≡ labels.old.keys ++ (k, n) ∷ []) }
{
    labels.insert((k, n))?;
    Ok(())
}

/// Makes a number one of the k-th type's; those of other enums come before the place.
pub fn add_label(
    labels: &mut IndexSet<(u32, i128)>,
    d: u32,
    k: u32,
    place: usize,
    n: i128,
) -> Result<(), NameErr>
    ensures { Gives (λ _. labels.new.keys) result (labelled d k place labels.old.keys n) }
{
    if is_label(labels, k, n) {
        return Ok(());
    }
    refuse(
        NameFault::Limit,
        d,
        labels.len().saturating_sub(place) >= MOST_LABELS,
    )?;
    push_label(labels, k, n)?;
    Ok(())
}

/// Whether a number is one that the tag may have.
pub fn is_of(labels: &IndexSet<(u32, i128)>, tag: Tag, n: &i128) -> bool
    ensures { result ≡ is_of labels.now.keys tag n.now }
{
    match tag {
        Tag::Number(kind) => kind.has(*n),
        Tag::Enum(k) => is_label(labels, k, *n),
        Tag::Other => false,
    }
}

/// Puts the number of a union's label after those that come before it.
pub fn add_number_of(
    labels: &IndexSet<(u32, i128)>,
    tag: Tag,
    d: u32,
    numbers: &mut IndexSet<i128>,
    n: i128,
) -> Result<(), NameErr>
    ensures { Gives (λ _. numbers.new.keys) result (numbered labels.now.keys tag d numbers.old.keys n) }
{
    if !is_of(labels, tag, &n) || has_integer(numbers, &n) {
        return Err(fault(NameFault::Label, d));
    }
    if numbers.len() >= MOST_LABELS {
        return Err(fault(NameFault::Limit, d));
    }
    add_integer(numbers, &n)?;
    Ok(())
}
