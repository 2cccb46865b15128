//! Which labels an enumeration may have, and which arms a union.

ghost use Rattle.std.specs.Prelude.{List, map, ◌≡◌, length, None, nat_lt, nat_le, ◌&&◌, true};
ghost use Rattle.std.specs.List.{list_all};
ghost use Rattle.kit_base.specs.Limits.{most_labels};
ghost use Rattle.mint.specs.Kinds.{in_range};
ghost use Rattle.mint.specs.Sound.{is_labelled, are_labels, are_arms, are_tagged, is_armless, rise_from};
ghost use Rattle.mint.specs.Typed.{is_scalar};
ghost use Rattle.mint.specs.Types.{Ty, arms_at, scalar_of};

use crate::kind::Kind;
use crate::node::{Arms, Labels, Tag};
use crate::table::NodeId;
use kit_base::limits::MOST_LABELS;

/// Whether a tag is a number, or an enum whose labels an enum may have.
pub(crate) fn is_labelled(tag: &Tag) -> bool
    ensures { result ≡ is_labelled (scalar_of tag.now) }
{
    match tag {
        Tag::Num(_) => true,
        Tag::Enum(labels) => are_labels(labels),
    }
}

/// Whether an enum may have the labels.
pub(crate) fn are_labels(labels: &Labels) -> bool
    ensures { result ≡ are_labels labels.now }
{
    are_ranged(labels.as_slice());
    are_few_rising(labels)
}

/// Labels are in range by their type. That is known of a label once it is read, and the loop is for
/// nothing else.
#[tactic(auto, using(crate::proofs::Measuring::ranged_labels))]
fn are_ranged(labels: &[i32])
    ensures { list_all (in_range Kind.I32) labels.now ≡ true }
{
    for label in labels {
        let _label = *label;
    }
}

fn are_few_rising(labels: &Labels) -> bool
    ensures { result ≡ (nat_lt 0 (length labels.now) && nat_le (length labels.now) most_labels
        && rise_from None labels.now) }
{
    labels.len() > 0 && labels.len() <= MOST_LABELS && are_rising(labels.as_slice())
}

fn are_rising(labels: &[i32]) -> bool
    ensures { result ≡ rise_from None labels.now }
{
    let mut last = None;
    for label in labels {
        if let Some(before) = last {
            if before >= *label {
                return false;
            }
        }
        last = Some(*label);
    }
    true
}

/// Whether a choice of the tag may have the arms.
pub(crate) fn are_arms(tag: &Tag, arms: &Arms, other: Option<NodeId>) -> bool
    ensures { (ts : List Ty) → result ≡ are_arms (scalar_of tag.now) (arms_at ts arms.now other) }
{
    are_tagged(tag, arms.as_slice()) && !is_armless(arms, other)
}

fn is_armless(arms: &Arms, other: Option<NodeId>) -> bool
    ensures { (ts : List Ty) → result ≡ is_armless (arms_at ts arms.now other) }
{
    arms.len() == 0 && other.is_none()
}

/// Whether arms list numbers that a choice of the tag may list.
fn are_tagged(tag: &Tag, arms: &[(i128, NodeId)]) -> bool
    ensures { result ≡ are_tagged (scalar_of tag.now) (map (λ a. a.0) arms.now) }
{
    arms.len() <= MOST_LABELS && are_rising_in(tag, arms)
}

fn are_rising_in(tag: &Tag, arms: &[(i128, NodeId)]) -> bool
    ensures { result ≡ (rise_from None (map (λ a. a.0) arms.now)
        && list_all (is_scalar (scalar_of tag.now)) (map (λ a. a.0) arms.now)) }
{
    are_arms_rising(arms) && are_in_tag(tag, arms)
}

fn are_arms_rising(arms: &[(i128, NodeId)]) -> bool
    ensures { result ≡ rise_from None (map (λ a. a.0) arms.now) }
{
    let mut last = None;
    for (n, _) in arms {
        if let Some(before) = last {
            if before >= *n {
                return false;
            }
        }
        last = Some(*n);
    }
    true
}

fn are_in_tag(tag: &Tag, arms: &[(i128, NodeId)]) -> bool
    ensures { result ≡ list_all (is_scalar (scalar_of tag.now)) (map (λ a. a.0) arms.now) }
{
    for (n, _) in arms {
        if !tag.has(*n) {
            return false;
        }
    }
    true
}
