//! Whether a node is another one with other numbers.

ghost use Rattle.std.specs.Prelude.{◌≡◌, map, option_map, true};
ghost use Rattle.stub_codes.specs.Distinct.{arm_in, number_in, renumbered};

use crate::distinct::number_in;
use mint::node::{Arms, Labels, Node, Tag};

/// Whether numbers are those for which others are exchanged.
fn are_numbers_in(ids: &[u32], given: &[u32], kept: &[u32]) -> bool
    ensures { result ≡ true → kept.now ≡ map (number_in ids.now) given.now }
{
    if given.len() != kept.len() {
        return false;
    }
    for i in 0..given.len() {
        if kept[i] != number_in(ids, given[i]) {
            return false;
        }
    }
    true
}

/// Whether an arm is another with the number for which that of its node is exchanged.
fn is_arm_in(ids: &[u32], given: &(i128, u32), kept: &(i128, u32)) -> bool
    ensures { result ≡ true → kept.now ≡ arm_in ids.now given.now }
{
    kept.0 == given.0 && kept.1 == number_in(ids, given.1)
}

/// Whether arms are others with the numbers for which those of their nodes are exchanged.
fn are_arms_in(ids: &[u32], given: &[(i128, u32)], kept: &[(i128, u32)]) -> bool
    ensures { result ≡ true → kept.now ≡ map (arm_in ids.now) given.now }
{
    if given.len() != kept.len() {
        return false;
    }
    for i in 0..given.len() {
        if !is_arm_in(ids, &given[i], &kept[i]) {
            return false;
        }
    }
    true
}

/// Whether the number of a default is the one for which another is exchanged, or there is none of both.
fn is_other_in(ids: &[u32], given: Option<u32>, kept: Option<u32>) -> bool
    ensures { result ≡ true → kept ≡ option_map (number_in ids.now) given }
{
    match given {
        Some(id) => match kept {
            Some(other) => other == number_in(ids, id),
            None => false,
        },
        None => kept.is_none(),
    }
}

/// Whether numbers are the same.
fn are_same(given: &[i32], kept: &[i32]) -> bool
    ensures { result ≡ true → kept.now ≡ given.now }
{
    if given.len() != kept.len() {
        return false;
    }
    for i in 0..given.len() {
        if kept[i] != given[i] {
            return false;
        }
    }
    true
}

/// Whether labels are the same.
fn are_labels_of(given: &Labels, kept: &Labels) -> bool
    ensures { result ≡ true → kept.now ≡ given.now }
{
    are_same(given.as_slice(), kept.as_slice())
}

/// Whether discriminants are the same.
fn is_tag_of(given: &Tag, kept: &Tag) -> bool
    ensures { result ≡ true → kept.now ≡ given.now }
{
    match given {
        Tag::Num(kind) => match kept {
            Tag::Num(other) => *other == *kind,
            Tag::Enum(_) => false,
        },
        Tag::Enum(labels) => match kept {
            Tag::Enum(others) => are_labels_of(labels, others),
            Tag::Num(_) => false,
        },
    }
}

/// Whether a node is another one whose children have the numbers for which its own are exchanged.
pub(crate) fn is_renumbered(ids: &[u32], given: &Node, kept: &Node) -> bool
    ensures { result ≡ true → kept.now ≡ renumbered ids.now given.now }
{
    match given {
        Node::Void => matches!(kept, Node::Void),
        Node::Num(kind) => match kept {
            Node::Num(other) => *other == *kind,
            _ => false,
        },
        Node::Enum(labels) => match kept {
            Node::Enum(others) => are_labels_of(labels, others),
            _ => false,
        },
        Node::Text(count) => match kept {
            Node::Text(other) => *other == *count,
            _ => false,
        },
        Node::Row(kind, count) => match kept {
            Node::Row(other, many) => *other == *kind && *many == *count,
            _ => false,
        },
        Node::Group(ids_given) => match kept {
            Node::Group(others) => are_numbers_in(ids, ids_given.as_slice(), others.as_slice()),
            _ => false,
        },
        Node::Items(id, count) => match kept {
            Node::Items(other, many) => *other == number_in(ids, *id) && *many == *count,
            _ => false,
        },
        Node::Choice(tag, arms, other) => match kept {
            Node::Choice(tag_kept, arms_kept, other_kept) => {
                is_tag_of(tag, tag_kept)
                    && are_arms_in(ids, arms.as_slice(), arms_kept.as_slice())
                    && is_other_in(ids, *other, *other_kept)
            }
            _ => false,
        },
        Node::Maybe(id) => match kept {
            Node::Maybe(other) => *other == number_in(ids, *id),
            _ => false,
        },
    }
}
