//! What tables of names have.

use aoi::RaiseFields;
use kit_base::{Boxed, Listed, Words};
use kit_shared::Shared;

/// Names, each with its string.
#[derive(Drop)]
pub(crate) struct NamesAndTexts {
    /// The names.
    pub(crate) names: Words,
    /// The string of each.
    pub(crate) texts: Listed<String>,
}

/// Names, with their places in the order of their keys.
#[derive(Drop)]
pub(crate) struct NamesInOrder {
    /// The names.
    pub(crate) names: Words,
    /// The places.
    pub(crate) order: Vec<u8>,
}

/// The names of a table, as small as a pointer. Where all are of ASCII, each is a string by itself.
#[derive(Drop)]
pub(crate) enum Held {
    /// Its own, all of ASCII.
    Own(Box<Words>),
    /// Its own, all of ASCII, whose order is kept.
    Ordered(Boxed<NamesInOrder>),
    /// Its own, of which one is not of ASCII.
    Texted(Boxed<NamesAndTexts>),
    /// Those of an exception's members, all of ASCII.
    Members(Shared<RaiseFields>),
}
