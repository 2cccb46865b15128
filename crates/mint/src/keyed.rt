//! Lists whose entries have numbers, in which a number is found by halving.

ghost use Rattle.std.specs.Prelude.{◌≡◌, ◌<◌, ℤ, [], ◌∷◌, ◌++◌, length, map, slice_get, OnOk, OnErr, IfSome, true, int_lt};
ghost use Rattle.std.specs.Option.{option_copied};
ghost use Rattle.mint.specs.Keyed.{IsMark, Rise, place_of};

use kit_base::{NoMemory, make_room};
use std::alloc::Global;
use std::marker::Model;

/// A list of entries, each with a number. It keeps whether the numbers rise; where they do, it
/// finds one by halving.
#[derive(Drop)]
pub struct Keyed<T> {
    entries: Vec<(i128, T)>,
    rising: bool,
}

impl<T> Model for Keyed<T> {
    ghost use Rattle.std.specs.Prelude.{List, ℤ, map};
    ghost use Rattle.std.specs.Coded.{coded_list, coded×, coded_ℤ};

    ghost Value = { List (ℤ × T) };

    ghost coded = { coded_list (coded× coded_ℤ T.code) };

    ghost use Rattle.mint.specs.Keyed.{IsMark};

    ghost view = { λ a. a.entries.items };

    ghost invariant = { λ a. IsMark a.rising (map (λ (e : ℤ × T). e.0) a.entries.items) };
}

/// The place of the first entry that has a number.
fn first<T>(entries: &[(i128, T)], n: &i128) -> Option<usize>
    ensures place { result ≡ place_of n.now entries.now }
    ensures within { IfSome result (λ i. i < length entries.now) }
{
    for (i, entry) in entries.iter().enumerate() {
        if *n == entry.0 {
            return Some(i);
        }
    }
    None
}

fn is_below(m: &i128, n: &i128) -> bool
    ensures { result ≡ int_lt m.now n.now }
{
    *m < *n
}

/// The place of the entry that has a number, where the numbers rise.
fn halved<T>(entries: &[(i128, T)], n: &i128) -> Option<usize>
    requires { Rise (map (λ (e : ℤ × T). e.0) entries.now) }
    ensures place { result ≡ place_of n.now entries.now }
    ensures within { IfSome result (λ i. i < length entries.now) }
{
    let mut low = 0;
    let mut high = entries.len();
    while low < high {
        let middle = low + (high - low) / 2;
        let m = &entries[middle].0;
        if is_below(m, n) {
            low = middle + 1;
        } else if is_below(n, m) {
            high = middle;
        } else {
            return Some(middle);
        }
    }
    None
}

/// Whether a number is above that of the last entry, if there is one.
fn is_above<T>(entries: &[(i128, T)], n: &i128) -> bool
    ensures { result ≡ true → Rise (map (λ (e : ℤ × T). e.0) entries.now)
        → Rise (map (λ (e : ℤ × T). e.0) entries.now ++ n.now ∷ []) }
{
    match entries.last() {
        Some(entry) => is_below(&entry.0, n),
        None => true,
    }
}

impl<T> Keyed<T> {
    /// A list without entries, which takes no memory.
    pub fn new(alloc: Global) -> Keyed<T>
        ensures { result ≡ [] }
    {
        Keyed {
            entries: Vec::new(alloc),
            rising: true,
        }
    }

    /// How many entries there are.
    pub fn len(&self) -> usize
        ensures { result ≡ length self.now }
    {
        self.entries.len()
    }

    /// The entry at a place, counted from 0.
    pub fn get(&self, i: usize) -> Option<&(i128, T)>
        ensures { option_copied result ≡ slice_get self.now i }
    {
        self.entries.get(i)
    }

    /// The entries.
    pub fn as_slice(&self) -> &[(i128, T)]
        ensures { result.now ≡ self.now }
    {
        self.entries.as_slice()
    }

    /// The entries themselves.
    pub fn into_entries(self) -> Vec<(i128, T)>
        ensures { result.items ≡ self }
    {
        self.entries
    }

    /// The place of the first entry that has a number.
    pub fn find(&self, n: &i128) -> Option<usize>
        ensures place { result ≡ place_of n.now self.now }
        ensures within { IfSome result (λ i. i < length self.now) }
    {
        if self.rising {
            halved(self.entries.as_slice(), n)
        } else {
            first(self.entries.as_slice(), n)
        }
    }
}

/// Whether the numbers of entries rise.
fn are_rising<T>(entries: &[(i128, T)]) -> bool
    ensures { IsMark result (map (λ (e : ℤ × T). e.0) entries.now) }
{
    for i in 0..entries.len() {
        if !is_above(&entries[..i], &entries[i].0) {
            return false;
        }
    }
    true
}

impl<T: Copy> Keyed<T> {
    /// Appends a piece. It looks again at all numbers, whether they rise.
    pub fn append(&mut self, piece: &[(i128, T)]) -> Result<(), NoMemory>
        ensures ok { OnOk result (self.new ≡ self.old ++ piece.now) }
        ensures err { OnErr result (self.new ≡ self.old) }
    {
        self.entries.extend_from_slice(piece)?;
        self.rising = are_rising(self.entries.as_slice());
        Ok(())
    }
}

impl<T: Drop> Keyed<T> {
    /// Appends an entry. A refused entry is dropped.
    pub fn push(&mut self, entry: (i128, T)) -> Result<(), NoMemory>
        ensures ok { OnOk result (self.new ≡ self.old ++ entry ∷ []) }
        ensures err { OnErr result (self.new ≡ self.old) }
    {
        let above = is_above(self.entries.as_slice(), &entry.0);
        make_room(&mut self.entries)?;
        self.entries.push(entry)?;
        self.rising = self.rising && above;
        Ok(())
    }
}
