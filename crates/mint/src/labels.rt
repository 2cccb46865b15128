//! The numbers of an enum, among which a number is found by halving.

ghost use Rattle.std.specs.Prelude.{◌≡◌, [], ◌∷◌, ◌++◌, length, slice_get, IfOk, true, int_lt};
ghost use Rattle.std.specs.List.{list_any};
ghost use Rattle.std.specs.Option.{option_copied};
ghost use Rattle.std.specs.Ordering.{int_eq};
ghost use Rattle.mint.specs.Keyed.{IsMark, Rise};

use kit_base::{Listed, NoMemory};
use kit_shared::Shared;
use std::alloc::Global;
use std::marker::Model;

/// Numbers of an enum, which may have more owners. It keeps whether they rise; where they do, it finds one by halving.
#[derive(Drop)]
pub struct Labels {
    numbers: Shared<Listed<i32>>,
    rising: bool,
}

impl Model for Labels {
    ghost use Rattle.std.specs.Prelude.{List, ℤ};
    ghost use Rattle.mint.specs.Keyed.{IsMark};

    ghost Value = { List ℤ };

    ghost view = { λ a. a.numbers };

    ghost invariant = { λ a. IsMark a.rising a.numbers };
}

fn is_among(labels: &[i32], n: &i128) -> bool
    ensures { result ≡ list_any (λ l. int_eq l n.now) labels.now }
{
    labels.iter().any(|l| i128::from(*l) == *n)
}

fn is_under(label: &i32, n: &i128) -> bool
    ensures { result ≡ int_lt label.now n.now }
{
    i128::from(*label) < *n
}

fn is_over(label: &i32, n: &i128) -> bool
    ensures { result ≡ int_lt n.now label.now }
{
    *n < i128::from(*label)
}

/// Whether a number is among numbers that rise.
fn is_among_rising(labels: &[i32], n: &i128) -> bool
    requires { Rise labels.now }
    ensures { result ≡ list_any (λ l. int_eq l n.now) labels.now }
{
    let mut low = 0;
    let mut high = labels.len();
    while low < high {
        let middle = low + (high - low) / 2;
        let label = &labels[middle];
        if is_under(label, n) {
            low = middle + 1;
        } else if is_over(label, n) {
            high = middle;
        } else {
            return true;
        }
    }
    false
}

fn is_less(m: &i32, n: &i32) -> bool
    ensures { result ≡ int_lt m.now n.now }
{
    *m < *n
}

/// Whether a number is above the last one, if there is one.
fn is_above(labels: &[i32], n: &i32) -> bool
    ensures { result ≡ true → Rise labels.now → Rise (labels.now ++ n.now ∷ []) }
{
    match labels.last() {
        Some(last) => is_less(last, n),
        None => true,
    }
}

/// Whether numbers rise.
fn are_rising(labels: &[i32]) -> bool
    ensures { IsMark result labels.now }
{
    for i in 0..labels.len() {
        if !is_above(&labels[..i], &labels[i]) {
            return false;
        }
    }
    true
}

impl Labels {
    /// These numbers.
    pub fn of(alloc: Global, numbers: &[i32]) -> Result<Labels, NoMemory>
        ensures { IfOk result (λ labels. labels ≡ numbers.now) }
    {
        let rising = are_rising(numbers);
        let numbers = Shared::new(alloc, Listed::from_slice(alloc, numbers)?)?;
        Ok(Labels { numbers, rising })
    }

    /// The same numbers with one more owner, which takes no memory.
    pub fn share(&self) -> Result<Labels, NoMemory>
        ensures { IfOk result (λ labels. labels ≡ self.now) }
    {
        Ok(Labels {
            numbers: self.numbers.share()?,
            rising: self.rising,
        })
    }

    /// How many numbers there are.
    pub fn len(&self) -> usize
        ensures { result ≡ length self.now }
    {
        self.numbers.len()
    }

    /// The number at a place, counted from 0.
    pub fn get(&self, i: usize) -> Option<&i32>
        ensures { option_copied result ≡ slice_get self.now i }
    {
        self.numbers.get().get(i)
    }

    /// The numbers.
    pub fn as_slice(&self) -> &[i32]
        ensures { result.now ≡ self.now }
    {
        self.numbers.as_slice()
    }

    /// Whether a number is one of them.
    pub fn has(&self, n: &i128) -> bool
        ensures { result ≡ list_any (λ l. int_eq l n.now) self.now }
    {
        if self.rising {
            is_among_rising(self.numbers.as_slice(), n)
        } else {
            is_among(self.numbers.as_slice(), n)
        }
    }
}
