//! Sets of numbers.

ghost use Rattle.std.specs.Prelude.{◌≡◌, ◌∷◌, [], ◌++◌, false, nat_eq, drop, OnOk};
ghost use Rattle.std.specs.List.{list_any};
ghost use Rattle.std.specs.Ordering.{int_eq};

use indexmap::IndexSet;
use kit_base::NoMemory;

/// Whether a number is there.
pub fn has_integer(numbers: &IndexSet<i128>, n: &i128) -> bool
    ensures { result ≡ list_any (int_eq n.now) numbers.now.keys }
{
    numbers.contains(n)
}

/// Puts a number after the others.
pub fn add_integer(numbers: &mut IndexSet<i128>, n: &i128) -> Result<(), NoMemory>
    requires { list_any (int_eq n.now) numbers.old.keys ≡ false }
    ensures ok { OnOk result (numbers.new.keys ≡ numbers.old.keys ++ n.now ∷ []) }
{
    numbers.insert(*n)?;
    Ok(())
}

/// The numbers after the first so many.
pub fn after(numbers: &[i128], count: usize) -> &[i128]
    ensures { result.now ≡ drop count numbers.now }
{
    if count >= numbers.len() {
        return &numbers[numbers.len()..];
    }
    &numbers[count..]
}

/// Whether a number is there.
pub fn has_number(numbers: &IndexSet<u32>, n: u32) -> bool
    ensures { result ≡ list_any (nat_eq n) numbers.now.keys }
{
    numbers.contains(&n)
}

/// Puts a number after the others.
pub fn add_number(numbers: &mut IndexSet<u32>, n: u32) -> Result<(), NoMemory>
    requires { list_any (nat_eq n) numbers.old.keys ≡ false }
    ensures ok { OnOk result (numbers.new.keys ≡ numbers.old.keys ++ n ∷ []) }
{
    numbers.insert(n)?;
    Ok(())
}
