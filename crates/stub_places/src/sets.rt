//! Sets of residues of a position by 8.

ghost use Rattle.std.specs.Prelude.{◌≡◌, true, ◌+◌, ◌-◌, ◌%◌, ◌<◌, ◌≤◌, ◌&&◌, ◌||◌, not, nat_eq, if◌then◌else◌};
ghost use Rattle.wire_def.specs.Scalars.{gap};
ghost use Rattle.cast_stub.specs.Steps.{is_width};
ghost use Rattle.stub_flat.specs.Residues.{aligned, comes, every, is_within, moved, none, only, single_first, size_first, sum};
ghost use Rattle.stub_places.specs.Sets.{each_of, set_of};

/// Which of the residues 0 to 7 are in a set.
pub type Set = [bool; 8];

/// The values of a function at the residues 0 to 7, before which it takes what is given.
#[macro_export]
macro_rules! at_each {
    ($at:ident($($given:expr),*)) => {
        [
            $at($($given,)* 0),
            $at($($given,)* 1),
            $at($($given,)* 2),
            $at($($given,)* 3),
            $at($($given,)* 4),
            $at($($given,)* 5),
            $at($($given,)* 6),
            $at($($given,)* 7),
        ]
    };
}

/// Whether both are true, without a branch.
pub fn both(a: bool, b: bool) -> bool
    ensures { result ≡ (a && b) }
{
    a && b
}

fn either(a: bool, b: bool) -> bool
    ensures { result ≡ (a || b) }
{
    a || b
}

/// Whether a residue is in a set.
pub fn contains(set: &Set, r: usize) -> bool
    requires { r < 8 }
    ensures { result ≡ set_of set.now r }
{
    set[r]
}

fn is_at(k: usize, r: usize) -> bool
    ensures { result ≡ nat_eq r k }
{
    r == k
}

/// One residue; no residue where it is 8.
pub fn only(k: usize) -> Set
    ensures { result ≡ each_of (only k) }
{
    at_each!(is_at(k))
}

/// Every residue.
pub fn every() -> Set
    ensures { result ≡ each_of every }
{
    [true; 8]
}

/// No residue.
pub fn none() -> Set
    ensures { result ≡ each_of none }
{
    [false; 8]
}

fn sum_at(a: &Set, b: &Set, r: usize) -> bool
    requires { r < 8 }
    ensures { result ≡ (set_of a.now r || set_of b.now r) }
{
    either(contains(a, r), contains(b, r))
}

/// Those of one or the other.
pub fn sum(a: &Set, b: &Set) -> Set
    ensures { result ≡ each_of (sum (set_of a.now) (set_of b.now)) }
{
    at_each!(sum_at(a, b))
}

/// The same residues.
pub fn copied(set: &Set) -> Set
    ensures { result ≡ each_of (set_of set.now) }
{
    at_each!(contains(set))
}

/// The residue from which so many octets lead to another.
pub fn before(n: u32, r: usize) -> usize
    requires { r < 8 }
    ensures is { result ≡ (r + 8 - n % 8) % 8 }
    ensures below { result < 8 }
{
    (r + 8 - (n % 8) as usize) % 8
}

fn moved_at(n: u32, set: &Set, r: usize) -> bool
    requires { r < 8 }
    ensures { result ≡ set_of set.now ((r + 8 - n % 8) % 8) }
{
    contains(set, before(n, r))
}

/// Those to which octets lead.
pub fn moved(n: u32, set: &Set) -> Set
    ensures { result ≡ each_of (moved n (set_of set.now)) }
{
    at_each!(moved_at(n, set))
}

/// How many octets lead to a multiple.
pub fn gap(r: usize, a: u32) -> usize
    requires width { is_width a ≡ true }
    ensures is { result ≡ gap r a }
    ensures below { result < 8 }
{
    let a = a as usize;
    (a - r % a) % a
}

/// Whether an align leads from one residue to another.
fn leads(k: usize, a: u32, r: usize) -> bool
    requires width { is_width a ≡ true }
    requires below { k < 8 }
    ensures { result ≡ nat_eq ((k + gap k a) % 8) r }
{
    (k + gap(k, a)) % 8 == r
}

fn comes_from(k: usize, a: u32, set: &Set, r: usize) -> bool
    requires width { is_width a ≡ true }
    requires below { k < 8 }
    ensures { result ≡ (set_of set.now k && nat_eq ((k + gap k a) % 8) r) }
{
    both(contains(set, k), leads(k, a, r))
}

/// Whether an align leads to a residue.
fn aligned_at(a: u32, set: &Set, r: usize) -> bool
    requires { is_width a ≡ true }
    ensures { result ≡ comes 8 a (set_of set.now) r }
{
    let mut found = false;
    for k in 0..8 {
        found = either(comes_from(k, a, set, r), found);
    }
    found
}

/// Those to which an align leads.
pub fn aligned(a: u32, set: &Set) -> Set
    requires { is_width a ≡ true }
    ensures { result ≡ each_of (aligned a (set_of set.now)) }
{
    at_each!(aligned_at(a, set))
}

fn is_within_at(a: &Set, b: &Set, r: usize) -> bool
    requires { r < 8 }
    ensures { result ≡ (not (set_of a.now r) || set_of b.now r) }
{
    either(!contains(a, r), contains(b, r))
}

/// Whether each residue of one is in the other.
pub fn is_within(a: &Set, b: &Set) -> bool
    ensures { result ≡ is_within (set_of a.now) (set_of b.now) }
{
    let mut all = true;
    for r in 0..8 {
        all = both(is_within_at(a, b, r), all);
    }
    all
}

fn counted(set: &Set, r: usize) -> usize
    requires { r < 8 }
    ensures is { result ≡ (if set_of set.now r then 1 else 0) }
    ensures most { result ≤ 1 }
{
    if contains(set, r) { 1 } else { 0 }
}

/// How many residues there are.
pub fn size(set: &Set) -> usize
    ensures is { result ≡ size_first 8 (set_of set.now) }
    ensures most { result ≤ 8 }
{
    let mut n = 0;
    for r in 0..8 {
        n = counted(set, r) + n;
    }
    n
}

fn later(set: &Set, r: usize, last: usize) -> usize
    requires { r < 8 }
    ensures { result ≡ (if set_of set.now r then r else last) }
{
    if contains(set, r) { r } else { last }
}

/// The only residue, where there is one.
pub fn single(set: &Set) -> usize
    ensures { result ≡ single_first 8 (set_of set.now) }
{
    let mut last = 0;
    for r in 0..8 {
        last = later(set, r, last);
    }
    last
}
