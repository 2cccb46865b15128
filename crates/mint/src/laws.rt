//! What the definitions promise, as contracts of functions that do nothing. A function that calls
//! one has the promise among its facts.

ghost use Rattle.std.specs.Prelude.{List, IsTrue, ℕ, ℤ, ◌≡◌, ◌≢◌, ◌≤◌, ◌<◌, ◌%◌, length};
ghost use Rattle.std.specs.List.{list_all, AllByRecursion};
ghost use Rattle.kit_base.specs.Limits.{deepest, heaviest_blank};
ghost use Rattle.mint.specs.Blank.{blank, depth};
ghost use Rattle.mint.specs.Kinds.{in_range, width};
ghost use Rattle.mint.specs.Row.{image_of, numbers_of};
ghost use Rattle.mint.specs.Sound.{IsSound};
ghost use Rattle.mint.specs.Typed.{IsWellTyped};
ghost use Rattle.mint.specs.Types.{Ty};
ghost use Rattle.mint.specs.Values.{weight};

use crate::kind::Kind;

/// Numbers and their image give each other back.
pub fn images_are_exact()
    ensures numbers { (k : Kind) (ns : List ℤ) → IsTrue (list_all (in_range k) ns)
        → numbers_of k (image_of k ns) ≡ ns }
    ensures image { (k : Kind) (o : List ℕ) → k ≢ Kind.Bool → length o % width k ≡ 0
        → AllByRecursion (λ b. b < 256) o → image_of k (numbers_of k o) ≡ o }
    ensures ranged { (k : Kind) (o : List ℕ) → k ≢ Kind.Bool → length o % width k ≡ 0
        → AllByRecursion (λ b. b < 256) o → IsTrue (list_all (in_range k) (numbers_of k o)) }
{}

/// A sound type has at most 32 levels, and a blank value of weight at most 1,048,576.
pub fn sound_types_are_small()
    ensures depth { (t : Ty) → IsSound t → depth t ≤ deepest }
    ensures weight { (t : Ty) → IsSound t → weight (blank t) ≤ heaviest_blank }
{}

/// The blank value of a sound type is well typed.
pub fn blanks_are_well_typed()
    ensures { (t : Ty) → IsSound t → IsWellTyped t (blank t) }
{}
