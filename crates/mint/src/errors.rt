//! Why a table does not take a node.

/// A refusal of [`crate::table::Mint::add`].
#[derive(Clone, Copy, Debug, PartialEq, Eq)]
pub enum MintErr {
    /// A child's number is not below the new node's.
    Forward,
    /// A count of exactly 0, or an element whose blank value has weight 0.
    Empty,
    /// More than 32 levels.
    Deep,
    /// The table has 65,536 nodes.
    Many,
    /// A blank value of weight above 1,048,576.
    Heavy,
    /// An enum without labels, a union with neither an arm nor a default, more than 4,096 labels or
    /// arms, numbers that do not rise, or an arm for a number that is not one of the tag's.
    Labels,
    /// A row of Bool, or a text of an exact length.
    Kind,
    /// Out of memory.
    NoMemory,
}

impl From<kit_base::NoMemory> for MintErr {
    ghost use Rattle.std.specs.Prelude.{◌≡◌};
    ghost use Rattle.mint.specs.declared.errors.MintErr.{MintErr};

    ghost from_gives = { λ _ e. e ≡ MintErr.NoMemory };

    fn from(_: kit_base::NoMemory) -> Self {
        MintErr::NoMemory
    }
}
