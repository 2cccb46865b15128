//! Why there is no message.

ghost use Rattle.std.specs.Prelude.{◌≡◌};
ghost use Rattle.gateway.specs.declared.errors.PassErr.TheVariants.{NoMemory as NotPassed};
ghost use Rattle.gateway.specs.Passed.{passed_on};

use kit_base::NoMemory;

/// Why a request is not written.
#[derive(Clone, Copy, Debug, PartialEq, Eq)]
pub enum WriteErr {
    /// The message would have more than 4,194,304 octets.
    Long,
    /// Memory ran out.
    NoMemory,
}

/// Why octets are not passed on.
#[derive(Clone, Debug, Drop, PartialEq, Eq)]
pub enum PassErr<X> {
    /// The octets are no request, and this is why.
    Read(X),
    /// The request's operation and head are paired with none.
    Pair,
    /// The message would have more than 4,194,304 octets.
    Long,
    /// Memory ran out.
    NoMemory,
}

impl<X> From<NoMemory> for PassErr<X> {
    ghost from_gives = { λ _ e. e ≡ NotPassed };

    fn from(_: NoMemory) -> PassErr<X> {
        PassErr::NoMemory
    }
}

impl<X> From<WriteErr> for PassErr<X> {
    ghost from_gives = { λ e f. f ≡ passed_on e };

    fn from(error: WriteErr) -> PassErr<X> {
        match error {
            WriteErr::Long => PassErr::Long,
            WriteErr::NoMemory => PassErr::NoMemory,
        }
    }
}
