//! The two ends of a gateway.

ghost use Rattle.std.specs.Prelude.{◌≡◌, ◌<◌, ◌≤◌, ℕ, List, Err, Option, Some, length, IfOk};
ghost use Rattle.kit_base.specs.Limits.{longest_message};
ghost use Rattle.mint.specs.Values.{Val, seen};
ghost use Rattle.wire_def.specs.declared.head.Head.{Head};
ghost use Rattle.gateway.specs.declared.errors.WriteErr.TheVariants.{Long};
ghost use Rattle.gateway.specs.Ends.{AtMostOne, IfRefused, IfRequest};

use crate::errors::WriteErr;
use kit_base::{NoMemory, Octets};
use mint::value::Value;
use std::alloc::Global;
use wire_def::Head;

/// What octets are at the end that reads.
#[derive(Drop)]
pub enum Asked<X> {
    /// A request: the number of its operation, its head and its value.
    Request(u32, Head, Value),
    /// No request, and why.
    Refused(X),
}

/// Two ends: one reads requests, and the other writes them.
pub trait Ends {
    /// Why octets are no request.
    type Refused;

    /// Which request octets are, if they are one: an operation, a head and a value.
    ghost Asks: { Self → List ℕ → ℕ → Head → Val → Type 0 };

    /// Why octets are no request, if they are none.
    ghost Declines: { Self → List ℕ → Self.Refused → Type 0 };

    /// The operation and the head that an operation and a head are paired with, if there are such.
    ghost paired: { Self → ℕ → Head → Option (ℕ × Head) };

    /// The message of an operation, a head and a value at the end that writes.
    ghost told: { Self → ℕ → Head → Val → List ℕ };

    /// The request that octets are, or why they are none.
    fn read(&self, alloc: Global, octets: &[u8]) -> Result<Asked<Self::Refused>, NoMemory>
        ensures asked { IfOk result (λ a. IfRequest a (Asks self.now octets.now)) }
        ensures declined { IfOk result (λ a. IfRefused a (Declines self.now octets.now)) };

    /// The operation and the head that those of a request are paired with.
    fn pair(&self, op: u32, head: &Head) -> Option<(u32, Head)>
        requires asked { (octets : List ℕ) × (v : Val) × Asks self.now octets op head.now v }
        ensures { result ≡ paired self.now op head.now };

    /// The message of a request's value, with the operation and the head that the request is paired
    /// with.
    fn write(&self, alloc: Global, op: u32, head: &Head, value: &Value) -> Result<Octets, WriteErr>
        requires paired { (octets : List ℕ) × (o : ℕ) × (h : Head)
            × Asks self.now octets o h (seen value.now) × (paired self.now o h ≡ Some (op, head.now)) }
        ensures ok { IfOk result (λ m. m ≡ told self.now op head.now (seen value.now)) }
        ensures short { IfOk result (λ m. length m ≤ longest_message) }
        ensures long { result ≡ Err Long
            → longest_message < length (told self.now op head.now (seen value.now)) };

    /// Octets are one request, or there is one reason why they are none.
    ghost one: { AtMostOne Asks Declines };
}
