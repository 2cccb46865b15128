//! The work that a server does.

ghost use Rattle.std.specs.Prelude.{◌<◌, ℕ, length, IfOk};
ghost use Rattle.mint.specs.Typed.{IsWellTyped};
ghost use Rattle.mint.specs.Values.{Val, seen};
ghost use Rattle.pres.specs.Bindings.{Binding};
ghost use Rattle.skeleton.specs.Exchanges.{request_type, reply_type};

use kit_base::NoMemory;
use mint::value::Value;
use std::alloc::Global;

/// What a server does for calls: a reply to each request for an operation of a binding. By its
/// contract each request and each reply is well typed, so that neither side has to test this.
pub trait Skeleton {
    /// The binding whose operations are called.
    ghost binding: { Self → Binding };

    /// Which replies may be given: an operation, its request, and a reply that may answer it.
    ghost Answers: { Self → ℕ → Val → Val → Type 0 };

    /// A reply to an operation that is called with a request: arm 0 is the answer, arm k the k-th
    /// exception.
    fn call(&self, alloc: Global, op: u32, request: &Value) -> Result<Value, NoMemory>
        requires op { op < length (binding self.now).ops }
        requires typed { IsWellTyped (request_type (binding self.now) op) (seen request.now) }
        ensures typed { IfOk result (λ v. IsWellTyped (reply_type (binding self.now) op) (seen v)) }
        ensures answers { IfOk result (λ v. Answers self.now op (seen request.now) (seen v)) };
}
