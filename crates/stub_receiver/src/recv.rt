//! A receive code that is run as a whole.

ghost use Rattle.std.specs.Prelude.{◌≡◌, IfOk, drop};
ghost use Rattle.mint.specs.Types.{type_at};
ghost use Rattle.wire_def.specs.declared.encoding.Encoding.{Encoding};
ghost use Rattle.cast_stub.specs.Got.{received, got_by, IsExact};
ghost use Rattle.cast_stub.specs.Runs.{Holds};
ghost use Rattle.stub_receiver.specs.Ran.{place_of, IsGot, IsSpelled};

use crate::errors::Halt;
use crate::machine::Machine;
use crate::run::run_fresh;
use cast_stub::{RecvCode, deepest_call};
use kit_base::NoMemory;
use mint::table::Mint;
use mint::value::Value;
use raw_buf::RecvView;
use std::alloc::Global;

/// What a receive code gives.
#[derive(Drop)]
pub enum Got {
    /// A value of the node.
    Value(Value),
    /// A test failed.
    Not,
}

/// Receives a value of a node's type from a view, by a code that does not stray there.
pub fn run_recv(
    alloc: Global,
    code: &RecvCode,
    mint: &Mint,
    id: u32,
    view: &mut RecvView<'_>,
) -> Result<Got, NoMemory>
    requires { Holds (received code.now (type_at mint.now id) (place_of view.old)) }
    ensures got { IfOk result
        (λ got. IsGot got view.new (got_by code.now (type_at mint.now id) (place_of view.old))) }
    ensures exact { (e : Encoding) → IsExact e (type_at mint.now id) view.old.pos
        (drop view.old.pos view.old.octets) (received code.now (type_at mint.now id) (place_of view.old))
        → IfOk result (λ got. IsSpelled e (type_at mint.now id) got view.old view.new) }
    ensures octets { view.new.octets ≡ view.old.octets }
{
    let machine = Machine {
        alloc,
        subs: &code.subs,
        mint,
    };
    match run_fresh(&machine, deepest_call(), &code.ops, id, view) {
        Ok(value) => Ok(Got::Value(value)),
        Err(Halt::Refused) => Ok(Got::Not),
        Err(Halt::NoMemory) => Err(NoMemory),
    }
}
