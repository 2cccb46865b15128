//! Operations without bodies.

ghost use Rattle.std.specs.Prelude.{◌≡◌, ◌≢◌, ◌+◌, ◌-◌, ◌^◌, ◌%◌, [], ◌∷◌, Err, OnOk, OnErr, Some};
ghost use Rattle.mint.specs.Values.{seen};
ghost use Rattle.cast_stub.specs.Steps.{Room, Patched, align_steps, row_room};
ghost use Rattle.stub_machine.specs.Run.{state_of, Runs, Ends};

use crate::errors::Stopped;
use crate::parts::{length_of, part};
use cast_stub::Path;
use mint::value::Value;
use raw_buf::SendBuf;
use wire_def::Order;

/// Ensures so many octets.
pub fn run_ensure(n: u32, buf: &mut SendBuf) -> Result<(), Stopped>
    ensures ok { OnOk result (Ends (Some (Room n ∷ [])) (state_of buf.old) (state_of buf.new)) }
    ensures err { OnErr result (buf.new ≡ buf.old) }
    ensures memory { result ≢ Err Stopped.Long }
{
    buf.ensure(n as usize)?;
    Ok(())
}

/// Ensures octets for a list.
pub fn run_ensure_row(
    path: &Path,
    unit: u32,
    extra: u32,
    value: &Value,
    buf: &mut SendBuf,
) -> Result<(), Stopped>
    requires { Runs (row_room path.now unit extra (seen value.now)) (state_of buf.old) }
    ensures ok { OnOk result
        (Ends (row_room path.now unit extra (seen value.now)) (state_of buf.old) (state_of buf.new)) }
    ensures err { OnErr result (buf.new ≡ buf.old) }
    ensures memory { result ≢ Err Stopped.Long }
{
    let Some(here) = part(path, value) else {
        unreachable!()
    };
    let Some(n) = length_of(here) else {
        unreachable!()
    };
    let Some(octets) = n.checked_mul(unit as usize) else {
        return Err(Stopped::NoMemory);
    };
    let Some(room) = octets.checked_add(extra as usize) else {
        return Err(Stopped::NoMemory);
    };
    buf.ensure(room)?;
    Ok(())
}

/// Appends zeros up to a multiple.
pub fn run_align(a: u32, buf: &mut SendBuf)
    requires { Runs (align_steps a) (state_of buf.old) }
    ensures { Ends (align_steps a) (state_of buf.old) (state_of buf.new) }
{
    buf.align(a as usize);
}

/// Stores the length so far, less a number, over four octets.
pub fn run_patch(at: u32, sub: u32, order: Order, buf: &mut SendBuf)
    requires { Runs (Some (Patched at sub order ∷ [])) (state_of buf.old) }
    ensures { Ends (Some (Patched at sub order ∷ [])) (state_of buf.old) (state_of buf.new) }
{
    let length = length_less(buf.octets().len(), sub);
    buf.patch4(at as usize, order, length);
}

/// A length less a number, modulo 2^32.
fn length_less(n: usize, sub: u32) -> u32
    ensures { result ≡ (n + 2 ^ 32 - sub) % 2 ^ 32 }
{
    ((n as u128 + 4_294_967_296 - u128::from(sub)) % 4_294_967_296) as u32
}
