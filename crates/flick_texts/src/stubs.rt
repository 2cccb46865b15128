//! The texts of the stub code of operations.

ghost use Rattle.std.specs.Prelude.{◌≡◌, ◌++◌, ◌<◌, length, IfOk, IfSome, OnOk, slice_get};
ghost use Rattle.flick_texts.specs.StubTexts.{both_texts, counted_text, received_text, sent_text, stubs_text};

use flick_engine::Engine;
use json_shape::dotted;
use kit_base::{Name, NoMemory, Octets};
use std::alloc::Global;
use stub_print::{print_recv, print_send};

/// The text of each operation's stub code: of the code that sends its requests, and then of the code that receives
/// them. The time is linear in the texts.
pub fn stubs_text(alloc: Global, engine: &Engine) -> Result<Octets, NoMemory>
    ensures value { IfOk result (λ t. t ≡ stubs_text engine.now) }
{
    engine.codes_match_operations();
    let mut out = Octets::new(alloc);
    let interfaces = engine.bound().unit().interfaces().as_slice();
    for (i, op) in engine.bound().ops().as_slice().iter().enumerate() {
        let name = dotted(alloc, interfaces, op)?;
        append_both(alloc, engine, number_of(i)?, &name, &mut out)?;
    }
    Ok(out)
}

/// The text of the code of each operation that sends its requests, and the line `--` after them.
pub fn counted_text(alloc: Global, engine: &Engine) -> Result<Octets, NoMemory>
    ensures value { IfOk result (λ t. t ≡ counted_text engine.now) }
{
    engine.codes_match_operations();
    let mut out = Octets::new(alloc);
    let interfaces = engine.bound().unit().interfaces().as_slice();
    for (i, op) in engine.bound().ops().as_slice().iter().enumerate() {
        let name = dotted(alloc, interfaces, op)?;
        append_sent(alloc, engine, number_of(i)?, &name, &mut out)?;
    }
    out.append(b"--\n")?;
    Ok(out)
}

/// The number of the operation at a place. More operations than numbers are more than memory holds.
fn number_of(i: usize) -> Result<u32, NoMemory>
    ensures { IfOk result (λ n. n ≡ i) }
{
    match u32::try_from(i) {
        Ok(number) => Ok(number),
        Err(_) => Err(NoMemory),
    }
}

/// A text that grew, or out of memory.
type Grown = Result<(), NoMemory>;

/// Appends the texts of both codes of an operation.
fn append_both(alloc: Global, engine: &Engine, op: u32, name: &Name, out: &mut Octets) -> Grown
    requires { op < length engine.now.binding.ops }
    ensures text { OnOk result (IfSome (slice_get engine.now.stubs op)
        (λ s. out.new ≡ out.old ++ both_texts name.now s)) }
{
    append_sent(alloc, engine, op, name, out)?;
    append_received(alloc, engine, op, name, out)
}

/// Appends the text of the code that sends an operation's requests.
fn append_sent(alloc: Global, engine: &Engine, op: u32, name: &Name, out: &mut Octets) -> Grown
    requires { op < length engine.now.binding.ops }
    ensures text { OnOk result (IfSome (slice_get engine.now.stubs op)
        (λ s. out.new ≡ out.old ++ sent_text name.now s)) }
{
    let text = print_send(alloc, name, engine.send_code(op))?;
    out.append(text.as_slice())
}

/// Appends the text of the code that receives an operation's requests.
fn append_received(alloc: Global, engine: &Engine, op: u32, name: &Name, out: &mut Octets) -> Grown
    requires { op < length engine.now.binding.ops }
    ensures text { OnOk result (IfSome (slice_get engine.now.stubs op)
        (λ s. out.new ≡ out.old ++ received_text name.now s)) }
{
    let text = print_recv(alloc, name, engine.recv_code(op))?;
    out.append(text.as_slice())
}
