//! A text as a stub.

ghost use Rattle.std.specs.Prelude.{◌≡◌, ◌+◌, suc, Err, IfOk, map, option_map};
ghost use Rattle.cast_stub.specs.Block.{code_seen};
ghost use Rattle.stub_read.specs.Reading.{Gives};
ghost use Rattle.stub_read.specs.Operations.{ops_at};
ghost use Rattle.stub_read.specs.Stubs.{deepest, sub_at, subs_at, parts_at, Begins, BeginsNone};

use crate::StubErr;
use crate::operations::ops;
use crate::words::{after, line, past};
use cast_stub::{SendCode, SendOps, SendSubs};
use kit_base::{Name, Octets};
use std::alloc::Global;
use stub_print::print_send;

/// How deep blocks nest at most, and one more.
const LEVELS: u32 = 129;

/// Code that sends, as a text names it.
#[derive(Drop)]
pub struct Stub {
    /// The name on the first line.
    pub name: Name,
    /// The operations, and the codes that their calls name.
    pub code: SendCode,
    /// How many octets its text has.
    pub used: usize,
}

/// A whole code, up to a line that is no operation.
#[tactic(auto, unfolding(crate::specs::Stubs::deepest))]
fn code(alloc: Global, text: &[u8]) -> Result<(SendOps, &[u8]), StubErr>
    ensures { Gives (λ x. (x.0, x.1.now)) result (ops_at (suc deepest) text.now) }
{
    ops(alloc, LEVELS, text)
}

/// A code after the word that begins its line.
fn sub(alloc: Global, text: &[u8]) -> Result<(SendOps, &[u8]), StubErr>
    ensures { Gives (λ x. (x.0, x.1.now)) result (sub_at text.now) }
{
    let (_, rest) = line(text)?;
    let (ops, rest) = code(alloc, rest)?;
    let rest = past(rest, b"end\n")?;
    Ok((ops, rest))
}

/// As many codes as there are.
#[tactic(auto, using(crate::proofs::Loops::loops))]
fn subs(alloc: Global, text: &[u8]) -> Result<(SendSubs, &[u8]), StubErr>
    ensures { Gives (λ x. (x.0, x.1.now)) result (subs_at text.now) }
{
    let mut items = SendSubs::new(alloc);
    let mut rest = text;
    'items: for _ in 0..text.len() {
        let Some(led) = after(rest, b"sub ") else {
            return Ok((items, rest));
        };
        let (item, tail) = sub(alloc, led)?;
        items.push(item)?;
        rest = tail;
    }
    Ok((items, rest))
}

/// The name, the operations and the codes that the lines of a text tell.
#[tactic(auto, unfolding(crate::specs::Stubs::parts_at))]
fn parts(alloc: Global, text: &[u8]) -> Result<(Name, SendOps, SendSubs), StubErr>
    ensures { Gives (λ x. (x.0, (x.1, x.2))) result (option_map (λ x. x.0) (parts_at text.now)) }
{
    let rest = past(text, b"send ")?;
    let (name, rest) = line(rest)?;
    let (ops, rest) = code(alloc, rest)?;
    let (subs, rest) = subs(alloc, rest)?;
    let _ = past(rest, b"end\n")?;
    Ok((Name::from_slice(alloc, name)?, ops, subs))
}

/// The stub whose text begins the octets: its name, its code and how many octets its text has.
pub fn read_stub(alloc: Global, text: &[u8]) -> Result<Stub, StubErr>
    ensures stub { IfOk result (λ s.
        Begins s.name (code_seen s.code.ops) (map code_seen s.code.subs) s.used text.now) }
    ensures exact { result ≡ Err StubErr.Text → BeginsNone text.now }
{
    let (name, ops, subs) = parts(alloc, text)?;
    let code = SendCode { ops, subs };
    let printed = print_send(alloc, &name, &code)?;
    if !text.starts_with(printed.as_slice()) {
        return Err(StubErr::Text);
    }
    let used = printed.len();
    Ok(Stub { name, code, used })
}
