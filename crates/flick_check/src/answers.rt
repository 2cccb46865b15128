//! The answers of `check` to a file of stubs.

ghost use Rattle.std.specs.Prelude.{◌≡◌, ◌≤◌, ◌<◌, ◌++◌, ◌∷◌, [], decimal, drop, length, take, IfOk, IfSome, OnOk};
ghost use Rattle.flick_check.specs.Checked.{verdict_words, answer_line, last_line, IsAnswerPut, IsChecked, IsTakenOrNot, IsVerdictOf};
ghost use Rattle.flick_check.specs.Checked as checked;

use crate::files::{feeds, passed};
use crate::names::{op_of, request_of, spend_search};
use cast_stub::SendCode;
use flick_engine::Engine;
use itoa::Buffer;
use kit_base::{NoMemory, Octets};
use std::alloc::Global;
use stub_check::{Verdict, check};
use stub_places::steps_of;
use stub_read::{Stub, StubErr, read_stub};

/// The answers to the texts of a file of stubs, a line each: whether a text of code that sends, whoever made it, sends
/// the messages of the requests of the operation that it names. It gives up, as out of memory, where these take more steps
/// than a text of as many octets is given.
pub fn check_stubs(alloc: Global, engine: &Engine, text: &[u8]) -> Result<Octets, NoMemory>
    ensures { IfOk result (λ a. IsChecked engine.now text.now a) }
{
    let mut left = steps_of(text.len());
    let mut out = Octets::new(alloc);
    let mut rest = text;
    let mut line = 1;
    'parts: loop {
        let Some(used) = take_part(alloc, engine, rest, &mut left, &mut out)? else {
            put_last(&mut out, line, rest)?;
            return Ok(out);
        };
        let (part, tail) = parted(rest, used);
        line += feeds(part);
        rest = tail;
    }
}

/// So many octets, and those after them.
fn parted(text: &[u8], used: usize) -> (&[u8], &[u8])
    requires { used ≤ length text.now }
    ensures before { result.0.now ≡ take used text.now }
    ensures after { result.1.now ≡ drop used text.now }
{
    (&text[..used], &text[used..])
}

/// Puts the answer to the part that a text begins with, if it begins with one, and says how many octets that has.
fn take_part(
    alloc: Global,
    engine: &Engine,
    text: &[u8],
    left: &mut u64,
    out: &mut Octets,
) -> Result<Option<usize>, NoMemory>
    ensures taken { IfOk result (λ o. IsTakenOrNot engine.now text.now o out.old out.new) }
    ensures within { IfOk result (λ o. IfSome o (λ used. (1 ≤ used) × (used ≤ length text.now))) }
{
    if text.starts_with(b"recv ") {
        return Ok(Some(passed(text)));
    }
    match read_stub(alloc, text) {
        Ok(stub) => {
            put_answer(alloc, engine, &stub, left, out)?;
            Ok(Some(stub.used))
        }
        Err(StubErr::Text) => Ok(None),
        Err(StubErr::NoMemory) => Err(NoMemory),
    }
}

/// Puts the answer to a stub.
fn put_answer(
    alloc: Global,
    engine: &Engine,
    stub: &Stub,
    left: &mut u64,
    out: &mut Octets,
) -> Result<(), NoMemory>
    ensures { OnOk result (IsAnswerPut engine.now stub.now.name stub.now.code
        (checked.op_of engine.now.binding stub.now.name) out.old out.new) }
{
    let name = stub.name.as_slice();
    spend_search(left, engine)?;
    match op_of(engine.bound(), name)? {
        Some(op) => {
            let verdict = verdict_of(alloc, engine, op, &stub.code, left)?;
            put_line(out, words_of(verdict), name)
        }
        None => put_line(out, b"! op ", name),
    }
}

/// What is said of a code beside the code of an operation.
fn verdict_of(
    alloc: Global,
    engine: &Engine,
    op: u32,
    code: &SendCode,
    left: &mut u64,
) -> Result<Verdict, NoMemory>
    requires { op < length engine.now.binding.ops }
    ensures { IfOk result (λ v. IsVerdictOf engine.now op code.now v) }
{
    let node = request_of(engine, op);
    check(
        alloc,
        engine.send_code(op),
        code,
        engine.bound().mint(),
        node,
        left,
    )
}

/// The words before the name of an operation.
fn words_of(verdict: Verdict) -> &'static [u8]
    ensures { result.now ≡ verdict_words verdict }
{
    match verdict {
        Verdict::Yes => b"yes ",
        Verdict::Meaning => b"! meaning ",
        Verdict::Cover => b"! cover ",
    }
}

/// Puts words and a name on a line.
fn put_line(out: &mut Octets, words: &[u8], name: &[u8]) -> Result<(), NoMemory>
    ensures { OnOk result (out.new ≡ out.old ++ answer_line words.now name.now) }
{
    out.append(words)?;
    out.append(name)?;
    out.push(b'\n')
}

/// Puts what is said where no part begins, at a line: nothing at the end.
fn put_last(out: &mut Octets, line: usize, rest: &[u8]) -> Result<(), NoMemory>
    ensures { OnOk result (out.new ≡ out.old ++ last_line line rest.now) }
{
    if rest.is_empty() {
        return Ok(());
    }
    out.append(b"! text ")?;
    out.append(Buffer::new().format(line as u64).as_bytes())?;
    out.push(b'\n')
}
