//! Whether two codes are the same.

ghost use Rattle.std.specs.Prelude.{◌≡◌, ◌↔◌, true, IfOk};
ghost use Rattle.stub_check.specs.Verdicts.{IsSame};

use cast_stub::SendCode;
use kit_base::{Name, NoMemory};
use std::alloc::Global;
use stub_places::spend;
use stub_print::{print_send, send_texts_tell_their_codes};

/// The octets of a text that are put in a step.
const OCTETS: usize = 64;

/// Whether two codes are the same, by their texts, which tell them.
pub(crate) fn is_same_code(
    alloc: Global,
    kept: &SendCode,
    code: &SendCode,
    left: &mut u64,
) -> Result<bool, NoMemory>
    ensures { IfOk result (λ same. (same ≡ true) ↔ IsSame kept.now code.now) }
{
    send_texts_tell_their_codes();
    let name = Name::new(alloc);
    let ours = print_send(alloc, &name, kept)?;
    spend(left, (ours.len() / OCTETS) as u64)?;
    let theirs = print_send(alloc, &name, code)?;
    Ok(are_same(ours.as_slice(), theirs.as_slice()))
}

fn are_same(a: &[u8], b: &[u8]) -> bool
    ensures { (result ≡ true) ↔ (a.now ≡ b.now) }
{
    a == b
}
