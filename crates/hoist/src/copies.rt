//! Copies of code that is kept beside what passes make of it.

ghost use Rattle.std.specs.Prelude.{◌≡◌, IfOk};

use cast_stub::copies::copy_ops;
use cast_stub::{SendCode, SendSubs};
use kit_base::NoMemory;
use std::alloc::Global;

/// The same codes.
fn copy_subs(alloc: Global, subs: &SendSubs) -> Result<SendSubs, NoMemory>
    ensures { IfOk result (λ ss. ss ≡ subs.now) }
{
    let mut copy = SendSubs::new(alloc);
    for sub in subs.as_slice() {
        copy.push(copy_ops(alloc, sub)?)?;
    }
    Ok(copy)
}

/// The same code, for a pass that takes it.
pub fn copy_code(alloc: Global, code: &SendCode) -> Result<SendCode, NoMemory>
    ensures { IfOk result (λ c. c ≡ code.now) }
{
    Ok(SendCode {
        ops: copy_ops(alloc, &code.ops)?,
        subs: copy_subs(alloc, &code.subs)?,
    })
}
