//! Faults, and the numbers that are none.

ghost use Rattle.std.specs.Prelude.{◌≡◌, ◌+◌, IfOk, IfErr};
ghost use Rattle.aoi.specs.declared.faults.NameFault.TheVariants.{NoMemory as OutOfMemory};
ghost use Rattle.idl_names.specs.Answers.{Gives, in_range, natural, refused};

use aoi::{NameErr, NameFault};
use idl_const::ConstErr;

/// A fault in a declaration.
pub fn fault(what: NameFault, decl: u32) -> NameErr
    ensures { result ≡ record { fault = what; decl = decl } }
{
    NameErr { fault: what, decl }
}

/// The fault of out of memory, which is in no declaration.
pub fn want() -> NameErr
    ensures { result.fault ≡ OutOfMemory }
{
    fault(NameFault::NoMemory, 0)
}

/// A count as a number of 32 bits, if it is one.
pub fn count_of(n: usize) -> Result<u32, NameErr>
    ensures ok { IfOk result (λ k. k ≡ n) }
    ensures err { IfErr result (λ e. e.fault ≡ OutOfMemory) }
{
    match u32::try_from(n) {
        Ok(k) => Ok(k),
        Err(_) => Err(want()),
    }
}

/// The number of the next declaration.
pub fn next_decl(decl: u32) -> Result<u32, NameErr>
    ensures ok { IfOk result (λ d. d ≡ decl + 1) }
    ensures err { IfErr result (λ e. e.fault ≡ OutOfMemory) }
{
    match decl.checked_add(1) {
        Some(next) => Ok(next),
        None => Err(want()),
    }
}

/// A fault in a declaration, where something holds.
pub fn refuse(fault: NameFault, decl: u32, holds: bool) -> Result<(), NameErr>
    ensures value { Gives (λ x. x) result (refused fault decl holds) }
    ensures exact { result ≡ refused fault decl holds }
{
    if holds {
        return Err(NameErr { fault, decl });
    }
    Ok(())
}

/// A number from a lowest one up to 2^32 - 1.
pub fn natural(low: u32, decl: u32, n: i128) -> Result<u32, NameErr>
    ensures value { Gives (λ x. x) result (natural low decl n) }
    ensures exact { result ≡ natural low decl n }
{
    if n < i128::from(low) || 4294967295 < n {
        return Err(fault(NameFault::Range, decl));
    }
    Ok(n as u32)
}

/// The number that an operator gives; where it gives none, the number is out of range.
pub fn in_range(decl: u32, given: Result<i128, ConstErr>) -> Result<i128, NameErr>
    ensures value { Gives (λ x. x) result (in_range decl given) }
    ensures exact { result ≡ in_range decl given }
{
    match given {
        Ok(n) => Ok(n),
        Err(_) => Err(fault(NameFault::Range, decl)),
    }
}
