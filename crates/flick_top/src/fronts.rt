//! What differs from one front end to another: its name, and the unit of a file's tokens.

ghost use Rattle.std.specs.Prelude.{◌≡◌, ◌≤◌, Err, IfOk, OnErr, length};
ghost use Rattle.kit_base.specs.Limits.{longest_file};
ghost use Rattle.aoi.specs.declared.faults.NameFault.TheVariants.{NoMemory as OutOfMemory};
ghost use Rattle.front_onc.specs.Resolved.{IsWhole as OncIsWhole, resolved as onc_resolved};
ghost use Rattle.front_corba.specs.Resolved.{IsWhole as CorbaIsWhole, resolved as corba_resolved};
ghost use Rattle.front_mig.specs.Resolved.{resolved as mig_resolved};
ghost use Rattle.flick_top.specs.declared.report.Report.TheVariants as reports;
ghost use Rattle.flick_top.specs.File.{IsSoundly, plainly};
ghost use Rattle.flick_top.specs.Fronts.{front_of, in_words, CorbaTokensSay, MigTokensSay, OncTokensSay, TokensSay, UnitOf};

use crate::report::Report;
use aoi::{NameErr, NameFault, Unit};
use idl_lex::{Front, LexErr, Tokens, lex};
use kit_base::NoMemory;
use onc_syntax::SyntaxErr;
use std::alloc::Global;

/// The front end of a name, if it is one.
pub fn front_of(word: &[u8]) -> Option<Front>
    ensures value { result ≡ front_of word.now }
{
    if word == b"onc".as_slice() {
        return Some(Front::Onc);
    }
    if word == b"corba".as_slice() {
        return Some(Front::Corba);
    }
    if word == b"mig".as_slice() {
        return Some(Front::Mig);
    }
    None
}

/// The unit of a text, or what is said instead.
pub fn unit_of(alloc: Global, front: Front, text: &[u8]) -> Result<Result<Unit, Report>, NoMemory>
    requires short { length text.now ≤ longest_file }
    ensures says { IfOk result (λ read. UnitOf front text.now (plainly read)) }
    ensures sound { IfOk result IsSoundly }
{
    match lex(alloc, front, text) {
        Ok(tokens) => of_tokens(alloc, front, &tokens),
        Err(LexErr::NoMemory) => Err(NoMemory),
        Err(fault) => Ok(Err(Report::Lex(fault))),
    }
}

/// The unit of a file's tokens, or what is said instead.
fn of_tokens(alloc: Global, front: Front, tokens: &Tokens) -> Result<Result<Unit, Report>, NoMemory>
    ensures says { IfOk result (λ read. TokensSay front tokens.now (plainly read)) }
    ensures sound { IfOk result IsSoundly }
{
    match front {
        Front::Onc => onc_tokens(alloc, tokens),
        Front::Corba => corba_tokens(alloc, tokens),
        Front::Mig => mig_tokens(alloc, tokens),
    }
}

/// What is said of a name that is not resolved.
fn named(error: NameErr) -> Result<Result<Unit, Report>, NoMemory>
    ensures says { IfOk result (λ read. (error.fault ≡ OutOfMemory → ⊥) × (read ≡ Err (reports.Name error))) }
    ensures only { OnErr result (error.fault ≡ OutOfMemory) }
{
    match error.fault {
        NameFault::NoMemory => Err(NoMemory),
        _ => Ok(Err(Report::Name(error))),
    }
}

// ---- files in the ONC RPC language

/// The unit of the tokens of an ONC file, or what is said instead.
fn onc_tokens(alloc: Global, tokens: &Tokens) -> Result<Result<Unit, Report>, NoMemory>
    ensures says { IfOk result (λ read. OncTokensSay tokens.now (plainly read)) }
    ensures sound { IfOk result IsSoundly }
{
    front_onc::files_are_whole();
    match onc_syntax::parse(alloc, tokens) {
        Ok(tree) => onc_tree(alloc, &tree),
        Err(SyntaxErr::NoMemory) => Err(NoMemory),
        Err(SyntaxErr::Syntax(line)) => Ok(Err(Report::Syntax(line))),
    }
}

/// The unit of the tree of an ONC file, or what is said instead.
fn onc_tree(alloc: Global, tree: &onc_syntax::Tree) -> Result<Result<Unit, Report>, NoMemory>
    requires { OncIsWhole tree.now }
    ensures says { IfOk result (λ read. plainly read ≡ in_words (onc_resolved tree.now)) }
    ensures sound { IfOk result IsSoundly }
{
    match front_onc::resolve(alloc, tree) {
        Ok(unit) => Ok(Ok(unit)),
        Err(error) => named(error),
    }
}

// ---- CORBA IDL files

/// The unit of the tokens of a CORBA file, or what is said instead.
fn corba_tokens(alloc: Global, tokens: &Tokens) -> Result<Result<Unit, Report>, NoMemory>
    ensures says { IfOk result (λ read. CorbaTokensSay tokens.now (plainly read)) }
    ensures sound { IfOk result IsSoundly }
{
    front_corba::files_are_whole();
    match corba_syntax::parse(alloc, tokens) {
        Ok(tree) => corba_tree(alloc, &tree),
        Err(SyntaxErr::NoMemory) => Err(NoMemory),
        Err(SyntaxErr::Syntax(line)) => Ok(Err(Report::Syntax(line))),
    }
}

/// The unit of the tree of a CORBA file, or what is said instead.
fn corba_tree(alloc: Global, tree: &corba_syntax::Tree) -> Result<Result<Unit, Report>, NoMemory>
    requires { CorbaIsWhole tree.now }
    ensures says { IfOk result (λ read. plainly read ≡ in_words (corba_resolved tree.now)) }
    ensures sound { IfOk result IsSoundly }
{
    match front_corba::resolve(alloc, tree) {
        Ok(unit) => Ok(Ok(unit)),
        Err(error) => named(error),
    }
}

// ---- MIG files

/// The unit of the tokens of a MIG file, or what is said instead.
fn mig_tokens(alloc: Global, tokens: &Tokens) -> Result<Result<Unit, Report>, NoMemory>
    ensures says { IfOk result (λ read. MigTokensSay tokens.now (plainly read)) }
    ensures sound { IfOk result IsSoundly }
{
    match mig_syntax::parse(alloc, tokens) {
        Ok(tree) => mig_tree(alloc, &tree),
        Err(SyntaxErr::NoMemory) => Err(NoMemory),
        Err(SyntaxErr::Syntax(line)) => Ok(Err(Report::Syntax(line))),
    }
}

/// The unit of the tree of a MIG file, or what is said instead.
fn mig_tree(alloc: Global, tree: &mig_syntax::Tree) -> Result<Result<Unit, Report>, NoMemory>
    ensures says { IfOk result (λ read. plainly read ≡ in_words (mig_resolved tree.now)) }
    ensures sound { IfOk result IsSoundly }
{
    match front_mig::resolve(alloc, tree) {
        Ok(unit) => Ok(Ok(unit)),
        Err(error) => named(error),
    }
}
