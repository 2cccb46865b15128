//! What the front ends say of a text: whether it has a tree, a unit, a binding.

ghost use Rattle.std.specs.Prelude.{IfOk};
ghost use Rattle.aoi.specs.Sound.{IsSound};

use aoi::{NameErr, NameFault, Unit};
use idl_lex::{Front, LexErr, Tokens, lex};
use kit_base::NoMemory;
use onc_syntax::SyntaxErr;
use pres::{BindErr, Bound, bind};
use std::alloc::Global;
use wire_def::Back;

/// How far a text comes.
#[derive(Clone, Copy)]
pub enum Reached {
    /// It has no tokens or no tree.
    Text,
    /// It has a tree, and a name of it is not resolved.
    Tree,
    /// It has a unit, which is not bound to the back end.
    Unit,
    /// It is bound to the back end.
    Bound,
}

/// The tokens of a text, where it has some.
pub fn tokens_of(alloc: Global, front: Front, text: &[u8]) -> Result<Option<Tokens>, NoMemory> {
    match lex(alloc, front, text) {
        Ok(tokens) => Ok(Some(tokens)),
        Err(LexErr::NoMemory) => Err(NoMemory),
        Err(_) => Ok(None),
    }
}

/// Whether a text has a tree.
pub fn has_tree(alloc: Global, front: Front, text: &[u8]) -> Result<bool, NoMemory> {
    match tokens_of(alloc, front, text)? {
        Some(tokens) => parses(alloc, front, &tokens),
        None => Ok(false),
    }
}

/// Whether tokens have a tree.
fn parses(alloc: Global, front: Front, tokens: &Tokens) -> Result<bool, NoMemory> {
    match front {
        Front::Onc => is_tree(onc_syntax::parse(alloc, tokens).err()),
        Front::Corba => is_tree(corba_syntax::parse(alloc, tokens).err()),
        Front::Mig => is_tree(mig_syntax::parse(alloc, tokens).err()),
    }
}

/// Whether a parser gave a tree.
fn is_tree(error: Option<SyntaxErr>) -> Result<bool, NoMemory> {
    match error {
        None => Ok(true),
        Some(SyntaxErr::Syntax(_)) => Ok(false),
        Some(SyntaxErr::NoMemory) => Err(NoMemory),
    }
}

/// Whether the names of a text are resolved.
pub fn is_resolved(alloc: Global, front: Front, text: &[u8]) -> Result<bool, NoMemory> {
    Ok(unit_of(alloc, front, text)?.is_ok())
}

/// The unit of a text, or how far the text comes.
fn unit_of(alloc: Global, front: Front, text: &[u8]) -> Result<Result<Unit, Reached>, NoMemory>
    ensures { IfOk result (λ read. IfOk read IsSound) }
{
    match tokens_of(alloc, front, text)? {
        Some(tokens) => match front {
            Front::Onc => onc_unit(alloc, &tokens),
            Front::Corba => corba_unit(alloc, &tokens),
            Front::Mig => mig_unit(alloc, &tokens),
        },
        None => Ok(Err(Reached::Text)),
    }
}

fn onc_unit(alloc: Global, tokens: &Tokens) -> Result<Result<Unit, Reached>, NoMemory>
    ensures { IfOk result (λ read. IfOk read IsSound) }
{
    front_onc::files_are_whole();
    match onc_syntax::parse(alloc, tokens) {
        Ok(tree) => resolved(front_onc::resolve(alloc, &tree)),
        Err(error) => unparsed(error),
    }
}

fn corba_unit(alloc: Global, tokens: &Tokens) -> Result<Result<Unit, Reached>, NoMemory>
    ensures { IfOk result (λ read. IfOk read IsSound) }
{
    front_corba::files_are_whole();
    match corba_syntax::parse(alloc, tokens) {
        Ok(tree) => resolved(front_corba::resolve(alloc, &tree)),
        Err(error) => unparsed(error),
    }
}

fn mig_unit(alloc: Global, tokens: &Tokens) -> Result<Result<Unit, Reached>, NoMemory>
    ensures { IfOk result (λ read. IfOk read IsSound) }
{
    match mig_syntax::parse(alloc, tokens) {
        Ok(tree) => resolved(front_mig::resolve(alloc, &tree)),
        Err(error) => unparsed(error),
    }
}

/// What the names of a tree come to.
fn resolved(unit: Result<Unit, NameErr>) -> Result<Result<Unit, Reached>, NoMemory>
    requires { IfOk unit IsSound }
    ensures { IfOk result (λ read. IfOk read IsSound) }
{
    match unit {
        Ok(unit) => Ok(Ok(unit)),
        Err(error) => match error.fault {
            NameFault::NoMemory => Err(NoMemory),
            _ => Ok(Err(Reached::Tree)),
        },
    }
}

/// What tokens without a tree come to.
fn unparsed(error: SyntaxErr) -> Result<Result<Unit, Reached>, NoMemory>
    ensures { IfOk result (λ read. IfOk read IsSound) }
{
    match error {
        SyntaxErr::NoMemory => Err(NoMemory),
        SyntaxErr::Syntax(_) => Ok(Err(Reached::Text)),
    }
}

/// What a text comes to over a back end: how far, and what is bound.
pub fn bound_of(
    alloc: Global,
    front: Front,
    back: Back,
    text: &[u8],
) -> Result<Result<Bound, Reached>, NoMemory> {
    match unit_of(alloc, front, text)? {
        Ok(unit) => bound(alloc, unit, back),
        Err(reached) => Ok(Err(reached)),
    }
}

/// What a unit comes to over a back end.
fn bound(alloc: Global, unit: Unit, back: Back) -> Result<Result<Bound, Reached>, NoMemory>
    requires { IsSound unit }
{
    match bind(alloc, unit, back) {
        Ok(bound) => Ok(Ok(bound)),
        Err(BindErr::NoMemory) => Err(NoMemory),
        Err(_) => Ok(Err(Reached::Unit)),
    }
}

/// How far a text comes over a back end.
pub fn reach_of(alloc: Global, front: Front, back: Back, text: &[u8]) -> Result<Reached, NoMemory> {
    match bound_of(alloc, front, back, text)? {
        Ok(_) => Ok(Reached::Bound),
        Err(reached) => Ok(reached),
    }
}
