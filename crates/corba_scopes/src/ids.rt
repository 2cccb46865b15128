//! Repository ids.

ghost use Rattle.std.specs.Prelude.{◌≡◌, ◌++◌, map, IfOk, OnOk};
ghost use Rattle.corba_scopes.specs.Around.{slashed, ids_of};

use kit_base::{Name, NoMemory};
use std::alloc::Global;

/// An octet, but a slash in the place of a dot.
fn slashed(c: u8) -> u8
    ensures { result ≡ slashed c }
{
    if c == b'.' { b'/' } else { c }
}

/// Puts a part of a full name at the end of an id, with slashes in the place of its dots.
pub(crate) fn add_slashed(id: &mut Name, part: &[u8]) -> Result<(), NoMemory>
    ensures { OnOk result (id.new ≡ id.old ++ map slashed part.now) }
{
    for c in part {
        id.push(slashed(*c))?;
    }
    Ok(())
}

/// The prefix of the repository ids of a scope's exceptions.
pub(crate) fn ids_of(alloc: Global, scope: &[u8]) -> Result<Name, NoMemory>
    ensures { IfOk result (λ ids. ids ≡ ids_of scope.now) }
{
    let mut ids = Name::from_slice(alloc, b"IDL:")?;
    add_slashed(&mut ids, scope)?;
    Ok(ids)
}
