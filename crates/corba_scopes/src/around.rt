//! The scopes around a place.

ghost use Rattle.std.specs.Prelude.{◌≡◌, ◌++◌, IfOk};

use crate::scope::Scope;
use kit_base::{Name, NoMemory};
use std::alloc::Global;

/// A scope around a place.
#[derive(Drop)]
pub(crate) struct Around {
    /// The scope.
    pub(crate) scope: Scope,
    /// Its number.
    pub(crate) place: usize,
}

/// The full name of what is declared in a scope.
pub fn full_name(alloc: Global, scope: &[u8], name: &[u8]) -> Result<Name, NoMemory>
    ensures { IfOk result (λ full. full ≡ scope.now ++ name.now) }
{
    let mut full = Name::with_room(alloc, scope.len().saturating_add(name.len()))?;
    full.append(scope)?;
    full.append(name)?;
    Ok(full)
}
