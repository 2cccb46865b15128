//! Full names, of which a prefix is kept once.

ghost use Rattle.std.specs.Prelude.{◌≡◌, ◌++◌, length, nat_lt, IfOk};
ghost use Rattle.std.specs.Option.{option_copied};
ghost use Rattle.std.specs.Str.{bytes_eq};
ghost use Rattle.aoi.specs.FullNames.{full_name};

use kit_base::{Listed, Name, NoMemory};
use kit_shared::Shared;
use std::alloc::Global;
use std::marker::Model;

/// A full name: a prefix, which may be that of many names and is kept once for them, and its own part after it.
/// Contracts see the list of its octets.
#[derive(Debug, Drop)]
pub struct FullName {
    prefix: Option<Shared<Name>>,
    own: Name,
}

impl Model for FullName {
    ghost use Rattle.std.specs.Prelude.{List, ℕ};
    ghost use Rattle.aoi.specs.FullNames.{full_name};

    ghost Value = { List ℕ };

    ghost view = { λ n. full_name n.prefix n.own };
}

impl FullName {
    /// A name without a prefix.
    pub fn of(own: Name) -> FullName
        ensures { result ≡ own }
    {
        FullName { prefix: None, own }
    }

    /// The name of a prefix and an own part, with the prefix as its one more owner.
    pub fn after(alloc: Global, prefix: &Shared<Name>, own: &[u8]) -> Result<FullName, NoMemory>
        ensures { IfOk result (λ full. full ≡ prefix.now ++ own.now) }
    {
        Ok(FullName {
            prefix: Some(prefix.share()?),
            own: Name::from_slice(alloc, own)?,
        })
    }

    /// The prefix, where there is one, and the own part.
    pub fn pieces(&self) -> (Option<&Shared<Name>>, &[u8])
        ensures { self.now ≡ full_name (option_copied result.0) result.1.now }
    {
        (self.prefix.as_ref(), self.own.as_slice())
    }

    /// The prefix, which may be empty, and the own part.
    pub fn parts(&self) -> (&[u8], &[u8])
        ensures { self.now ≡ result.0.now ++ result.1.now }
    {
        let own = self.own.as_slice();
        match &self.prefix {
            Some(prefix) => (prefix.get().as_slice(), own),
            None => (&[], own),
        }
    }

    /// Whether it has more octets than so many.
    pub fn is_longer(&self, most: usize) -> bool
        ensures { result ≡ nat_lt most (length self.now) }
    {
        let (prefix, own) = self.parts();
        prefix.len() > most || own.len() > most - prefix.len()
    }

    /// Whether these are its octets.
    #[tactic(auto, using(crate::proofs::FullNames::same_after, crate::proofs::FullNames::differs_before))]
    pub fn is(&self, text: &[u8]) -> bool
        ensures { result ≡ bytes_eq text.now self.now }
    {
        let (prefix, own) = self.parts();
        match text.strip_prefix(prefix) {
            Some(rest) => rest == own,
            None => false,
        }
    }

    /// Its octets as one list.
    pub fn whole(&self, alloc: Global) -> Result<Name, NoMemory>
        ensures { IfOk result (λ whole. whole ≡ self.now) }
    {
        let (prefix, own) = self.parts();
        let mut whole = Name::with_room(alloc, prefix.len().saturating_add(own.len()))?;
        whole.append(prefix)?;
        whole.append(own)?;
        Ok(whole)
    }
}

/// Full names, each of which may have more owners.
pub type FullNames = Listed<Shared<FullName>>;
