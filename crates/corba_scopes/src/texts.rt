//! Texts by their numbers.

ghost use Rattle.std.specs.Prelude.{◌≡◌, [], None, IfOk};
ghost use Rattle.corba_scopes.specs.Parted.{number_of, Puts};

use indexmap::IndexSet;
use kit_base::NoMemory;
use std::alloc::Global;
use std::marker::Model;

/// Texts, each once, in the order of their numbers.
#[derive(Drop)]
pub(crate) struct Texts {
    set: IndexSet<Vec<u8>>,
}

impl Model for Texts {
    ghost use Rattle.std.specs.Prelude.{List, ℕ, map};
    ghost use Rattle.std.specs.Coded.{codes};

    ghost Value = { List (List ℕ) };

    ghost view = { λ s. map (λ k. k.items) s.set.keys };
}

impl Texts {
    /// No texts.
    pub(crate) fn new(alloc: Global) -> Texts
        ensures { result ≡ [] }
    {
        Texts {
            set: IndexSet::new(alloc),
        }
    }

    /// The number of a text, if it is one of these.
    pub(crate) fn number(&self, text: &[u8]) -> Option<usize>
        ensures { result ≡ number_of text.now self.now }
    {
        self.set.get_index_of(text)
    }

    /// These and a text that is none of them, which has the next number.
    fn extended(self, alloc: Global, text: &[u8]) -> Result<(Texts, usize), NoMemory>
        requires { number_of text.now self ≡ None }
        ensures { IfOk result (λ r. Puts text.now self r.0 r.1) }
    {
        let Texts { mut set } = self;
        let last = set.len();
        set.insert(Vec::from_slice(alloc, text)?)?;
        Ok((Texts { set }, last))
    }

    /// These with a text among them, and its number.
    pub(crate) fn with(self, alloc: Global, text: &[u8]) -> Result<(Texts, usize), NoMemory>
        ensures { IfOk result (λ r. Puts text.now self r.0 r.1) }
    {
        match self.number(text) {
            Some(number) => Ok((self, number)),
            None => self.extended(alloc, text),
        }
    }
}
