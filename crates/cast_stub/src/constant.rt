//! Octets of a constant, of which a long piece is kept once for many constants.

ghost use Rattle.std.specs.Prelude.{◌≡◌, ◌<◌, ◌≤◌, ◌^◌, ◌++◌, true, false, length, drop, take, is_none, IfOk, OnOk};
ghost use Rattle.cast_stub.specs.Around.{around};

use kit_base::{NoMemory, Octets};
use kit_shared::Shared;
use std::alloc::Global;
use std::marker::Model;

/// The octets of the shortest piece that is kept once.
const LONG: usize = 64;

/// Octets that are stored as they are, which contracts see as their list: those of its own, and a long piece that may
/// have more owners, which stands before the own octets from a place on.
#[derive(Drop)]
pub struct Constant {
    own: Octets,
    piece: Option<Shared<Octets>>,
    at: usize,
}

impl Model for Constant {
    ghost use Rattle.std.specs.Prelude.{◌≤◌, List, ℕ, length};
    ghost use Rattle.cast_stub.specs.Around.{around};

    ghost Value = { List ℕ };

    ghost view = { λ c. around c.own c.at c.piece };

    ghost invariant = { λ c. c.at ≤ length c.own };
}

/// Whether a place among octets is none behind a piece, if there is one.
fn stands_before(many: usize, at: usize, piece: &Option<Shared<Octets>>) -> bool
    ensures { result ≡ true → is_none piece.now ≡ false → many ≤ at }
{
    piece.is_none() || many <= at
}

impl Constant {
    /// These octets.
    pub fn of(alloc: Global, octets: Octets) -> Constant
        ensures { result ≡ octets }
    {
        Constant {
            own: octets,
            piece: None,
            at: 0,
        }
    }

    /// The octets in three pieces, of which the last two may be empty.
    #[inline(always)]
    pub fn pieces(&self) -> (&[u8], &[u8], &[u8])
        ensures { self.now ≡ result.0.now ++ (result.1.now ++ result.2.now) }
    {
        let own = self.own.as_slice();
        match &self.piece {
            Some(piece) => (&own[..self.at], piece.as_slice(), &own[self.at..]),
            None => (own, &[], &[]),
        }
    }

    /// How many octets there are.
    pub fn len(&self) -> u128
        ensures value { result ≡ length self.now }
        ensures few { result < 2 ^ 66 }
    {
        let (front, piece, rest) = self.pieces();
        front.len() as u128 + piece.len() as u128 + rest.len() as u128
    }

    /// Appends octets.
    #[tactic(auto, using(crate::proofs::Around::appended))]
    pub fn append(&mut self, octets: &[u8]) -> Result<(), NoMemory>
        ensures { OnOk result (self.new ≡ self.old ++ octets.now) }
    {
        self.own.append(octets)?;
        Ok(())
    }

    /// Appends a piece, of which this is one more owner where it is long and the first such piece.
    #[tactic(auto, using(crate::proofs::Around::at_the_end))]
    pub fn append_shared(&mut self, piece: &Shared<Octets>) -> Result<(), NoMemory>
        ensures { OnOk result (self.new ≡ self.old ++ piece.now) }
    {
        let own = &mut self.piece;
        if piece.len() >= LONG && own.is_none() {
            self.at = self.own.len();
            *own = Some(piece.share()?);
            return Ok(());
        }
        self.append(piece.as_slice())
    }

    /// Appends octets, with a piece between them, if there is one.
    fn append_around(
        &mut self,
        own: &[u8],
        at: usize,
        piece: &Option<Shared<Octets>>,
    ) -> Result<(), NoMemory>
        requires { at ≤ length own.now }
        ensures { OnOk result (self.new ≡ self.old ++ around own.now at piece.now) }
    {
        let Some(piece) = piece else {
            return self.append(own);
        };
        self.append(&own[..at])?;
        self.append_shared(piece)?;
        self.append(&own[at..])
    }

    /// Appends the octets of a constant.
    pub fn append_all(&mut self, other: &Constant) -> Result<(), NoMemory>
        ensures { OnOk result (self.new ≡ self.old ++ other.now) }
    {
        self.append_around(other.own.as_slice(), other.at, &other.piece)
    }

    /// The same octets.
    pub fn copy(&self, alloc: Global) -> Result<Constant, NoMemory>
        ensures { IfOk result (λ c. c ≡ self.now) }
    {
        let mut copy = Constant::of(alloc, Octets::new(alloc));
        copy.append_all(self)?;
        Ok(copy)
    }

    /// The octets as one list.
    fn whole(&self, alloc: Global) -> Result<Octets, NoMemory>
        ensures { IfOk result (λ o. o ≡ self.now) }
    {
        let (front, piece, rest) = self.pieces();
        let mut whole = Octets::from_slice(alloc, front)?;
        whole.append(piece)?;
        whole.append(rest)?;
        Ok(whole)
    }

    /// The first octets.
    pub fn first(&self, alloc: Global, many: usize) -> Result<Octets, NoMemory>
        requires { many ≤ length self.now }
        ensures { IfOk result (λ o. o ≡ take many self.now) }
    {
        let (front, _, _) = self.pieces();
        if many <= front.len() {
            return Octets::from_slice(alloc, &front[..many]);
        }
        let whole = self.whole(alloc)?;
        Octets::from_slice(alloc, &whole.as_slice()[..many])
    }

    /// The octets after the first.
    pub fn after(&self, alloc: Global, many: usize) -> Result<Constant, NoMemory>
        requires { many ≤ length self.now }
        ensures { IfOk result (λ c. c ≡ drop many self.now) }
    {
        if stands_before(many, self.at, &self.piece) {
            let at = self.at.saturating_sub(many);
            let mut after = Constant::of(alloc, Octets::new(alloc));
            after.append_around(&self.own.as_slice()[many..], at, &self.piece)?;
            return Ok(after);
        }
        let whole = self.whole(alloc)?;
        let octets = Octets::from_slice(alloc, &whole.as_slice()[many..])?;
        Ok(Constant::of(alloc, octets))
    }
}
