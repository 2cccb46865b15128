//! Draws of numbers, lengths and labels, and what a value weighs.

ghost use Rattle.std.specs.Prelude.{◌≡◌, ◌<◌, ◌+◌, ◌*◌, ◌%◌, map, pos, ◌-ℤ◌, length, OnOk, IfErr};
ghost use Rattle.mint.specs.Kinds.{IsInRange, under};
ghost use Rattle.mint.specs.Types.{scalar_of};
ghost use Rattle.mint.specs.Blank.{blank_scalar};
ghost use Rattle.case_make.specs.Draws.{below, drawn_length, drawn_number, drawn_one, next, span};

use crate::maker::{Maker, Stop};
use mint::blank_value::blank_tag;
use mint::kind::{Count, Kind};
use mint::node::{Arms, Labels, Tag};

// The factor and the summand of the generator, which is Knuth's for 64 bits.
const FACTOR: u64 = 6_364_136_223_846_793_005;

const SUMMAND: u64 = 1_442_695_040_888_963_407;

/// A draw is the upper bits of the state.
const LOWER: u64 = 8_589_934_592;

/// How many elements a list of any length has at most.
const LONGEST: u32 = 8;

impl Maker {
    /// Takes a weight from what is left.
    pub(crate) fn weigh(&mut self, n: u64) -> Result<(), Stop>
        ensures ok { OnOk result (self.new.left + n ≡ self.old.left) }
        ensures state { self.new.state ≡ self.old.state }
        ensures err { IfErr result (λ e. (e ≡ Stop.Heavy) × (self.old.left < n)) }
    {
        if u64::from(self.left) < n {
            return Err(Stop::Heavy);
        }
        self.left -= n as u32;
        Ok(())
    }

    /// A number below another.
    pub(crate) fn draw(&mut self, many: u64) -> u64
        requires { 0 < many }
        ensures value { result ≡ below many self.old.state }
        ensures less { result < many }
        ensures state { self.new.state ≡ next self.old.state }
        ensures left { self.new.left ≡ self.old.left }
    {
        self.state = self.state.wrapping_mul(FACTOR).wrapping_add(SUMMAND);
        self.state / LOWER % many
    }

    /// A number of a kind.
    pub(crate) fn number(&mut self, kind: Kind) -> i128
        ensures value { result ≡ (drawn_number kind self.old.state).value }
        ensures ranged { IsInRange kind result }
        ensures state { self.new.state ≡ (drawn_number kind self.old.state).state }
        ensures left { self.new.left ≡ self.old.left }
    {
        shifted(kind, self.draw(span(kind)))
    }

    /// A length that a count allows.
    pub(crate) fn length(&mut self, count: Count) -> u32
        ensures value { result ≡ (drawn_length count self.old.state).value }
        ensures state { self.new.state ≡ (drawn_length count self.old.state).state }
        ensures left { self.new.left ≡ self.old.left }
    {
        match count {
            Count::Exactly(n) => n,
            Count::AtMost(n) => self.draw(u64::from(n.min(LONGEST)) + 1) as u32,
            Count::Any => self.draw(u64::from(LONGEST) + 1) as u32,
        }
    }

    /// One of the labels of an enumeration.
    pub(crate) fn label(&mut self, labels: &Labels) -> i128
        ensures value { result ≡ (drawn_one (pos 0) labels.now self.old.state).value }
        ensures state { self.new.state ≡ (drawn_one (pos 0) labels.now self.old.state).state }
        ensures left { self.new.left ≡ self.old.left }
    {
        if labels.len() == 0 {
            return 0;
        }
        let at = self.draw(labels.len() as u64);
        match labels.get(at as usize) {
            Some(label) => i128::from(*label),
            None => 0,
        }
    }

    /// The number of one of the arms of a union; without arms the blank value of its discriminant.
    pub(crate) fn tag(&mut self, tag: &Tag, arms: &Arms) -> i128
        ensures value { result
            ≡ (drawn_one (blank_scalar (scalar_of tag.now)) (map (λ a. a.0) arms.now) self.old.state).value }
        ensures state { self.new.state
            ≡ (drawn_one (blank_scalar (scalar_of tag.now)) (map (λ a. a.0) arms.now) self.old.state).state }
        ensures left { self.new.left ≡ self.old.left }
    {
        if arms.len() == 0 {
            return blank_tag(tag);
        }
        let at = self.draw(arms.len() as u64);
        match arms.get(at as usize) {
            Some(arm) => arm.0,
            None => blank_tag(tag),
        }
    }
}

/// The number of a kind that is so far above the least one.
fn shifted(kind: Kind, n: u64) -> i128
    ensures { result ≡ pos n -ℤ pos (under kind) }
{
    i128::from(n) - kind.under()
}

/// How many numbers of a kind can be drawn.
#[tactic(auto, unfolding(crate::specs::Draws::span))]
fn span(kind: Kind) -> u64
    ensures value { result ≡ span kind }
    ensures some { 0 < result }
{
    match kind {
        Kind::Octet | Kind::I8 | Kind::U8 | Kind::Char => 256,
        Kind::I16 | Kind::U16 => 65_536,
        Kind::I32 | Kind::U32 | Kind::I64 | Kind::U64 => 2_147_483_648,
        Kind::Bool => 2,
    }
}
