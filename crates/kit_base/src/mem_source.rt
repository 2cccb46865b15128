//! Sources in memory.

ghost use Rattle.std.specs.Prelude.{◌≡◌, ◌≤◌, ◌↔◌, [], length, take, drop, min, Some, Ok, IfOk, IsTrue, is_ok, false};
ghost use Rattle.std.specs.Io.{ReadsAtMost};
ghost use Rattle.std.specs.Io.KnownBytes.{ReadConsumes};
ghost use Rattle.kit_base.specs.Causes.{HasCause};
ghost use Rattle.kit_base.specs.Memory.{fails_next, called, fed, fresh};

use crate::plan::Plan;
use crate::{Failed, Octets, Source, Words};
use std::marker::Model;

/// Gives its octets, as many at a time as there is room for, and never fails.
#[derive(Drop)]
pub struct MemSure {
    content: Octets,
    at: usize,
}

impl Model for MemSure {
    ghost use Rattle.std.specs.Prelude.{List, ℕ, ◌≤◌, drop, length};

    ghost Value = { List ℕ };

    ghost view = { λ s. drop s.at s.content };

    ghost invariant = { λ s. s.at ≤ length s.content };
}

impl MemSure {
    fn rest(&self) -> &[u8]
        ensures { result.now ≡ self.now }
    {
        &self.content.as_slice()[self.at..]
    }

    fn pass(&mut self, n: usize)
        requires { n ≤ length self.old }
        ensures { self.new ≡ drop n self.old }
    {
        // The length of a slice fits in a `usize`, so the sum does.
        let _all = self.content.as_slice().len();
        self.at += n;
    }
}

impl Source for MemSure {
    ghost left = { λ s. Some s };

    ghost faults = { λ _. 0 };

    fn read(&mut self, into: &mut [u8]) -> Result<usize, Failed>
        ensures bound { ReadsAtMost result into.new }
        ensures bytes { ReadConsumes (Some self.old) (Some self.new) result into.new }
        ensures cause { HasCause 0 0 result }
        ensures size { result ≡ Ok (min (length self.old) (length into.old)) }
    {
        let count = copy_prefix(self.rest(), into);
        self.pass(count);
        Ok(count)
    }
}

/// Copies the first octets of `from` to the beginning of `into`, as many as both have, and gives
/// their number.
fn copy_prefix(from: &[u8], into: &mut [u8]) -> usize
    ensures count { result ≡ min (length from.now) (length into.old) }
    ensures prefix { take result into.new ≡ take result from.now }
{
    let count = from.len().min(into.len());
    into[..count].copy_from_slice(&from[..count]);
    count
}

/// Gives its octets, at most a given number at a call, and fails at listed calls.
#[derive(Drop)]
pub struct MemSource {
    content: Octets,
    at: usize,
    most: usize,
    plan: Plan,
}

impl Model for MemSource {
    ghost use Rattle.std.specs.Prelude.{◌≤◌, drop, length};
    ghost use Rattle.kit_base.specs.Memory.{Fed};

    ghost Value = { Fed };

    ghost view = { λ s. record { left = drop s.at s.content; most = s.most; plan = s.plan } };

    ghost invariant = { λ s. (s.at ≤ length s.content) × (1 ≤ s.most) };
}

impl MemSource {
    /// A source of this content that gives at most `most` octets at a call, and fails at the calls
    /// whose decimal numbers, from 1, are in `fails`.
    pub fn new(content: Octets, fails: Words, most: usize) -> MemSource
        requires { 1 ≤ most }
        ensures { result ≡ record { left = content; most = most; plan = fresh fails } }
    {
        MemSource {
            content,
            at: 0,
            most,
            plan: Plan::new(fails),
        }
    }

    /// A source of this content that never fails.
    pub fn sure(content: Octets) -> MemSure
        ensures { result ≡ content }
    {
        MemSure { content, at: 0 }
    }

    fn rest(&self) -> &[u8]
        ensures prefix { result.now ≡ take self.now.most self.now.left }
        ensures some { length result.now ≡ 0 → self.now.left ≡ [] }
    {
        let rest = &self.content.as_slice()[self.at..];
        let count = rest.len().min(self.most);
        &rest[..count]
    }

    fn pass(&mut self, n: usize)
        requires { n ≤ length self.old.left }
        ensures { self.new ≡ record self.old { left = drop n self.old.left } }
    {
        let _all = self.content.as_slice().len();
        self.at += n;
    }

    fn fails_now(&mut self) -> bool
        ensures listed { result ≡ fails_next self.old.plan }
        ensures after { self.new ≡ record self.old { plan = called self.old.plan result } }
    {
        self.plan.fails_now()
    }
}

impl Source for MemSource {
    ghost left = { λ s. Some s.left };

    ghost faults = { λ s. s.plan.faults };

    fn read(&mut self, into: &mut [u8]) -> Result<usize, Failed>
        ensures bound { ReadsAtMost result into.new }
        ensures bytes { ReadConsumes (Some self.old.left) (Some self.new.left) result into.new }
        ensures cause { HasCause self.old.plan.faults self.new.plan.faults result }
        ensures plan { IsTrue (is_ok result) ↔ (fails_next self.old.plan ≡ false) }
        ensures size { IfOk result
            (λ n. n ≡ min self.old.most (min (length self.old.left) (length into.old))) }
        ensures after { self.new ≡ fed self.old result }
    {
        if self.fails_now() {
            return Err(Failed);
        }
        let count = copy_prefix(self.rest(), into);
        self.pass(count);
        Ok(count)
    }
}
