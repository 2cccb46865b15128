//! Octets that are passed up to a multiple.

ghost use Rattle.std.specs.Prelude.{◌≡◌, ◌<◌, take};
ghost use Rattle.cast_stub.specs.Steps.{is_width};
ghost use Rattle.cast_stub.specs.Into.{skipped, all_zero};
ghost use Rattle.stub_receiver.specs.Drawn.{drawn, any_octets};
ghost use Rattle.stub_receiver.specs.Ran.{place_of, Tested};

use crate::draft::Filling;
use mint::table::Mint;
use raw_buf::RecvView;

/// Whether it is a number that positions are multiples of.
fn is_multiple(a: u32) -> bool
    ensures { result ≡ is_width a }
{
    a == 1 || a == 2 || a == 4 || a == 8
}

/// Whether octets are all 0.
#[tactic(auto, using(crate::proofs::Skipping::zeros))]
fn are_zeros(octets: &[u8]) -> bool
    ensures { result ≡ all_zero octets.now }
{
    for octet in octets {
        if *octet != 0 {
            return false;
        }
    }
    true
}

/// Octets up to a multiple, whatever they are.
pub fn skip_any(mint: &Mint, a: u32, draft: &Filling, view: &mut RecvView<'_>) -> bool
    ensures done { Tested result (drawn mint.now draft.now) (place_of view.new)
        (skipped any_octets a (drawn mint.now draft.now) (place_of view.old)) }
    ensures octets { view.new.octets ≡ view.old.octets }
{
    if !is_multiple(a) {
        return false;
    }
    let a = a as usize;
    let k = (a - view.pos() % a) % a;
    if !view.need(k) {
        return false;
    }
    view.take(k);
    true
}

/// Octets up to a multiple, which are 0.
pub fn skip_zero(mint: &Mint, a: u32, draft: &Filling, view: &mut RecvView<'_>) -> bool
    ensures done { Tested result (drawn mint.now draft.now) (place_of view.new)
        (skipped all_zero a (drawn mint.now draft.now) (place_of view.old)) }
    ensures octets { view.new.octets ≡ view.old.octets }
{
    if !is_multiple(a) {
        return false;
    }
    let a = a as usize;
    let k = (a - view.pos() % a) % a;
    if !view.need(k) {
        return false;
    }
    if !are_zeros(&view.rest()[..k]) {
        return false;
    }
    view.take(k);
    true
}
