//! The descriptors of Mach messages, which give a length.

ghost use Rattle.std.specs.Prelude.{◌≡◌, ◌≤◌};
ghost use Rattle.cast_stub.specs.Into.{desc_into, long_into, short_into, units_into};
ghost use Rattle.cast_stub.specs.Runs.{Holds};
ghost use Rattle.stub_receiver.specs.Drawn.{drawn};
ghost use Rattle.stub_receiver.specs.Ran.{place_of, Tested};

use crate::draft::Filling;
use crate::gets::count_into;
use mint::table::Mint;
use raw_buf::RecvView;
use wire_def::Order;

/// A descriptor in either form, with this name and size; its number of units is this multiple of the
/// length.
pub fn desc_into(
    mint: &Mint,
    name: u32,
    size: u32,
    mul: u32,
    part: &mut Filling,
    view: &mut RecvView<'_>,
) -> bool
    requires { Holds (desc_into name size mul (drawn mint.now part.old) (place_of view.old)) }
    ensures done { Tested result (drawn mint.now part.new) (place_of view.new)
        (desc_into name size mul (drawn mint.now part.old) (place_of view.old)) }
    ensures octets { view.new.octets ≡ view.old.octets }
{
    if !view.need(4) {
        return false;
    }
    let first = view.load(0, 4, Order::Little);
    match first / 268_435_456 {
        3 => long_into(mint, name, size, mul, part, view),
        1 => short_into(mint, name, size, mul, first, part, view),
        _ => false,
    }
}

/// The short form: name, size and number in the first word.
fn short_into(
    mint: &Mint,
    name: u32,
    size: u32,
    mul: u32,
    first: u64,
    part: &mut Filling,
    view: &mut RecvView<'_>,
) -> bool
    requires near { 4 ≤ view.old.near }
    requires holds { Holds (short_into name size mul first (drawn mint.now part.old) (place_of view.old)) }
    ensures done { Tested result (drawn mint.now part.new) (place_of view.new)
        (short_into name size mul first (drawn mint.now part.old) (place_of view.old)) }
    ensures octets { view.new.octets ≡ view.old.octets }
{
    let right = first % 256 == u64::from(name) && first / 256 % 256 == u64::from(size);
    units_into(mint, right, mul, first / 65536 % 4096, 4, part, view)
}

/// The long form: name and size in two octets each after the first word, and the number in four.
fn long_into(
    mint: &Mint,
    name: u32,
    size: u32,
    mul: u32,
    part: &mut Filling,
    view: &mut RecvView<'_>,
) -> bool
    requires { Holds (long_into name size mul (drawn mint.now part.old) (place_of view.old)) }
    ensures done { Tested result (drawn mint.now part.new) (place_of view.new)
        (long_into name size mul (drawn mint.now part.old) (place_of view.old)) }
    ensures octets { view.new.octets ≡ view.old.octets }
{
    if !view.need(12) {
        return false;
    }
    let there = view.load(4, 2, Order::Little);
    let bits = view.load(6, 2, Order::Little);
    let many = view.load(8, 4, Order::Little);
    let right = there == u64::from(name) && bits == u64::from(size);
    units_into(mint, right, mul, many, 12, part, view)
}

/// The length of so many units, where name and size are as expected; so many octets are passed.
fn units_into(
    mint: &Mint,
    right: bool,
    mul: u32,
    many: u64,
    n: usize,
    part: &mut Filling,
    view: &mut RecvView<'_>,
) -> bool
    requires near { n ≤ view.old.near }
    requires holds { Holds (units_into right mul many n (drawn mint.now part.old) (place_of view.old)) }
    ensures done { Tested result (drawn mint.now part.new) (place_of view.new)
        (units_into right mul many n (drawn mint.now part.old) (place_of view.old)) }
    ensures octets { view.new.octets ≡ view.old.octets }
{
    if !right {
        return false;
    }
    if !count_into(mint, mul, 0, many, part, view) {
        return false;
    }
    view.take(n);
    true
}
