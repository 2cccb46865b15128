//! The gets of a take, one after the other.

ghost use Rattle.std.specs.Prelude.{◌≡◌, ◌<◌, ◌≤◌, ◌+◌, ◌^◌, length, slice_index, true, false, None, take, drop};
ghost use Rattle.wire_def.specs.Orders.{IsWidth, width_in, width_as};
ghost use Rattle.cast_stub.specs.Fill.{at_field, within, into, word_got, got, all_got};
ghost use Rattle.cast_stub.specs.Into.{passed, same_octets};
ghost use Rattle.cast_stub.specs.Runs.{Holds, then_run};
ghost use Rattle.stub_receiver.specs.Drawn.{drawn, all_drawn};
ghost use Rattle.stub_receiver.specs.Ran.{place_of, Tested};

use crate::draft::{Filling, Fillings};
use crate::gets::into;
use cast_stub::{Get, Gets, Path};
use kit_base::Octets;
use mint::table::Mint;
use raw_buf::RecvView;
use wire_def::Order;

/// Whether a number may be so many octets wide.
pub fn is_width(width: u32) -> bool
    ensures yes { (result ≡ true) → IsWidth width }
    ensures no { (result ≡ false) → width_in width ≡ None }
{
    matches!(width, 1 | 2 | 4 | 8)
}

/// A number that was taken is put into the part at a path, from a place of the path on.
#[cycle(putting)]
#[tactic(auto, using(crate::proofs::Putting::putting))]
fn put_word(
    mint: &Mint,
    get: &Get,
    width: u32,
    m: u64,
    draft: &mut Filling,
    path: &[u32],
    from: usize,
    view: &RecvView<'_>,
) -> bool
    requires fits { m < 256 ^ width }
    requires length { from ≤ length path.now }
    requires holds { Holds (within (drop from path.now) (into get.now (width_as width) m)
        (drawn mint.now draft.old) (place_of view.now)) }
    ensures { Tested result (drawn mint.now draft.new) (place_of view.now)
        (within (drop from path.now) (into get.now (width_as width) m)
        (drawn mint.now draft.old) (place_of view.now)) }
{
    if from == path.len() {
        return into(mint, get, width, m, draft, view);
    }
    match draft {
        Filling::Raw(_) => unreachable!(),
        Filling::Digit(_) => unreachable!(),
        Filling::Listed(_, _) => unreachable!(),
        Filling::Lined(_, _) => unreachable!(),
        Filling::Tagged(_, _) => unreachable!(),
        Filling::Flagged(_) => unreachable!(),
        Filling::Done(_) => unreachable!(),
        Filling::Fields(fields) => put_in(mint, get, width, m, fields, path, from, view),
    }
}

/// The same in the fields of a struct.
#[cycle(putting)]
#[tactic(auto, using(crate::proofs::Putting::putting))]
fn put_in(
    mint: &Mint,
    get: &Get,
    width: u32,
    m: u64,
    fields: &mut Fillings,
    path: &[u32],
    from: usize,
    view: &RecvView<'_>,
) -> bool
    requires fits { m < 256 ^ width }
    requires length { from < length path.now }
    requires holds { Holds (at_field (slice_index path.now from)
        (within (drop (from + 1) path.now) (into get.now (width_as width) m))
        (all_drawn mint.now fields.old.items) (place_of view.now)) }
    ensures { Tested result (all_drawn mint.now fields.new.items) (place_of view.now)
        (at_field (slice_index path.now from)
        (within (drop (from + 1) path.now) (into get.now (width_as width) m))
        (all_drawn mint.now fields.old.items) (place_of view.now)) }
{
    let at = path[from] as usize;
    put_word(mint, get, width, m, &mut fields[at], path, from + 1, view)
}

/// A number is taken at an offset, for the part at a path.
fn run_word(
    mint: &Mint,
    get: &Get,
    off: u32,
    path: &Path,
    width: u32,
    order: Order,
    draft: &mut Filling,
    view: &RecvView<'_>,
) -> bool
    requires { Holds
        (word_got get.now off path.now width order (drawn mint.now draft.old) (place_of view.now)) }
    ensures { Tested result (drawn mint.now draft.new) (place_of view.now)
        (word_got get.now off path.now width order (drawn mint.now draft.old) (place_of view.now)) }
{
    if !is_width(width) {
        return false;
    }
    let path = path.as_slice();
    let m = view.load(off as usize, width as usize, order);
    put_word(mint, get, width, m, draft, path, 0, view)
}

/// Whether the octets at an offset are these.
#[tactic(auto, using(crate::proofs::Within::octets))]
pub fn run_const(off: u32, octets: &Octets, view: &RecvView<'_>) -> bool
    requires { off + length octets.now ≤ view.now.near }
    ensures { result
        ≡ same_octets octets.now (take (length octets.now) (drop off (drop view.now.pos view.now.octets))) }
{
    let off = off as usize;
    octets.as_slice() == &view.rest()[off..off + octets.len()]
}

/// One get.
#[tactic(auto, using(crate::proofs::Within::constants))]
fn run_get(mint: &Mint, get: &Get, draft: &mut Filling, view: &RecvView<'_>) -> bool
    requires { Holds (got get.now (drawn mint.now draft.old) (place_of view.now)) }
    ensures { Tested result (drawn mint.now draft.new) (place_of view.now)
        (got get.now (drawn mint.now draft.old) (place_of view.now)) }
{
    match get {
        Get::Num(off, path, width, order) => {
            run_word(mint, get, *off, path, *width, *order, draft, view)
        }
        Get::Tag(off, path, width, order) => {
            run_word(mint, get, *off, path, *width, *order, draft, view)
        }
        Get::Flag(off, path, width, order) => {
            run_word(mint, get, *off, path, *width, *order, draft, view)
        }
        Get::Count(off, path, _, _, width, order) => {
            run_word(mint, get, *off, path, *width, *order, draft, view)
        }
        Get::Const(off, octets) => run_const(*off, octets, view),
    }
}

/// The gets of a take, one after the other.
fn run_gets(mint: &Mint, gets: &Gets, draft: &mut Filling, view: &RecvView<'_>) -> bool
    requires { Holds (all_got gets.now (drawn mint.now draft.old) (place_of view.now)) }
    ensures { Tested result (drawn mint.now draft.new) (place_of view.now)
        (all_got gets.now (drawn mint.now draft.old) (place_of view.now)) }
{
    for get in gets.as_slice() {
        if !run_get(mint, get, draft, view) {
            return false;
        }
    }
    true
}

/// The gets of a take, and then so many octets are passed.
pub fn run_take(
    mint: &Mint,
    n: u32,
    gets: &Gets,
    draft: &mut Filling,
    view: &mut RecvView<'_>,
) -> bool
    requires { Holds (then_run (all_got gets.now (drawn mint.now draft.old) (place_of view.old)) (passed n)) }
    ensures done { Tested result (drawn mint.now draft.new) (place_of view.new)
        (then_run (all_got gets.now (drawn mint.now draft.old) (place_of view.old)) (passed n)) }
    ensures octets { view.new.octets ≡ view.old.octets }
{
    if !run_gets(mint, gets, draft, view) {
        return false;
    }
    view.take(n as usize);
    true
}
