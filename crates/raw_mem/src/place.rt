//! Where the octets of a `Vec` lie, and a store there.

ghost use Rattle.std.specs.Prelude.{◌≡◌, ℕ, ◌+◌, ◌≤◌, ◌<◌, length};
ghost use Rattle.std.specs.Vec.{vec_ptr};
ghost use Rattle.kit_base.specs.Bytes.{written};
ghost use Rattle.raw_mem.specs.Places.{IsPlaced};

/// The place where the octets of a `Vec` begin.
pub(crate) fn place_of(home: &mut Vec<u8>) -> *mut u8
    ensures place { (result ≡ vec_ptr home.new) × IsPlaced result }
    ensures same { home.new ≡ home.old }
{
    placed(home);
    home.as_mut_ptr()
}

/// The octets of a `Vec` lie in a block, also where there are none.
fn placed(home: &mut Vec<u8>)
    ensures { IsPlaced (vec_ptr home.old) × (home.new ≡ home.old) }
{}

/// Stores an array over as many octets of a `Vec`, whose octets begin at `start`.
#[inline(always)]
pub(crate) fn store_at<const N: usize>(
    home: &mut Vec<u8>,
    start: *mut u8,
    at: usize,
    octets: [u8; N],
)
    requires { (start ≡ vec_ptr home.old)
        × (IsPlaced start × ((0 < N) × (at + N ≤ length home.old.items))) }
    ensures { (vec_ptr home.new ≡ vec_ptr home.old)
        × (home.new.items ≡ written home.old.items at octets.entry) }
{
    unsafe {
        let place = start.add(at) as *mut [u8; N];
        *place = octets;
    }
}
