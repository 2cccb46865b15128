//! Where reading is.

ghost use Rattle.std.specs.Prelude.{◌≡◌, ◌+◌, ◌^◌, ◌<◌, length};

/// A place in a message, and the octets from there on.
#[derive(Clone, Copy)]
pub struct Cursor<'a> {
    /// How many octets are before.
    pub place: usize,
    /// The octets from there on.
    pub rest: &'a [u8],
    ghost within: { place + length rest.now < 2 ^ 64 },
}

impl<'a> Cursor<'a> {
    /// The start of a message.
    pub fn start(message: &'a [u8]) -> Cursor<'a>
        ensures place { result.place ≡ 0 }
        ensures rest { result.rest.now ≡ message.now }
    {
        Cursor {
            place: 0,
            rest: message,
        }
    }
}
