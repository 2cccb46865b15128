//! The formats of messages, and the words that name them.

ghost use Rattle.std.specs.Prelude.{◌≡◌};
ghost use Rattle.flick_engine.specs.Backs as backs;

use wire_def::Back;

/// A format of messages: a back end, and the version of its heads.
#[derive(Clone, Copy, Debug, PartialEq, Eq)]
pub enum Wire {
    /// The messages of ONC RPC.
    Xdr,
    /// Those of GIOP 1.0, the most significant octet first.
    CdrBig,
    /// Those of GIOP 1.0, the least significant octet first.
    CdrLittle,
    /// Those of GIOP 1.2, the most significant octet first.
    Cdr12Big,
    /// Those of GIOP 1.2, the least significant octet first.
    Cdr12Little,
    /// The messages of Mach 3.
    Mach,
}

impl Wire {
    /// The back end.
    pub fn back(self) -> Back
        ensures { result ≡ backs.back_in self }
    {
        match self {
            Wire::Xdr => Back::Xdr,
            Wire::CdrBig | Wire::Cdr12Big => Back::CdrBig,
            Wire::CdrLittle | Wire::Cdr12Little => Back::CdrLittle,
            Wire::Mach => Back::Mach,
        }
    }

    /// The version of its messages, by the minor number.
    pub fn minor(self) -> u8
        ensures value { result ≡ backs.minor_in self }
        ensures is { backs.IsMinorOver (backs.back_in self) result }
    {
        match self {
            Wire::Cdr12Big | Wire::Cdr12Little => 2,
            Wire::Xdr | Wire::CdrBig | Wire::CdrLittle | Wire::Mach => 0,
        }
    }
}

/// The format that a word names, if it names one.
pub fn wire_of(word: &[u8]) -> Option<Wire>
    ensures { result ≡ backs.wire_of word.now }
{
    if word == b"xdr".as_slice() {
        return Some(Wire::Xdr);
    }
    if word == b"cdr-be".as_slice() {
        return Some(Wire::CdrBig);
    }
    if word == b"cdr-le".as_slice() {
        return Some(Wire::CdrLittle);
    }
    if word == b"cdr12-be".as_slice() {
        return Some(Wire::Cdr12Big);
    }
    if word == b"cdr12-le".as_slice() {
        return Some(Wire::Cdr12Little);
    }
    if word == b"mach".as_slice() {
        return Some(Wire::Mach);
    }
    None
}
