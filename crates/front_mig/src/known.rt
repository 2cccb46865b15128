//! The types that are known before any declaration.

ghost use Rattle.std.specs.Prelude.{◌≡◌};
ghost use Rattle.idl_names.specs.Names.{meaning_of};
ghost use Rattle.front_mig.specs.Types.{known};

use crate::Meaning;
use idl_names::Use;
use mint::kind::Kind;

/// What a known name stands for.
pub(crate) fn known(name: &[u8]) -> Option<Meaning>
    ensures { result ≡ meaning_of name.now known }
{
    if name == b"char".as_slice() {
        return Some(Meaning::Data(Use::Number(Kind::Char)));
    }
    if name == b"byte".as_slice() {
        return Some(Meaning::Data(Use::Number(Kind::Octet)));
    }
    if name == b"short".as_slice() {
        return Some(Meaning::Data(Use::Number(Kind::I16)));
    }
    if name == b"int".as_slice() {
        return Some(Meaning::Data(Use::Number(Kind::I32)));
    }
    if name == b"unsigned".as_slice() {
        return Some(Meaning::Data(Use::Number(Kind::U32)));
    }
    if name == b"mach_port_t".as_slice() {
        return Some(Meaning::Port);
    }
    if name == b"MACH_MSG_TYPE_CHAR".as_slice() {
        return Some(Meaning::Data(Use::Number(Kind::Char)));
    }
    if name == b"MACH_MSG_TYPE_BYTE".as_slice() {
        return Some(Meaning::Data(Use::Number(Kind::Octet)));
    }
    if name == b"MACH_MSG_TYPE_INTEGER_16".as_slice() {
        return Some(Meaning::Data(Use::Number(Kind::I16)));
    }
    if name == b"MACH_MSG_TYPE_INTEGER_32".as_slice() {
        return Some(Meaning::Data(Use::Number(Kind::I32)));
    }
    if name == b"MACH_MSG_TYPE_COPY_SEND".as_slice() {
        return Some(Meaning::Port);
    }
    None
}
