//! The lines of gets.

ghost use Rattle.std.specs.Prelude.{codes, OnOk};
ghost use Rattle.stub_print.specs.Putting.{IsPut};
ghost use Rattle.stub_print.specs.RecvText.{get_words, gets_text};
ghost use Rattle.stub_print.specs.Words.{line};

use crate::puts::{put_fixed, put_length, put_scalar};
use cast_stub::{Get, Gets};
use kit_base::{NoMemory, Octets};

/// Puts the line of a get.
fn put_get(out: &mut Octets, get: &Get) -> Result<(), NoMemory>
    ensures { OnOk result (IsPut out.old (line (codes "at") (get_words get.now)) out.new) }
{
    match get {
        Get::Num(off, path, width, order) => put_scalar(out, *off, b"num", path, *width, *order),
        Get::Tag(off, path, width, order) => put_scalar(out, *off, b"tag", path, *width, *order),
        Get::Flag(off, path, width, order) => put_scalar(out, *off, b"flag", path, *width, *order),
        Get::Count(off, path, factor, summand, width, order) => {
            put_length(out, *off, path, *factor, *summand, *width, *order)
        }
        Get::Const(off, octets) => put_fixed(out, *off, octets),
    }
}

/// Puts the lines of gets.
pub(crate) fn put_gets(out: &mut Octets, gets: &Gets) -> Result<(), NoMemory>
    ensures { OnOk result (IsPut out.old (gets_text gets.now) out.new) }
{
    for get in gets.as_slice() {
        put_get(out, get)?;
    }
    Ok(())
}
