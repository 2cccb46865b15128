//! Texts and rows of numbers in a body.

use crate::body::{Body, tell_descriptor, tell_end, tell_padding};
use crate::entry::What;
use crate::layout::{after_row, width_of};
use crate::sayings::{place_path, said_of, value_text};
use crate::scalars::element_of;
use crate::sheet::{Halt, Sheet, Told};
use crate::texts::{digits, kind_word, owned, quoted, row_type, text_type};
use head_kit::{Cursor, word};
use kit_base::NoMemory;
use mint::kind::{Count, Kind};
use mint::table::NodeId;
use std::alloc::Global;
use wire_def::descriptors::units_in;
use wire_def::{Encoding, Order};

impl Body<'_> {
    /// A text: what gives its length, its octets, and what follows them.
    pub(crate) fn tell_text(
        &self,
        sheet: &mut Sheet<'_>,
        id: NodeId,
        count: Count,
        path: &str,
    ) -> Told {
        let alloc = sheet.alloc();
        let value = self.row_text(alloc, id, sheet.end())?;
        let n = match self.encoding {
            Encoding::Xdr => self.tell_count(sheet, path)?,
            Encoding::CdrBig | Encoding::CdrLittle => {
                self.tell_count(sheet, path)?.saturating_sub(1)
            }
            Encoding::Mach => tell_described(sheet, Kind::Char, path)?,
        };
        let said = said_of(alloc, What::Value, path, text_type(alloc, count)?, value)?;
        sheet.tell(n, said)?;
        match self.encoding {
            Encoding::CdrBig | Encoding::CdrLittle => tell_end(sheet, path),
            _ => tell_padding(sheet, after_row(self.encoding, Kind::Octet, n), path),
        }
    }

    /// A row of numbers: what gives its length, its elements, and what follows them.
    pub(crate) fn tell_row(
        &self,
        sheet: &mut Sheet<'_>,
        id: NodeId,
        kind: Kind,
        count: Count,
        path: &str,
    ) -> Told {
        let alloc = sheet.alloc();
        let value = self.row_text(alloc, id, sheet.end())?;
        let n = self.tell_row_length(sheet, kind, count, path)?;
        let width = match kind {
            Kind::Octet => 1,
            _ => width_of(self.encoding, kind),
        };
        match kind {
            Kind::Octet | Kind::Char => {
                let said = said_of(
                    alloc,
                    What::Value,
                    path,
                    row_type(alloc, kind, count)?,
                    value,
                )?;
                sheet.tell(n.saturating_mul(width), said)?;
            }
            _ => self.tell_elements(sheet, kind, n, path)?,
        }
        let after = after_row(self.encoding, kind, n.saturating_mul(width));
        tell_padding(sheet, after, path)
    }

    /// What gives the length of a row, where something does, and the length.
    fn tell_row_length(
        &self,
        sheet: &mut Sheet<'_>,
        kind: Kind,
        count: Count,
        path: &str,
    ) -> Result<usize, Halt> {
        match self.encoding {
            Encoding::Mach => tell_described(sheet, kind, path),
            _ => match count {
                Count::Exactly(n) => Ok(n as usize),
                Count::AtMost(_) | Count::Any => self.tell_count(sheet, path),
            },
        }
    }

    /// So many elements of a row, each with its path.
    fn tell_elements(&self, sheet: &mut Sheet<'_>, kind: Kind, n: usize, path: &str) -> Told {
        let width = width_of(self.encoding, kind);
        if n > 0 {
            self.tell_gap(sheet, width, path)?;
        }
        for i in 0..n {
            self.tell_element(sheet, kind, i, path)?;
        }
        Ok(())
    }

    /// An element of a row.
    fn tell_element(&self, sheet: &mut Sheet<'_>, kind: Kind, i: usize, path: &str) -> Told {
        let alloc = sheet.alloc();
        let width = width_of(self.encoding, kind);
        let n = match sheet.rest().get(..width) {
            Some(octets) => element_of(alloc, self.encoding, &self.kinds, kind, octets)?,
            None => None,
        };
        let inner = place_path(alloc, path, i)?;
        let of_type = owned(alloc, kind_word(kind))?;
        let value = value_text(alloc, kind, n)?;
        let said = said_of(alloc, What::Value, inner.as_str(), of_type, value)?;
        sheet.tell(width, said)
    }

    /// The octets or characters of a text or row as JSON, where it is read.
    fn row_text(&self, alloc: Global, id: NodeId, place: usize) -> Result<String, NoMemory> {
        let Some(value) = self.value(alloc, id, place)? else {
            return Ok(String::new(alloc));
        };
        let Some(row) = value.as_row() else {
            return Ok(String::new(alloc));
        };
        match row.kind() {
            Kind::Octet => digits(alloc, row.image()),
            Kind::Char => quoted(alloc, row.image()),
            _ => Ok(String::new(alloc)),
        }
    }
}

/// The descriptor of a text or row, and how many numbers of the kind follow it.
fn tell_described(sheet: &mut Sheet<'_>, kind: Kind, path: &str) -> Result<usize, Halt> {
    let rest = sheet.rest();
    let first = word_in(rest, 0);
    let last = word_in(rest, 8);
    let (width, units) = match first {
        Some(first) if first / 268435456 == 3 => (12, last),
        Some(first) => (4, Some(first / 65536 % 4096)),
        None => (4, None),
    };
    tell_descriptor(sheet, width, path)?;
    match units {
        Some(units) => Ok(numbers_in(kind, units)),
        None => Err(sheet.fault()),
    }
}

/// How many numbers of a kind so many units are.
fn numbers_in(kind: Kind, units: u32) -> usize {
    match units_in(kind) {
        2 => units as usize / 2,
        _ => units as usize,
    }
}

/// The word at a place among octets, the least significant octet first, where it is there.
fn word_in(octets: &[u8], place: usize) -> Option<u32> {
    let rest = octets.get(place..)?;
    match word(Order::Little, Cursor { place: 0, rest }) {
        Ok((n, _)) => Some(n),
        Err(_) => None,
    }
}
