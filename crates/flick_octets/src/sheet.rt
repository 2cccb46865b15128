//! The entries of a message, one after the other.

ghost use Rattle.std.specs.Prelude.{◌≡◌, ◌≤◌, [], Some, IfOk, OnOk};
ghost use Rattle.flick_octets.specs.Laid.{laid};

use crate::entry::{Entry, Said, What};
use kit_base::NoMemory;
use std::alloc::Global;
use std::marker::Model;

/// Why nothing more is said.
#[derive(Drop)]
pub(crate) enum Halt {
    /// Out of memory.
    NoMemory,
    /// The fault is at this place, or the limit is reached.
    At(usize),
}

/// What telling octets comes to.
pub(crate) type Told = Result<(), Halt>;

impl From<NoMemory> for Halt {
    fn from(_refused: NoMemory) -> Halt {
        Halt::NoMemory
    }
}

/// The entries of a message so far: from octet 0 on, each where the one before ends.
#[derive(Drop)]
pub(crate) struct Sheet<'m> {
    alloc: Global,
    message: &'m [u8],
    limit: usize,
    entries: Vec<Entry>,
    end: usize,
}

impl<'m> Model for Sheet<'m> {
    ghost use Rattle.std.specs.Prelude.{◌≡◌, Some};
    ghost use Rattle.flick_octets.specs.Laid.{Lines, laid};

    ghost Value = { Lines };

    ghost view = { λ s. record { entries = s.entries.items; end = s.end } };

    ghost invariant = { λ s. laid 0 s.entries.items ≡ Some s.end };
}

impl<'m> Sheet<'m> {
    /// No entries of a message, whose octets from a limit on are not told.
    pub(crate) fn new(alloc: Global, message: &'m [u8], limit: usize) -> Sheet<'m>
        ensures { result ≡ record { entries = []; end = 0 } }
    {
        Sheet {
            alloc,
            message,
            limit,
            entries: Vec::new(alloc),
            end: 0,
        }
    }

    /// The allocator.
    pub(crate) fn alloc(&self) -> Global {
        self.alloc
    }

    /// Where the entries end.
    pub(crate) fn end(&self) -> usize
        ensures { result ≡ self.now.end }
    {
        self.end
    }

    /// The number of the message's octets.
    pub(crate) fn total(&self) -> usize {
        self.message.len()
    }

    /// The octets that nothing is said of yet.
    pub(crate) fn rest(&self) -> &'m [u8] {
        match self.message.get(self.end..) {
            Some(rest) => rest,
            None => &[],
        }
    }

    /// Sets another limit.
    pub(crate) fn set_limit(&mut self, limit: usize) {
        self.limit = limit;
    }

    /// The fault is at the next octet.
    pub(crate) fn fault(&self) -> Halt {
        Halt::At(self.end)
    }

    /// Says of the octets up to a place what they are.
    fn put(&mut self, end: usize, said: Said) -> Result<(), NoMemory>
        requires { self.old.end ≤ end }
        ensures { OnOk result (self.new.end ≡ end) }
    {
        let Said {
            what,
            path,
            of_type,
            value,
        } = said;
        self.entries.push(Entry {
            first: self.end,
            end,
            what,
            path,
            of_type,
            value,
        })?;
        self.end = end;
        Ok(())
    }

    /// Says of the next octets what they are. Those past the limit are left out, and no value is said then.
    pub(crate) fn tell(&mut self, n: usize, said: Said) -> Told {
        let left = self.limit.saturating_sub(self.end);
        if n <= left {
            self.put(self.end + n, said)?;
            return Ok(());
        }
        if left > 0 {
            self.put(self.end + left, said.without_value(self.alloc))?;
        }
        Err(self.fault())
    }

    /// The entries up to a place. Octets before it that nothing is said of are one entry more; entries that go
    /// beyond it are left out.
    pub(crate) fn closed(self, to: usize) -> Result<Vec<Entry>, NoMemory>
        ensures { IfOk result (λ es. laid 0 es.items ≡ Some to) }
    {
        let mut sheet = if self.end > to {
            Sheet::new(self.alloc, self.message, to)
        } else {
            self
        };
        if sheet.end < to {
            let nothing = Said::nothing(sheet.alloc);
            sheet.put(to, nothing)?;
        }
        Ok(sheet.entries)
    }
}

impl Said {
    /// The same without the value.
    fn without_value(self, alloc: Global) -> Said {
        let Said {
            what,
            path,
            of_type,
            value: _value,
        } = self;
        Said {
            what,
            path,
            of_type,
            value: String::new(alloc),
        }
    }

    /// That nothing is said.
    fn nothing(alloc: Global) -> Said {
        Said {
            what: What::Rest,
            path: String::new(alloc),
            of_type: String::new(alloc),
            value: String::new(alloc),
        }
    }
}
