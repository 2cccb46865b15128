//! A message that is read.

ghost use Rattle.std.specs.Prelude.{◌≡◌, ◌≤◌, ◌+◌, ◌-◌, ◌*◌, ◌%◌, ◌≢◌, ◌<◌, ◌^◌, ◌++◌, OnOk, OnErr, IfOk, length, drop, take, max, nat_lt, not, if◌then◌else◌};
ghost use Rattle.kit_base.specs.Causes.{raised};
ghost use Rattle.mint.specs.Kinds.{width};
ghost use Rattle.mint.specs.Row.{numbers_of};
ghost use Rattle.kit_swap.specs.Swapped.{swapped, IsSwapWidth};
ghost use Rattle.wire_def.specs.Orders.{IsWidth, width_in};
ghost use Rattle.raw_buf.specs.View.{loaded_of, in_little};

use kit_base::NoMemory;
use kit_swap::swap_numbers;
use mint::kind::Kind;
use mint::row::Row;
use raw_mem::RawView;
use std::alloc::Global;
use std::marker::Model;
use wire_def::Order;

/// A message, and the place where reading is.
#[derive(Drop)]
pub struct RecvView<'a> {
    octets: RawView<'a>,
    pos: usize,
    near: usize,
    tests: u64,
}

impl<'a> Model for RecvView<'a> {
    ghost use Rattle.std.specs.Prelude.{◌≤◌, ◌<◌, ◌^◌, ◌+◌, length};
    ghost use Rattle.raw_buf.specs.View.{View};

    ghost Value = { View };

    ghost view = { λ v. record { octets = v.octets; pos = v.pos; near = v.near; tests = v.tests } };

    ghost invariant = { λ v. (v.pos + v.near ≤ length v.octets) × (length v.octets < 2 ^ 63) };
}

impl<'a> RecvView<'a> {
    /// A message of which nothing is read or tested.
    pub fn new(octets: &'a [u8]) -> RecvView<'a>
        ensures { result ≡ record { octets = octets.now; pos = 0; near = 0; tests = 0 } }
    {
        RecvView {
            octets: RawView::new(octets),
            pos: 0,
            near: 0,
            tests: 0,
        }
    }

    /// The place of the next octet.
    pub fn pos(&self) -> usize
        ensures value { result ≡ self.now.pos }
        ensures within { self.now.pos ≤ length self.now.octets }
    {
        self.pos
    }

    /// How many tests there were of whether octets are there.
    pub fn tests(&self) -> u64
        ensures { result ≡ self.now.tests }
    {
        self.tests
    }

    /// The octets that are left.
    pub fn rest(&self) -> &'a [u8]
        ensures value { result.now ≡ drop self.now.pos self.now.octets }
        ensures near { self.now.near ≤ length result.now }
    {
        let count = self.octets.len() - self.pos;
        self.octets.octets(self.pos, count)
    }

    /// Whether n octets follow, which then are known to be there. It counts a test.
    pub fn need(&mut self, n: usize) -> bool
        ensures answer { result ≡ not (nat_lt (length (drop self.old.pos self.old.octets)) n) }
        ensures near { self.new.near ≡ (if result then max n self.old.near else self.old.near) }
        ensures tests { self.new.tests ≡ raised self.old.tests 1 }
        ensures pos { self.new.pos ≡ self.old.pos }
        ensures octets { self.new.octets ≡ self.old.octets }
    {
        self.tests = self.tests.saturating_add(1);
        if self.octets.len() - self.pos < n {
            return false;
        }
        if n > self.near {
            self.near = n;
        }
        true
    }

    /// The number that `width` octets hold at an offset from the place of the next octet. They are
    /// known to be there.
    pub fn load(&self, off: usize, width: usize, order: Order) -> u64
        requires width { IsWidth width }
        requires near { off + width ≤ self.now.near }
        ensures value { result
            ≡ loaded_of order (width_in width) (take width (drop off (drop self.now.pos self.now.octets))) }
        ensures fits { result < 256 ^ width }
    {
        read_word(&self.octets, self.pos + off, width, order)
    }

    /// Passes n octets that are known to be there.
    pub fn take(&mut self, n: usize)
        requires { n ≤ self.old.near }
        ensures pos { self.new.pos ≡ self.old.pos + n }
        ensures near { self.new.near ≡ self.old.near - n }
        ensures tests { self.new.tests ≡ self.old.tests }
        ensures octets { self.new.octets ≡ self.old.octets }
    {
        self.pos += n;
        self.near -= n;
    }

    /// The row of so many numbers in an order, whose octets are known to be there and are passed.
    pub fn row(
        &mut self,
        alloc: Global,
        kind: Kind,
        count: usize,
        order: Order,
    ) -> Result<Row, NoMemory>
        // What is read.
        requires kind { kind ≢ Kind.Bool }
        requires near { count * width kind ≤ self.old.near }
        // What was read.
        ensures row { IfOk result (λ r. r ≡ record {
          kind = kind;
          numbers = numbers_of kind
              (in_little order (width kind) (take (count * width kind) (drop self.old.pos self.old.octets)));
        }) }
        ensures pos { OnOk result (self.new.pos ≡ self.old.pos + count * width kind) }
        ensures near { OnOk result (self.new.near ≡ self.old.near - count * width kind) }
        ensures tests { OnOk result (self.new.tests ≡ self.old.tests) }
        // What the view is then.
        ensures octets { OnOk result (self.new.octets ≡ self.old.octets) }
        ensures err { OnErr result (self.new ≡ self.old) }
    {
        let rest = self.rest();
        let size = count * kind.width();
        let row = row_of(alloc, kind, &rest[..size], order)?;
        self.take(size);
        Ok(row)
    }
}

// The row of the numbers of an image in an order.
fn row_of(alloc: Global, kind: Kind, image: &[u8], order: Order) -> Result<Row, NoMemory>
    requires kind { kind ≢ Kind.Bool }
    requires whole { length image.now % width kind ≡ 0 }
    ensures { IfOk result (λ r. r
        ≡ record { kind = kind; numbers = numbers_of kind (in_little order (width kind) image.now) }) }
{
    match order {
        Order::Big => big_row(alloc, kind, image),
        Order::Little => Row::of_image(alloc, kind, image),
    }
}

// The row of an image whose numbers have the most significant octet first.
#[tactic(auto, using(crate::proofs::Images::swap_width))]
fn big_row(alloc: Global, kind: Kind, image: &[u8]) -> Result<Row, NoMemory>
    requires kind { kind ≢ Kind.Bool }
    requires whole { length image.now % width kind ≡ 0 }
    ensures { IfOk result
        (λ r. r ≡ record { kind = kind; numbers = numbers_of kind (swapped (width kind) image.now) }) }
{
    if kind.width() == 1 {
        Row::of_image(alloc, kind, image)
    } else {
        turned_row(alloc, kind, image)
    }
}

// How many octets are turned before they are appended.
const BLOCK: usize = 512;

// The row of an image, the octets of each number reversed.
fn turned_row(alloc: Global, kind: Kind, image: &[u8]) -> Result<Row, NoMemory>
    requires width { IsSwapWidth (width kind) }
    requires whole { length image.now % width kind ≡ 0 }
    ensures { IfOk result
        (λ r. r ≡ record { kind = kind; numbers = numbers_of kind (swapped (width kind) image.now) }) }
{
    let mut row = Row::new(alloc, kind);
    let mut block = [0u8; BLOCK];
    let mut at = 0usize;
    while at < image.len() {
        let size = (image.len() - at).min(BLOCK);
        append_turned(&mut row, &image[at..at + size], &mut block)?;
        at += size;
    }
    Ok(row)
}

// Appends the numbers of an image, the octets of each reversed.
fn append_turned(row: &mut Row, image: &[u8], block: &mut [u8; BLOCK]) -> Result<(), NoMemory>
    requires width { IsSwapWidth (width row.old.kind) }
    requires whole { length image.now % width row.old.kind ≡ 0 }
    requires few { length image.now ≤ 512 }
    ensures { OnOk result (row.new ≡ record row.old {
      numbers = row.old.numbers ++ numbers_of row.old.kind (swapped (width row.old.kind) image.now);
    }) }
{
    let turned = &mut block[..image.len()];
    swap_numbers(row.kind().width(), image, turned);
    row.append_image(turned)
}

// The number that `width` octets hold at a place: one load, since each arm knows the width.
fn read_word(octets: &RawView, at: usize, width: usize, order: Order) -> u64
    requires width { IsWidth width }
    requires within { at + width ≤ length octets.now }
    ensures value { result ≡ loaded_of order (width_in width) (take width (drop at octets.now)) }
    ensures fits { result < 256 ^ width }
{
    match (width, order) {
        (1, Order::Big) => u64::from(u8::from_be_bytes(octets.load(at))),
        (1, Order::Little) => u64::from(u8::from_le_bytes(octets.load(at))),
        (2, Order::Big) => u64::from(u16::from_be_bytes(octets.load(at))),
        (2, Order::Little) => u64::from(u16::from_le_bytes(octets.load(at))),
        (4, Order::Big) => u64::from(u32::from_be_bytes(octets.load(at))),
        (4, Order::Little) => u64::from(u32::from_le_bytes(octets.load(at))),
        (_, Order::Big) => u64::from_be_bytes(octets.load(at)),
        (_, Order::Little) => u64::from_le_bytes(octets.load(at)),
    }
}
