//! The puts of a chunk.

ghost use Rattle.std.specs.Prelude.{◌≡◌, ◌≢◌, ◌≤◌, ◌<◌, ◌+◌, ◌*◌, ◌^◌, ◌∷◌, [], pos, length, option_map, replicate, None, Some, IfSome};
ghost use Rattle.kit_base.specs.Bytes.{le};
ghost use Rattle.mint.specs.Values.{seen, all_seen};
ghost use Rattle.cast_stub.specs.Parts.{on_some, at, number_in, tag_in, flag_in, length_in, IsThere};
ghost use Rattle.cast_stub.specs.Puts.{wrapped, word, head_number, put_octets, offset, put_all};
ghost use Rattle.wire_def.specs.Descriptors.{descriptor};
ghost use Rattle.cast_stub.specs.Steps.{chunk_steps, over};
ghost use Rattle.cast_stub.specs.declared.send.SendOp.TheVariants as op;
ghost use Rattle.stub_machine.specs.Putting.{octets_in, Writes, OverAll};
ghost use Rattle.stub_machine.specs.Run.{state_of, stored_times, Runs, Ends};

use crate::parts::{flag_of, length_of, number_there, part, scaled, tag_of};
use cast_stub::{Constant, HeadField, Path, Put, Puts, SendOp, SendOps};
use mint::value::{Value, Values};
use raw_buf::SendBuf;
use wire_def::{Head, Order};

/// A number that fits in an octet, modulo 2^8.
#[inline(always)]
#[tactic(auto, using(crate::proofs::Lows::lows))]
fn low1(n: &i128) -> u64
    requires { IsThere (wrapped (2 ^ 7) n.now) }
    ensures { Some result ≡ wrapped (2 ^ 7) n.now }
{
    (n.cast_unsigned() % 256) as u64
}

/// A number that fits in two octets, modulo 2^16.
#[inline(always)]
#[tactic(auto, using(crate::proofs::Lows::lows))]
fn low2(n: &i128) -> u64
    requires { IsThere (wrapped (2 ^ 15) n.now) }
    ensures { Some result ≡ wrapped (2 ^ 15) n.now }
{
    (n.cast_unsigned() % 65536) as u64
}

/// A number that fits in four octets, modulo 2^32.
#[inline(always)]
#[tactic(auto, using(crate::proofs::Lows::lows))]
fn low4(n: &i128) -> u64
    requires { IsThere (wrapped (2 ^ 31) n.now) }
    ensures { Some result ≡ wrapped (2 ^ 31) n.now }
{
    (n.cast_unsigned() % 4294967296) as u64
}

/// A number that fits in eight octets, modulo 2^64.
#[inline(always)]
#[tactic(auto, using(crate::proofs::Lows::lows))]
fn low8(n: &i128) -> u64
    requires { IsThere (wrapped (2 ^ 63) n.now) }
    ensures { Some result ≡ wrapped (2 ^ 63) n.now }
{
    (n.cast_unsigned() % 18446744073709551616) as u64
}

/// Stores a number, in two's complement: without a call where it has four octets, as most have.
#[inline(always)]
pub fn put_word(buf: &mut SendBuf, off: usize, width: u32, order: Order, n: &i128)
    requires there { IsThere (word width order n.now) }
    requires within { off + octets_in (word width order n.now) ≤ length buf.old.front }
    ensures { Writes buf.old buf.new off (word width order n.now) }
{
    if width == 4 {
        buf.put(off, 4, order, low4(n));
    } else {
        put_other(buf, off, width, order, n);
    }
}

/// Stores a number of one, two or eight octets: each arm knows its width, so that it is one store.
#[inline(never)]
fn put_other(buf: &mut SendBuf, off: usize, width: u32, order: Order, n: &i128)
    requires other { width ≢ 4 }
    requires there { IsThere (word width order n.now) }
    requires within { off + octets_in (word width order n.now) ≤ length buf.old.front }
    ensures { Writes buf.old buf.new off (word width order n.now) }
{
    match width {
        1 => buf.put(off, 1, order, low1(n)),
        2 => buf.put(off, 2, order, low2(n)),
        8 => buf.put(off, 8, order, low8(n)),
        _ => unreachable!(),
    }
}

/// Stores the number at a path.
#[inline(always)]
fn put_number(buf: &mut SendBuf, off: u32, path: &Path, width: u32, order: Order, value: &Value)
    requires there { IsThere (on_some (on_some (at path.now (seen value.now)) number_in) (word width order)) }
    requires within { off
        + octets_in (on_some (on_some (at path.now (seen value.now)) number_in) (word width order))
        ≤ length buf.old.front }
    ensures { Writes buf.old buf.new off
        (on_some (on_some (at path.now (seen value.now)) number_in) (word width order)) }
{
    let n = number_there(path, value);
    put_word(buf, off as usize, width, order, n);
}

/// Stores the tag of the arm at a path.
fn put_tag(buf: &mut SendBuf, off: u32, path: &Path, width: u32, order: Order, value: &Value)
    requires there { IsThere (on_some (on_some (at path.now (seen value.now)) tag_in) (word width order)) }
    requires within { off
        + octets_in (on_some (on_some (at path.now (seen value.now)) tag_in) (word width order))
        ≤ length buf.old.front }
    ensures { Writes buf.old buf.new off
        (on_some (on_some (at path.now (seen value.now)) tag_in) (word width order)) }
{
    let Some(here) = part(path, value) else {
        unreachable!()
    };
    let Some(n) = tag_of(here) else {
        unreachable!()
    };
    put_word(buf, off as usize, width, order, &n);
}

/// Stores whether a value is there at a path.
fn put_flag(buf: &mut SendBuf, off: u32, path: &Path, width: u32, order: Order, value: &Value)
    requires there { IsThere (on_some (on_some (at path.now (seen value.now)) flag_in) (word width order)) }
    requires within { off
        + octets_in (on_some (on_some (at path.now (seen value.now)) flag_in) (word width order))
        ≤ length buf.old.front }
    ensures { Writes buf.old buf.new off
        (on_some (on_some (at path.now (seen value.now)) flag_in) (word width order)) }
{
    let Some(here) = part(path, value) else {
        unreachable!()
    };
    let Some(n) = flag_of(here) else {
        unreachable!()
    };
    put_word(buf, off as usize, width, order, &n);
}

/// Stores a length, multiplied and raised.
fn put_count(
    buf: &mut SendBuf,
    off: u32,
    path: &Path,
    mul: u32,
    add: u32,
    width: u32,
    order: Order,
    value: &Value,
)
    requires there { IsThere (on_some (on_some (at path.now (seen value.now)) length_in)
        (λ n. word width order (pos (n * mul + add)))) }
    requires within { off + octets_in (on_some (on_some (at path.now (seen value.now)) length_in)
        (λ n. word width order (pos (n * mul + add)))) ≤ length buf.old.front }
    ensures { Writes buf.old buf.new off (on_some (on_some (at path.now (seen value.now)) length_in)
        (λ n. word width order (pos (n * mul + add)))) }
{
    let Some(here) = part(path, value) else {
        unreachable!()
    };
    let Some(n) = length_of(here) else {
        unreachable!()
    };
    let number = scaled(n, mul, add);
    put_word(buf, off as usize, width, order, &number);
}

/// The number of a short Mach descriptor, where its parts fit.
fn descriptor_of(name: u32, size: u32, n: usize, mul: u32) -> Option<u32>
    ensures { option_map (λ d. le 4 d) result ≡ descriptor name size (n * mul) }
{
    let count = (n as u128) * u128::from(mul);
    if name < 256 && size < 256 && count < 4096 {
        Some(name + size * 256 + (count as u32) * 65536 + 268435456)
    } else {
        None
    }
}

/// Stores a short Mach descriptor, whose number is a length, multiplied.
fn put_short(
    buf: &mut SendBuf,
    off: u32,
    path: &Path,
    name: u32,
    size: u32,
    mul: u32,
    value: &Value,
)
    requires there { IsThere
        (on_some (on_some (at path.now (seen value.now)) length_in) (λ n. descriptor name size (n * mul))) }
    requires within { off + octets_in
        (on_some (on_some (at path.now (seen value.now)) length_in) (λ n. descriptor name size (n * mul)))
        ≤ length buf.old.front }
    ensures { Writes buf.old buf.new off
        (on_some (on_some (at path.now (seen value.now)) length_in) (λ n. descriptor name size (n * mul))) }
{
    let Some(here) = part(path, value) else {
        unreachable!()
    };
    let Some(n) = length_of(here) else {
        unreachable!()
    };
    let Some(number) = descriptor_of(name, size, n, mul) else {
        unreachable!()
    };
    buf.put(off as usize, 4, Order::Little, u64::from(number));
}

/// Stores a number of the head.
fn put_head(buf: &mut SendBuf, off: u32, field: HeadField, width: u32, order: Order, head: &Head)
    requires there { IsThere (word width order (pos (head_number field head.now))) }
    requires within { off + octets_in (word width order (pos (head_number field head.now)))
        ≤ length buf.old.front }
    ensures { Writes buf.old buf.new off (word width order (pos (head_number field head.now))) }
{
    let n = i128::from(field.of(head));
    put_word(buf, off as usize, width, order, &n);
}

/// Stores octets that a code has.
#[inline(never)]
fn put_constant(off: u32, octets: &Constant, buf: &mut SendBuf)
    requires { off + length octets.now ≤ length buf.old.front }
    ensures { Writes buf.old buf.new off (Some octets.now) }
{
    let (front, piece, rest) = octets.pieces();
    if piece.is_empty() && rest.is_empty() {
        buf.put_const(off as usize, front);
    } else {
        buf.put_pieces(off as usize, front, piece, rest);
    }
}

/// Stores what a put says, of whichever kind.
#[inline(never)]
fn run_any(put: &Put, head: &Head, value: &Value, buf: &mut SendBuf)
    requires there { IsThere (put_octets head.now put.now (seen value.now)) }
    requires within { offset put.now + octets_in (put_octets head.now put.now (seen value.now))
        ≤ length buf.old.front }
    ensures { Writes buf.old buf.new (offset put.now) (put_octets head.now put.now (seen value.now)) }
{
    match put {
        Put::Num(off, path, width, order) => put_number(buf, *off, path, *width, *order, value),
        Put::Tag(off, path, width, order) => put_tag(buf, *off, path, *width, *order, value),
        Put::Flag(off, path, width, order) => put_flag(buf, *off, path, *width, *order, value),
        Put::Count(off, path, mul, add, width, order) => put_count(
            buf, *off, path, *mul, *add, *width, *order, value,
        ),
        Put::Short(off, path, name, size, mul) => put_short(
            buf, *off, path, *name, *size, *mul, value,
        ),
        Put::Const(off, octets) => put_constant(*off, octets, buf),
        Put::Head(off, field, width, order) => put_head(buf, *off, *field, *width, *order, head),
    }
}

/// Stores what a put says: without a call where it is a number, as most are.
#[inline(always)]
fn run_put(put: &Put, head: &Head, value: &Value, buf: &mut SendBuf)
    requires there { IsThere (put_octets head.now put.now (seen value.now)) }
    requires within { offset put.now + octets_in (put_octets head.now put.now (seen value.now))
        ≤ length buf.old.front }
    ensures { Writes buf.old buf.new (offset put.now) (put_octets head.now put.now (seen value.now)) }
{
    match put {
        Put::Num(off, path, width, order) => put_number(buf, *off, path, *width, *order, value),
        Put::Const(off, octets) => put_constant(*off, octets, buf),
        _ => run_any(put, head, value, buf),
    }
}

/// Stores what each put says, one after the other.
#[inline(always)]
fn run_puts(size: u32, puts: &Puts, head: &Head, value: &Value, buf: &mut SendBuf)
    // What may be put.
    requires there { IsThere (put_all head.now (seen value.now) puts.now (replicate size None)) }
    requires within { size ≤ length buf.old.front }
    // What is written.
    ensures over { OverAll (put_all head.now (seen value.now) puts.now (replicate size None)) buf.new.front }
    ensures front { length buf.new.front ≡ length buf.old.front }
    ensures done { buf.new.done ≡ buf.old.done }
    // What it costs.
    ensures tally { buf.new.tally ≡ stored_times (length puts.now) buf.old.tally }
    ensures spent { buf.new.spent ≡ stored_times (length puts.now) buf.old.spent }
{
    let _ = size;
    for put in puts.as_slice() {
        run_put(put, head, value, buf);
    }
}

/// Fills a chunk and appends it.
#[inline(always)]
pub fn run_chunk(size: u32, puts: &Puts, head: &Head, value: &Value, buf: &mut SendBuf)
    requires { Runs (chunk_steps size puts.now head.now (seen value.now)) (state_of buf.old) }
    ensures { Ends (chunk_steps size puts.now head.now (seen value.now)) (state_of buf.old)
        (state_of buf.new) }
{
    run_puts(size, puts, head, value, buf);
    buf.advance(size as usize);
}

/// The size and the puts of a code that is one chunk.
pub fn only_chunk(code: &SendOps) -> Option<(u32, &Puts)>
    ensures { IfSome result (λ c. code.now ≡ op.Chunk c.0 c.1.now ∷ []) }
{
    let ops = code.as_slice();
    if ops.len() != 1 {
        return None;
    }
    match &ops[0] {
        SendOp::Chunk(size, puts) => Some((*size, puts)),
        _ => None,
    }
}

/// Fills a chunk for each value, and appends it. It takes no memory.
pub fn run_chunks(size: u32, puts: &Puts, head: &Head, values: &Values, buf: &mut SendBuf)
    requires { Runs (over (chunk_steps size puts.now head.now) (all_seen values.now)) (state_of buf.old) }
    ensures { Ends (over (chunk_steps size puts.now head.now) (all_seen values.now)) (state_of buf.old)
        (state_of buf.new) }
{
    for value in values.as_slice() {
        run_chunk(size, puts, head, value, buf);
    }
}
