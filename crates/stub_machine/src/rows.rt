//! Rows of numbers, given as a block.

ghost use Rattle.std.specs.Prelude.{◌≡◌, ◌≤◌, ◌*◌, ◌++◌, Some, length, drop, option_map};
ghost use Rattle.mint.specs.Values.{seen};
ghost use Rattle.cast_stub.specs.Parts.{IsThere};
ghost use Rattle.cast_stub.specs.Steps.{copy_steps, swap_steps, wide_steps, wide};
ghost use Rattle.stub_machine.specs.Run.{state_of, stored_times, Runs, Ends};

use crate::parts::row_at;
use crate::puts::put_word;
use cast_stub::Path;
use mint::row::Row;
use mint::value::Value;
use raw_buf::SendBuf;
use wire_def::Order;

/// Appends the image of the row at a path.
pub fn run_row_copy(path: &Path, value: &Value, buf: &mut SendBuf)
    requires { Runs (copy_steps path.now (seen value.now)) (state_of buf.old) }
    ensures { Ends (copy_steps path.now (seen value.now)) (state_of buf.old) (state_of buf.new) }
{
    let Some(row) = row_at(path, value) else {
        unreachable!()
    };
    buf.row_copy(row);
}

/// Appends the numbers of the row at a path, the octets of each reversed.
pub fn run_row_swap(path: &Path, value: &Value, buf: &mut SendBuf)
    requires { Runs (swap_steps path.now (seen value.now)) (state_of buf.old) }
    ensures { Ends (swap_steps path.now (seen value.now)) (state_of buf.old) (state_of buf.new) }
{
    let Some(row) = row_at(path, value) else {
        unreachable!()
    };
    if row.kind().width() == 1 {
        buf.row_copy(row);
    } else {
        buf.row_swap(row);
    }
}

/// Appends the numbers of the row at a path, each in four octets.
pub fn run_row_wide(path: &Path, order: Order, value: &Value, buf: &mut SendBuf)
    requires { Runs (wide_steps path.now order (seen value.now)) (state_of buf.old) }
    ensures { Ends (wide_steps path.now order (seen value.now)) (state_of buf.old) (state_of buf.new) }
{
    let Some(row) = row_at(path, value) else {
        unreachable!()
    };
    let _room = buf.ahead();
    put_wide(row, order, buf);
    buf.advance(4 * row.len());
}

/// Stores the numbers of a row at the beginning of the space, each in four octets.
fn put_wide(row: &Row, order: Order, buf: &mut SendBuf)
    requires there { IsThere (wide order row.now.numbers) }
    requires within { 4 * length row.now.numbers ≤ length buf.old.front }
    ensures done { buf.new.done ≡ buf.old.done }
    ensures front { option_map (λ os. os ++ drop (4 * length row.now.numbers) buf.old.front)
        (wide order row.now.numbers) ≡ Some buf.new.front }
    ensures tally { buf.new.tally ≡ stored_times (length row.now.numbers) buf.old.tally }
    ensures spent { buf.new.spent ≡ stored_times (length row.now.numbers) buf.old.spent }
{
    let _room = buf.ahead();
    for i in 0..row.len() {
        let Some(n) = row.get(i) else { unreachable!() };
        put_word(buf, 4 * i, 4, order, &n);
    }
}
