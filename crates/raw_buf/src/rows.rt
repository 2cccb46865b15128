//! Rows of numbers, sent as a block.

ghost use Rattle.std.specs.Prelude.{◌≡◌, ◌≤◌, ◌++◌, length, drop};
ghost use Rattle.mint.specs.Kinds.{width};
ghost use Rattle.mint.specs.Row.{image_of};
ghost use Rattle.kit_swap.specs.Swapped.{swapped, IsSwapWidth};
ghost use Rattle.raw_buf.specs.Buf.{rowed};

use crate::SendBuf;
use mint::row::Row;

impl SendBuf {
    /// Appends a row in the space that is ensured: its numbers, the least significant octet first.
    pub fn row_copy(&mut self, row: &Row)
        requires within { length (image_of row.now.kind row.now.numbers) ≤ length self.old.front }
        ensures done { self.new.done ≡ self.old.done ++ image_of row.now.kind row.now.numbers }
        ensures front { self.new.front
            ≡ drop (length (image_of row.now.kind row.now.numbers)) self.old.front }
        ensures tally { self.new.tally ≡ rowed self.old.tally }
        ensures spent { self.new.spent ≡ rowed self.old.spent }
    {
        let image = row.image();
        self.store(0, image);
        self.pass(image.len());
        self.count_row();
    }

    /// Appends a row in the space that is ensured: its numbers, the most significant octet first.
    pub fn row_swap(&mut self, row: &Row)
        // What is put.
        requires width { IsSwapWidth (width row.now.kind) }
        requires within { length (image_of row.now.kind row.now.numbers) ≤ length self.old.front }
        // What is written.
        ensures done { self.new.done
            ≡ self.old.done ++ swapped (width row.now.kind) (image_of row.now.kind row.now.numbers) }
        ensures front { self.new.front
            ≡ drop (length (image_of row.now.kind row.now.numbers)) self.old.front }
        // What it costs.
        ensures tally { self.new.tally ≡ rowed self.old.tally }
        ensures spent { self.new.spent ≡ rowed self.old.spent }
    {
        let image = row.image();
        self.store_swapped(row.kind().width(), image);
        self.pass(image.len());
        self.count_row();
    }
}
