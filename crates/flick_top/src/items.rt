//! The items of an input, each of which is answered by itself.

use kit_base::Line;
use wire_frames::Part;

/// An item of an input.
#[derive(Debug, Drop)]
pub enum Item {
    /// A line.
    Line(Line),
    /// A part of a raw stream.
    Part(Part),
}
