//! The types of places in stub code: the number of a node, or none where nothing is known; the steps of looks at code;
//! sets of residues of a position by 8.
#![tactic(auto)]

mod places;
pub mod sets;
mod steps;

pub use places::{
    Spot, arm_spot_at, element_at, greatest_at, has_length_at, is_width, present_at, rest_spot_at,
    row_kind_at, spot_at, width, width_of,
};
pub use steps::{spend, spend_op, spend_ways, steps_among, steps_at, steps_of};
