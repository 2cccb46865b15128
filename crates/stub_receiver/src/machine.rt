//! What a run has throughout.

use cast_stub::RecvSubs;
use mint::table::Mint;
use std::alloc::Global;

/// What a run has throughout: the allocator, the codes that calls name, and the table of the types.
#[derive(Drop)]
pub struct Machine<'a> {
    /// The allocator.
    pub alloc: Global,
    /// The codes that calls name by their places.
    pub subs: &'a RecvSubs,
    /// The table of the types.
    pub mint: &'a Mint,
}
