//! The limits that several crates keep, each by one name.

/// The octets of the longest message.
pub const LONGEST_MESSAGE: usize = 4_194_304;

/// The octets of the longest line of an input.
pub const LONGEST_LINE: u32 = 8_388_608;

/// The octets of the longest interface file.
pub const LONGEST_FILE: u32 = 1_048_576;

/// The octets of the longest file of replies.
pub const LONGEST_REPLIES: u32 = 8_388_608;

/// The octets of the longest file of stubs.
pub const LONGEST_STUBS: u32 = 8_388_608;

/// The octets that may be taken of an input.
pub const MOST_INPUT: u64 = 1_073_741_824;

/// The nodes of the largest table of types.
pub const MOST_NODES: usize = 65_536;

/// The levels of the deepest type.
pub const DEEPEST: u32 = 32;

/// The weight of the heaviest blank value.
pub const HEAVIEST_BLANK: u32 = 1_048_576;

/// The weight of the heaviest value.
pub const HEAVIEST: u32 = 268_435_456;

/// The labels of the longest enum, and the arms of the longest discriminated union.
pub const MOST_LABELS: usize = 4_096;

/// The exceptions that one operation may raise.
pub const MOST_RAISES: usize = 4_095;

/// The interfaces of a unit.
pub const MOST_INTERFACES: usize = 64;

/// The operations of one interface.
pub const MOST_OPERATIONS: usize = 256;

/// The octets of the longest name of an interface or operation, and of the longest id of an
/// exception.
pub const LONGEST_NAME: usize = 16_777_216;

/// The nodes that the request and the reply of one operation unfold to.
pub const MOST_OPERATION_NODES: u64 = 65_536;

/// The nodes that the requests and replies of all operations unfold to.
pub const MOST_UNIT_NODES: u64 = 262_144;
