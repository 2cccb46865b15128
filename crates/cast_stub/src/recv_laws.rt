//! The laws of code that receives, each the contract of a function that does nothing.

ghost use Rattle.cast_stub.specs.Laws.{RecvAfterRecv, RecvForPart, TestsAdd};

/// A run of code after code is the run of the first and then that of the second.
pub fn recv_code_after_code()
    ensures { RecvAfterRecv }
{}

/// Code that is made for a part of a draft does the same on the whole, once the part's path is
/// before its paths: the part is filled and put back.
pub fn recv_code_for_a_part()
    ensures { RecvForPart }
{}

/// What was tested before a run changes neither what the code gives nor where it ends, and those
/// tests are added.
pub fn earlier_tests_add()
    ensures { TestsAdd }
{}
