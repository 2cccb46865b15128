//! The code of an operation.

ghost use Rattle.std.specs.Prelude.{◌≡◌};
ghost use Rattle.stub_codes.specs.Stubs.{replies_in};

use cast_stub::{RecvCode, SendCode};
use kit_base::Listed;
use kit_shared::Shared;

/// The code of an operation's requests and replies. Where codes are equal for what they are made for, operations share one.
#[derive(Drop)]
pub struct Stub {
    /// The code that sends a request.
    pub send: SendCode,
    /// The code that receives what goes into the operation, laid out as it is sent.
    pub recv: Shared<RecvCode>,
    /// The code that receives it in the other order, which CDR alone has.
    pub other: Option<Shared<RecvCode>>,
    /// The codes that send its replies: that of arm 0, the answer, and that of arm k, the k-th exception, at place k.
    pub replies: Listed<Shared<SendCode>>,
    /// The codes that send them in version 1.2 of GIOP, which CDR alone has.
    pub later: Listed<Shared<SendCode>>,
}

impl Stub {
    /// The codes that send the replies in a version, by its minor number.
    pub fn replies_in(&self, minor: u8) -> &Listed<Shared<SendCode>>
        ensures { result.now ≡ replies_in self.now minor }
    {
        if minor == 0 {
            &self.replies
        } else {
            &self.later
        }
    }
}

/// The codes of operations, in their order.
pub type Stubs = Listed<Stub>;
