//! The operations of an engine.

ghost use Rattle.std.specs.Prelude.{◌≡◌, ◌<◌, ℕ, List, length};
ghost use Rattle.mint.specs.Types.{type_at};
ghost use Rattle.flick_engine.specs.Messages.{request_type};
ghost use Rattle.flick_engine.specs.declared.replies.Fate.TheVariants as fates;
ghost use Rattle.flick_engine.specs.Backs.{BeginsReply};
ghost use Rattle.flick_engine.specs.Fates.{Heard};
ghost use Rattle.flick_engine.specs.Replies.{reply_type, IsChoice, HasArm};

use crate::engine::Engine;
use mint::table::NodeId;

impl Engine {
    /// The node of what goes into an operation.
    pub fn request(&self, op: u32) -> NodeId
        requires { op < length self.now.binding.ops }
        ensures node { result < length self.now.binding.nodes }
        ensures type_ { type_at self.now.binding.nodes result ≡ request_type self.now.binding op }
    {
        match self.bound().ops().get(op as usize) {
            Some(operation) => operation.request,
            None => unreachable!(),
        }
    }

    /// The node of what comes back from an operation: a choice of its answer, which is arm 0, and of
    /// its exceptions.
    pub fn reply(&self, op: u32) -> NodeId
        requires { op < length self.now.binding.ops }
        ensures node { result < length self.now.binding.nodes }
        ensures type_ { type_at self.now.binding.nodes result ≡ reply_type self.now.binding op }
    {
        match self.bound().ops().get(op as usize) {
            Some(operation) => operation.reply,
            None => unreachable!(),
        }
    }

    /// What comes back from an operation is a choice, and the heads of its replies tell arms that it
    /// has. It does nothing.
    pub(crate) fn replies_tell_arms(&self, op: u32)
        requires op { op < length self.now.binding.ops }
        ensures choice { IsChoice (reply_type self.now.binding op) }
        ensures reported { (o : List ℕ) (t : Heard) (k : ℕ) → BeginsReply self.now.binding op o t
            → t.fate ≡ fates.Arm k → HasArm self.now.binding op k }
    {
        let _ops = self.bound().ops();
    }
}
