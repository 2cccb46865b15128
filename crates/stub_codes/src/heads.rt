//! The numbers of a head.

ghost use Rattle.std.specs.Prelude.{◌≡◌};
ghost use Rattle.cast_stub.specs.Puts.{IsHead};

use wire_def::Head;

/// The id.
fn id_of(head: &Head) -> u32
    ensures { result ≡ head.now.id }
{
    head.id
}

/// The port that the message is sent to.
fn remote_of(head: &Head) -> u32
    ensures { result ≡ head.now.remote }
{
    head.remote
}

/// The port that a reply is sent to.
fn local_of(head: &Head) -> u32
    ensures { result ≡ head.now.local }
{
    head.local
}

/// Words can hold the numbers of a head. It does nothing.
pub(crate) fn numbers_are_words(head: &Head)
    ensures { IsHead head.now }
{
    let _id = id_of(head);
    let _remote = remote_of(head);
    let _local = local_of(head);
}
