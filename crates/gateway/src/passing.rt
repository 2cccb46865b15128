//! Requests that are read at one end and written at another.

ghost use Rattle.std.specs.Prelude.{◌≡◌, ◌≢◌, ◌↔◌, ◌<◌, Err, None, length, IfOk};
ghost use Rattle.kit_base.specs.Limits.{longest_message};
ghost use Rattle.gateway.specs.declared.errors.PassErr.TheVariants as err;
ghost use Rattle.gateway.specs.Passed.{ForAsked, ForPaired};

use crate::ends::{Asked, Ends};
use crate::errors::PassErr;
use kit_base::Octets;
use std::alloc::Global;
use std::marker::Model;

/// A gateway between two ends.
#[derive(Drop)]
pub struct Gateway<E> {
    ends: E,
}

impl<E> Model for Gateway<E> {
    ghost Value = { E };

    ghost view = { λ g. g.ends };
}

impl<E: Ends> Gateway<E> {
    /// A gateway between these ends.
    pub fn new(ends: E) -> Gateway<E>
        ensures { result ≡ ends }
    {
        Gateway { ends }
    }

    /// The message of the request that octets are, at the end that writes. It takes no memory but what the ends take.
    pub fn pass(&self, alloc: Global, octets: &[u8]) -> Result<Octets, PassErr<E::Refused>>
        // What `Ok` holds.
        ensures ok { IfOk result (λ m. ForPaired (E.Asks self.now octets.now) (E.paired self.now)
            (λ op head v. m ≡ E.told self.now op head v)) }
        // When each error comes.
        ensures read { result ≢ Err err.NoMemory → (x : E.Refused)
            → (result ≡ Err (err.Read x)) ↔ E.Declines self.now octets.now x }
        ensures pair { result ≢ Err err.NoMemory → (result ≡ Err err.Pair)
            ↔ ForAsked (E.Asks self.now octets.now) (λ op head v. E.paired self.now op head ≡ None) }
        ensures long { result ≢ Err err.NoMemory → (result ≡ Err err.Long)
            ↔ ForPaired (E.Asks self.now octets.now) (E.paired self.now)
            (λ op head v. longest_message < length (E.told self.now op head v)) }
    {
        match self.ends.read(alloc, octets)? {
            Asked::Request(op, head, value) => {
                let Some((op, head)) = self.ends.pair(op, &head) else {
                    return Err(PassErr::Pair);
                };
                Ok(self.ends.write(alloc, op, &head, &value)?)
            }
            Asked::Refused(why) => Err(PassErr::Read(why)),
        }
    }
}
