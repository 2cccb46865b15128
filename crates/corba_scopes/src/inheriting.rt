//! The bases of interfaces.

ghost use Rattle.std.specs.Prelude.{◌≡◌, ◌++◌, IfOk};
ghost use Rattle.corba_scopes.specs.Around.{prefix_of};
ghost use Rattle.corba_scopes.specs.Names.{here};
ghost use Rattle.corba_scopes.specs.Finding.{with_base};
ghost use Rattle.corba_scopes.specs.Parted.{full_of, IsKey};

use crate::keys::Key;
use crate::store::Store;
use kit_base::NoMemory;
use std::alloc::Global;

impl Store {
    /// These with the line of one more base, which has a key, after that of the interface by this name here.
    pub(crate) fn with_base(self, alloc: Global, name: &[u8], base: Key) -> Result<Store, NoMemory>
        requires { IsKey self.parts base }
        ensures { IfOk result (λ s. s.names ≡
            with_base (prefix_of (here self.names ++ name.now)) (prefix_of (full_of self.parts base))
            self.names) }
    {
        let place = self.place();
        let Store {
            keys,
            table,
            folded,
            mut lines,
            env,
        } = self;
        match keys.with_scopes(alloc, place, name, base) {
            Ok((keys, place, base)) => match lines.add_base(alloc, place, base) {
                Ok(()) => Ok(Store {
                    keys,
                    table,
                    folded,
                    lines,
                    env,
                }),
                Err(out) => Err(out),
            },
            Err(out) => Err(out),
        }
    }
}
