ghost use Rattle.std.specs.Prelude.{◌≡◌, IfOk, IsTrue};
ghost use Rattle.gr_word.specs.Prelude.{is_name};

use gr_base::Memory;
use gr_word::Name;
use std::alloc::Global;
use std::collections::BTreeMap;
use std::marker::Model;

// The names of a text that were read so far, by their bytes. All uses of a name share its bytes in memory. Contracts see
// nothing of them.
#[derive(Drop)]
pub(crate) struct KnownNames<'a> {
    names: BTreeMap<&'a [u8], Name>,
}

impl<'a> Model for KnownNames<'a> {
    ghost use Rattle.src_lexer.specs.KnownNames.{HoldsOwn};

    ghost Value = { Unit {0} };

    ghost view = { λ _. tt };

    ghost invariant = { λ known. HoldsOwn known.names };
}

impl<'a> KnownNames<'a> {
    // No names yet.
    pub(crate) fn new(alloc: Global) -> KnownNames<'a> {
        KnownNames {
            names: BTreeMap::new(alloc),
        }
    }

    // The name with these bytes.
    pub(crate) fn name_of(&mut self, alloc: Global, bytes: &'a [u8]) -> Result<Name, Memory>
        requires { IsTrue (is_name bytes.now) }
        ensures { IfOk result (λ name. name ≡ bytes.now) }
    {
        if let Some(name) = self.names.get(&bytes) {
            return name.copy(alloc);
        }
        let name = Name::new(alloc, bytes)?;
        self.names.insert(bytes, name.copy(alloc)?)?;
        Ok(name)
    }
}
