ghost use Rattle.std.specs.List.{list_all};
ghost use Rattle.std.specs.Prelude.{◌≡◌, IfOk, IsTrue};
ghost use Rattle.gr_word.specs.Names.{is_name, is_name_byte};

use gr_base::Memory;
use std::alloc::Global;
use std::marker::Model;
use std::rc::RcSlice;

/// The most bytes of a name.
pub const NAME_BYTES: usize = 32;

/// The name of a variable: 1 to 32 bytes, all of them ASCII letters, digits or `_`, and the first isn't a digit.
/// Contracts see it as the list of its bytes, which all copies of a name share in memory.
#[derive(Debug, Drop)]
pub struct Name {
    bytes: RcSlice<u8>,
}

impl Model for Name {
    ghost use Rattle.std.specs.Prelude.{List, ℕ, IsTrue};
    ghost use Rattle.std.specs.Rc.{rc_slice_items};
    ghost use Rattle.gr_word.specs.Names.{is_name};

    ghost Value = { List ℕ };

    ghost view = { λ n. rc_slice_items n.bytes };

    ghost invariant = { λ n. IsTrue (is_name (rc_slice_items n.bytes)) };
}

impl Name {
    /// Makes a name of a copy of these bytes.
    pub fn new(alloc: Global, bytes: &[u8]) -> Result<Name, Memory>
        requires { IsTrue (is_name bytes.now) }
        ensures { IfOk result (λ name. name ≡ bytes.now) }
    {
        let bytes = RcSlice::from_slice(alloc, bytes)?;
        Ok(Name { bytes })
    }

    /// The bytes of the name.
    pub fn bytes(&self) -> &[u8]
        ensures bytes { result.now ≡ self.now }
        ensures fits { IsTrue (is_name self.now) }
    {
        self.bytes.as_slice()
    }

    /// A copy of the name, which takes no memory of its own.
    pub fn copy(&self, _alloc: Global) -> Result<Name, Memory>
        ensures { IfOk result (λ name. name ≡ self.now) }
    {
        let bytes = self.bytes.clone()?;
        Ok(Name { bytes })
    }
}

/// Whether these bytes are a name: 1 to 32 ASCII letters, digits or `_`, of which the first isn't a digit.
pub fn name_fits(bytes: &[u8]) -> bool
    ensures { result ≡ is_name bytes.now }
{
    1 <= bytes.len()
        && bytes.len() <= NAME_BYTES
        && !bytes[0].is_ascii_digit()
        && all_fit_in_name(bytes)
}

fn all_fit_in_name(bytes: &[u8]) -> bool
    ensures { result ≡ list_all is_name_byte bytes.now }
{
    bytes.iter().all(|byte| fits_in_name(*byte))
}

fn fits_in_name(byte: u8) -> bool
    ensures { result ≡ is_name_byte byte }
{
    byte.is_ascii_alphanumeric() || byte == b'_'
}
