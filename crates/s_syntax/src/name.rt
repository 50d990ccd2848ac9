//! Names.

use lists::ListOf;
use std::alloc::{AllocError, Global};
use std::marker::Model;

/// A name, by its bytes. Contracts see the list of bytes.
#[derive(Drop)]
pub struct Name {
    bytes: ListOf<u8>,
}

impl Model for Name {
    ghost use Rattle.std.specs.Prelude.{List, ℕ};

    ghost Value = { List ℕ };

    ghost view = { λ a. a.bytes };
}

impl Name {
    ghost use Rattle.std.specs.Prelude.{◌≡◌, IfOk};

    /// The name of these bytes, which are copied. It fails only for want of memory.
    pub fn new(alloc: Global, bytes: &[u8]) -> Result<Name, AllocError>
        ensures value { IfOk result (λ name. name ≡ bytes.now) }
    {
        let bytes = ListOf::from_vec(bytes.to_vec(alloc)?);
        Ok(Name { bytes })
    }

    /// Its bytes.
    pub fn as_bytes(&self) -> &[u8]
        ensures value { result.now ≡ self.now }
    {
        self.bytes.as_slice()
    }
}

impl PartialEq for Name {
    ghost use Rattle.std.specs.Str.{bytes_eq};
    ghost use Rattle.std.specs.Cmp.{partial_equiv_from_equiv};
    ghost use Rattle.std.specs.Cmp.Lexicographic.{nat_list_eq_equiv};

    ghost eq = { bytes_eq };

    ghost laws = { partial_equiv_from_equiv nat_list_eq_equiv };

    fn eq(&self, other: &Self) -> bool {
        self.as_bytes() == other.as_bytes()
    }
}

impl Eq for Name {
    ghost use Rattle.std.specs.Cmp.Lexicographic.{nat_list_eq_equiv};

    ghost laws = { nat_list_eq_equiv };
}
