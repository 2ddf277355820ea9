ghost use Rattle.std.specs.Prelude.{◌≡◌, ◌↔◌, ◌∷◌, ◌++◌, [], length, IsTrue, OnOk, OnErr, IfOk};

use std::alloc::{AllocError, Global};
use std::marker::Model;

/// The number under which the catalog knows an object, such as a type (PostgreSQL manual, "Object Identifier Types").
#[derive(Clone, Copy, Debug, PartialEq, Eq, PartialOrd, Ord, Hash)]
pub struct Oid(pub u32);

impl Model for Oid {
    ghost use Rattle.std.specs.Prelude.{ℕ};

    ghost Value = { ℕ };

    ghost view = { λ o. o.0 };

    ghost inverse = { λ n. record { 0 = n } };
}

/// OIDs in order: contracts see the list of their numbers.
#[derive(Debug)]
pub struct Oids {
    oids: Vec<Oid>,
}

// By hand, so that whoever lets one go makes one call, and doesn't go through its parts.
impl Drop for Oids {
    fn drop(self) {
        let Oids { oids: _ } = self;
    }
}

impl Model for Oids {
    ghost use Rattle.std.specs.Prelude.{List, ℕ};

    ghost Value = { List ℕ };

    ghost view = { λ o. o.oids.items };
}

impl Oids {
    /// No OIDs, which takes no memory.
    pub fn new(alloc: Global) -> Self
        ensures { result ≡ [] }
    {
        Oids {
            oids: Vec::new(alloc),
        }
    }

    /// The OIDs of a `Vec`, without taking memory.
    pub fn from_vec(oids: Vec<Oid>) -> Self
        ensures { result ≡ oids.items }
    {
        Oids { oids }
    }

    /// Gives the `Vec` back, without taking memory.
    pub fn into_vec(self) -> Vec<Oid>
        ensures { result.items ≡ self }
    {
        let Oids { oids } = self;
        oids
    }

    pub fn len(&self) -> usize
        ensures { result ≡ length self.now }
    {
        self.oids.len()
    }

    pub fn is_empty(&self) -> bool
        ensures { IsTrue result ↔ (length self.now ≡ 0) }
    {
        self.oids.is_empty()
    }

    pub fn as_slice(&self) -> &[Oid]
        ensures { result.now ≡ self.now }
    {
        &self.oids
    }

    /// Adds an OID at the end.
    pub fn push(&mut self, oid: Oid) -> Result<(), AllocError>
        ensures ok { OnOk result (self.new ≡ self.old ++ oid ∷ []) }
        ensures err { OnErr result (self.new ≡ self.old) }
    {
        self.oids.push(oid)?;
        Ok(())
    }

    /// Equal OIDs in a list of their own.
    pub fn to_copy(&self, alloc: Global) -> Result<Self, AllocError>
        ensures { IfOk result (λ o. o ≡ self.now) }
    {
        let oids = Vec::from_slice(alloc, &self.oids)?;
        Ok(Oids { oids })
    }
}
