//! Where the values of a row stand.
ghost use Rattle.std.specs.Prelude.{◌≡◌, ◌≤◌, take};

use std::fmt;
use std::marker::Model;

/// A row of so many values at most keeps their places without taking memory.
pub(crate) const FEW: usize = 8;

/// Places, in order: contracts see the list.
#[derive(Drop)]
pub(crate) struct Places {
    kept: Kept,
}

// No gap is left between the fields, since it would be moved on its own.
#[derive(Drop)]
enum Kept {
    Few { places: [u32; FEW], count: u32 },
    Many(Vec<u32>),
}

impl Model for Places {
    ghost use Rattle.std.specs.Prelude.{List, ℕ};
    ghost use Rattle.pg_wire.specs.Places.{places_of, AreKept};

    ghost Value = { List ℕ };

    ghost view = { λ p. places_of p.kept };

    ghost invariant = { λ p. AreKept p.kept };
}

impl Places {
    pub(crate) fn few(places: [u32; FEW], count: u16) -> Self
        requires { count ≤ 8 }
        ensures { result ≡ take count places }
    {
        let count = u32::from(count);
        Places {
            kept: Kept::Few { places, count },
        }
    }

    pub(crate) fn many(places: Vec<u32>) -> Self
        ensures { result ≡ places.items }
    {
        Places {
            kept: Kept::Many(places),
        }
    }

    pub(crate) fn as_slice(&self) -> &[u32]
        ensures { result.now ≡ self.now }
    {
        match &self.kept {
            Kept::Few { places, count } => &places[..*count as usize],
            Kept::Many(places) => places.as_slice(),
        }
    }
}

// As a list, whichever it is.
impl fmt::Debug for Places {
    fn fmt<W: fmt::Write>(&self, f: &mut fmt::Formatter<W>) -> fmt::Result {
        f.debug_list().entries(self.as_slice()).finish()
    }
}
