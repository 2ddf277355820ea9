ghost use Rattle.std.specs.Prelude.{◌≡◌, IfOk};

use crate::type_info::PgTypeInfo;
use std::alloc::{AllocError, Global};

/// A type that is known by its name alone, and the place of the four bytes that its OID will take among the encoded arguments.
#[derive(Debug, Drop)]
pub struct Hole {
    pub place: u64,
    pub of: PgTypeInfo,
}

impl Hole {
    // An equal one.
    fn to_copy(&self, alloc: Global) -> Result<Self, AllocError>
        ensures { IfOk result (λ h. h ≡ self.now) }
    {
        let of = self.of.to_copy(alloc)?;
        Ok(Hole {
            place: self.place,
            of,
        })
    }
}

/// Equal ones.
pub(crate) fn copied_holes(alloc: Global, holes: &[Hole]) -> Result<Vec<Hole>, AllocError>
    ensures { IfOk result (λ copies. copies.items ≡ holes.now) }
{
    let mut copies = Vec::new(alloc);
    for hole in holes {
        copies.push(hole.to_copy(alloc)?)?;
    }
    Ok(copies)
}
