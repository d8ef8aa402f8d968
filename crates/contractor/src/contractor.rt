ghost use Rattle.std.specs.Prelude.{◌≡◌};
ghost use Rattle.contractor.specs.Laws.{Narrowing, ContractorLaws};

use sheet::system::System;
use span::region::Region;

// A contractor narrows a box to a part that holds every point of it that meets all rows, or answers that there is no such point.
// Its meaning is a fixed function of system and box; the box that it is given stays as it is.
pub trait Contractor {
    ghost narrowed: { Self → Narrowing };

    ghost laws: { (c : Self) → ContractorLaws (narrowed c) };

    fn narrow(&self, system: &System, b: &Region) -> Option<Region>
        ensures { result ≡ narrowed self.now system.now b.now };
}

// A lent contractor narrows as the one that is lent.
impl<'c, C: Contractor> Contractor for &'c C {
    ghost narrowed = { λ c. C.Contractor.narrowed c.now };

    ghost laws = { λ c. C.Contractor.laws c.now };

    fn narrow(&self, system: &System, b: &Region) -> Option<Region> {
        (**self).narrow(system, b)
    }
}
