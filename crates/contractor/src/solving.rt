ghost use Rattle.std.specs.Prelude.{◌≡◌, IfSome, MatchOption};
ghost use Rattle.span.specs.Regions.{Narrower};
ghost use Rattle.enclosure.specs.Rows.{lines};
ghost use Rattle.contractor.specs.Layers.{UntilIsTimes};
ghost use Rattle.enclosure.specs.Points.{Point, Lies, MetAll};

use crate::contractor::Contractor;
use sheet::system::System;
use span::region::Region;

/// A box narrowed by any contractor; one repeated until the box stays is as good as one repeated to the end. For a box with as many variables as the system has, the answer lies inside it, holds every point of it that meets all rows, and is none only where there is no such point.
pub fn narrowed_by<C: Contractor>(c: &C, system: &System, b: &Region) -> Option<Region>
    ensures answer { result ≡ C.Contractor.narrowed c.now system.now b.now }
    ensures inside { b.now.n ≡ system.now.n → IfSome result (λ d. Narrower d b.now) }
    ensures kept { b.now.n ≡ system.now.n → (p : Point) → Lies p b.now → MetAll p (lines system.now) → MatchOption result ⊥ (λ d. Lies p d) }
    ensures iterated { UntilIsTimes }
{
    c.narrow(system, b)
}
