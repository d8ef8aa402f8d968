ghost use Rattle.std.specs.Prelude.{◌≡◌};
ghost use Rattle.contractor.specs.Layers.{then_of, then_laws, until, until_laws, turns};

use crate::contractor::Contractor;
use sheet::system::System;
use span::region::Region;

/// One contractor after another.
#[derive(Clone, Debug, Drop)]
pub struct Then<A, B> {
    pub first: A,
    pub second: B,
}

impl<A: Contractor, B: Contractor> Contractor for Then<A, B> {
    ghost narrowed = { λ t. then_of (A.Contractor.narrowed t.first) (B.Contractor.narrowed t.second) };

    ghost laws = { λ t. then_laws (A.Contractor.laws t.first) (B.Contractor.laws t.second) };

    fn narrow(&self, system: &System, b: &Region) -> Option<Region> {
        let c = self.first.narrow(system, b)?;
        self.second.narrow(system, &c)
    }
}

/// How often a contractor is applied at most: k, brought into 1 to 16.
pub fn rounds(k: u8) -> u8
    ensures { result ≡ turns k }
{
    k.clamp(1, 16)
}

/// A contractor again and again: up to `most` times, stopping at none or at a round that leaves the box as it was.
#[derive(Clone, Debug, Drop)]
pub struct Until<A> {
    pub inner: A,
    pub most: u8,
}

impl<A: Contractor> Contractor for Until<A> {
    ghost narrowed = { λ t. until (turns t.most) (A.Contractor.narrowed t.inner) };

    ghost laws = { λ t. until_laws (turns t.most) (A.Contractor.laws t.inner) };

    fn narrow(&self, system: &System, b: &Region) -> Option<Region> {
        let k = rounds(self.most);
        let mut cur = *b;
        for _i in 0..k {
            let c = self.inner.narrow(system, &cur)?;
            if c.same(&cur) {
                return Some(c);
            }
            cur = c;
        }
        Some(cur)
    }
}
