ghost use Rattle.std.specs.Prelude.{◌≡◌};
ghost use Rattle.contractor.specs.Laws.{Naming, RuleLaws};

use span::region::Region;

// A splitting rule names a variable of a box that is wider than a tolerance, or nothing if none is. Variables are numbered from 0.
pub trait SplittingRule {
    ghost named: { Self → Naming };

    ghost laws: { (c : Self) → RuleLaws (named c) };

    fn name(&self, b: &Region, tolerance: u32) -> Option<usize>
        ensures { result ≡ named self.now b.now tolerance };
}

// A lent rule names what the one that is lent does.
impl<'r, R: SplittingRule> SplittingRule for &'r R {
    ghost named = { λ r. R.SplittingRule.named r.now };

    ghost laws = { λ r. R.SplittingRule.laws r.now };

    fn name(&self, b: &Region, tolerance: u32) -> Option<usize> {
        (**self).name(b, tolerance)
    }
}
