ghost use Rattle.std.specs.Prelude.{◌≡◌};
ghost use Rattle.list.specs.Lists.{empty};

use list::lent::List;
use runlaw::shape::Filed;
use span::region::Region;

/// The three lists that a run sorts its boxes into.
#[derive(Drop)]
pub struct Lists<'a> {
    pub pending: List<'a, Region>,
    pub feasible: List<'a, Region>,
    pub undecided: List<'a, Filed>,
}

impl<'a> Lists<'a> {
    /// Empty lists over these places.
    pub fn over(
        pending: &'a mut [Region],
        feasible: &'a mut [Region],
        undecided: &'a mut [Filed],
    ) -> Lists<'a>
        ensures pending { result.pending ≡ empty pending.old }
        ensures feasible { result.feasible ≡ empty feasible.old }
        ensures undecided { result.undecided ≡ empty undecided.old }
    {
        Lists {
            pending: List::over(pending),
            feasible: List::over(feasible),
            undecided: List::over(undecided),
        }
    }
}
