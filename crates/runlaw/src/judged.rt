ghost use Rattle.std.specs.Prelude.{◌≡◌};
ghost use Rattle.runlaw.specs.Laws.{judging};

use enclosure::enclosure::Enclosure;
use enclosure::judge::judge;
use enclosure::shape::{Judgement, Marked};
use sheet::system::System;
use span::region::Region;

/// What the rows say of a box in one kind of enclosure, with the box's lower middles as the numbers inside.
pub fn judge_at_middles<E: Enclosure>(system: &System, b: &Region) -> Judgement
    ensures { result ≡ judging E.Enclosure system.now b.now }
{
    judge::<E>(system, &Marked::at_middles(b))
}
