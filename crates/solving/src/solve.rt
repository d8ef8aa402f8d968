ghost use Rattle.runlaw.specs.Soundness.{Always, Sound};
ghost use Rattle.runlaw.specs.Endings.{Finished};
ghost use Rattle.solving.specs.Numbers.{stop_number};
ghost use Rattle.runlaw.specs.Laws.{judging};
ghost use Rattle.solving.specs.Solving.{Solved};

use crate::shape::{Ended, Stop};
use contractor::contractor::Contractor;
use contractor::rule::SplittingRule;
use enclosure::enclosure::Enclosure;
use run::lists::Lists;
use run::method::Method;
use run::run::{Run, Unopened};
use run::shape::Unsettled;
use sheet::system::System;
use span::region::Region;

/// Takes and settles until a call is refused, and answers which. The law of an opened run holds of what it leaves.
pub fn finish<C: Contractor, R: SplittingRule, E: Enclosure>(
    run: &mut Run,
    method: &Method<C, R>,
) -> Stop
    ensures ends { Finished (C.Contractor.narrowed method.now.contractor) (R.SplittingRule.named method.now.rule) (judging E.Enclosure) run.old (stop_number result) run.new }
    ensures sound { (y : System) (b : Region) → Always y b run.old → Sound y b run.new run.new.settled }
{
    'rounds: loop {
        let ticket = match run.take() {
            Ok(ticket) => ticket,
            Err(refusal) => return Stop::Untaken(refusal),
        };
        match run.settle::<C, R, E>(ticket, method) {
            Ok(_) => {}
            Err(Unsettled::EmptyHand(_ticket)) => unreachable!(),
            Err(Unsettled::FeasibleFull) => return Stop::FeasibleFull,
            Err(Unsettled::UndecidedFull) => return Stop::UndecidedFull,
        }
    }
}

/// Opens a run over these lists and takes it to its end. Refused as opening is, with the lists as they were.
pub fn solve<'r, 's, 'a, C: Contractor, R: SplittingRule, E: Enclosure>(
    system: &'r System<'s>,
    start: Region,
    tolerance: u32,
    limit: u32,
    lists: Lists<'a>,
    method: &Method<C, R>,
) -> Result<Ended<'r, 's, 'a>, Unopened<'a>>
    ensures { Solved (C.Contractor.narrowed method.now.contractor) (R.SplittingRule.named method.now.rule) (judging E.Enclosure) system.now start tolerance limit lists.entry result }
{
    let mut run = Run::open(system, start, tolerance, limit, lists)?;
    let stop = finish::<C, R, E>(&mut run, method);
    Ok(Ended { run, stop })
}
