ghost use Rattle.std.specs.Prelude.{◌≡◌, ℕ, ◌+◌, ◌<◌, ◌≤◌};
ghost use Rattle.list.specs.Lists.{items, room, free};
ghost use Rattle.runlaw.specs.Numbers.{open_number};
ghost use Rattle.runlaw.specs.Laws.{judging};
ghost use Rattle.runlaw.specs.Steps.{State, Answer, step, take, put_back, settle, verdict, says, Lawful, again, halved, narrowed, spent};
ghost use Rattle.run.specs.Hands.{Keeps};

use crate::lists::Lists;
use crate::method::Method;
use crate::shape::{Ticket, Unsettled};
use contractor::contractor::Contractor;
use contractor::rule::SplittingRule;
use enclosure::enclosure::Enclosure;
use enclosure::shape::Judgement;
use runlaw::judged::judge_at_middles;
use runlaw::shape::{Cause, Filed, Outcome, Refusal, Settled, Verdict};
use sheet::system::System;
use span::region::Region;
use std::marker::Model;

// A split puts two boxes in place of one.
const HALVES: usize = 2;

/// A run of a system over three lists. Below the limit there is room for the settle of a held box.
#[derive(Drop)]
pub struct Run<'r, 's, 'a> {
    system: &'r System<'s>,
    tolerance: u32,
    limit: u32,
    settled: u32,
    hand: Option<Region>,
    lists: Lists<'a>,
}

impl<'r, 's, 'a> Model for Run<'r, 's, 'a> {
    ghost Value = { State };

    ghost view = { λ r. record { system = r.system.now; tolerance = r.tolerance; limit = r.limit; settled = r.settled; hand = r.hand; pending = items r.lists.pending; pending_places = room r.lists.pending; feasible = items r.lists.feasible; feasible_places = room r.lists.feasible; undecided = items r.lists.undecided; undecided_places = room r.lists.undecided } };

    ghost invariant = { λ r. Keeps r.tolerance r.limit r.settled r.hand };
}

/// The lists of a run that was not opened.
#[derive(Drop)]
pub struct Unopened<'a> {
    pub lists: Lists<'a>,
}

impl<'a> Unopened<'a> {
    /// The number of the refusal.
    pub fn number(&self) -> usize
        ensures { result ≡ open_number }
    {
        // no enum: opening is refused in one way
        20
    }
}

impl<'r, 's, 'a> Run<'r, 's, 'a> {
    ghost use Rattle.run.specs.Runs.{take_says, put_says, settle_says, Opening};
    ghost use Rattle.run.specs.Filing.{fate_of, met_filed, undecided_filed, unsure_filed};

    /// Empties the lists and makes the starting box pending. Refused, with the lists as they were, where the
    /// tolerance is not 1 to 2147483647, the box has not the system's n, or the pending list has no place.
    pub fn open(
        system: &'r System<'s>,
        start: Region,
        tolerance: u32,
        limit: u32,
        lists: Lists<'a>,
    ) -> Result<Run<'r, 's, 'a>, Unopened<'a>>
        ensures { Opening system.now start tolerance limit lists.entry result }
    {
        if !(1..=2147483647).contains(&tolerance)
            || start.n != system.n()
            || lists.pending.places() < 1
        {
            return Err(Unopened { lists });
        }
        let mut lists = lists;
        lists.pending.clear();
        lists.feasible.clear();
        lists.undecided.clear();
        let _ = lists.pending.add(start);
        Ok(Run {
            system,
            tolerance,
            limit,
            settled: 0,
            hand: None,
            lists,
        })
    }

    /// Moves the newest pending box into the hand and gives a ticket for it.
    pub fn take(&mut self) -> Result<Ticket, Refusal>
        ensures left { self.new ≡ (step take self.old).0 }
        ensures answer { take_says result ≡ (step take self.old).1 }
    {
        if self.hand.is_some() {
            return Err(Refusal::HandFull);
        }
        if self.lists.pending.is_empty() {
            return Err(Refusal::NothingPending);
        }
        if self.settled >= self.limit {
            return Err(Refusal::AtLimit);
        }
        self.hand = self.lists.pending.pop();
        Ok(Ticket { stamp: () })
    }

    /// Spends the ticket and returns the held box, as taken, to the end of the pending list.
    /// With an empty hand the ticket is handed back.
    pub fn put_back(&mut self, ticket: Ticket) -> Result<(), Ticket>
        ensures left { self.new ≡ (step put_back self.old).0 }
        ensures answer { put_says result ≡ (step put_back self.old).1 }
    {
        let Some(b) = self.hand else {
            return Err(ticket);
        };
        let Ticket { stamp: _ } = ticket;
        self.return_box(b);
        Ok(())
    }

    // The box as taken is pending again, at the end.
    fn return_box(&mut self, b: Region)
        ensures { self.new ≡ again self.old b }
    {
        self.hand = None;
        let _ = self.lists.pending.add(b);
    }

    // The held box is spent, and counted.
    fn spend(&mut self, outcome: Outcome) -> Settled
        requires { self.old.settled < self.old.limit }
        ensures left { self.new ≡ spent self.old }
        ensures what { result.outcome ≡ outcome }
        ensures count { result.count ≡ self.old.settled + 1 }
    {
        let count = self.settled + 1;
        (self.settled, self.hand) = (count, None);
        Settled { outcome, count }
    }

    // c is met.
    fn file_met(&mut self, c: Region) -> Result<Outcome, Unsettled>
        ensures left { self.new ≡ (met_filed self.old c).0 }
        ensures answer { fate_of result ≡ (met_filed self.old c).1 }
    {
        self.lists
            .feasible
            .add(c)
            .map_err(|_| Unsettled::FeasibleFull)?;
        Ok(Outcome::Feasible)
    }

    // c is to be filed undecided.
    fn file_undecided(
        &mut self,
        c: Region,
        cause: Cause,
        outcome: Outcome,
    ) -> Result<Outcome, Unsettled>
        ensures left { self.new ≡ (undecided_filed self.old c cause outcome).0 }
        ensures answer { fate_of result ≡ (undecided_filed self.old c cause outcome).1 }
    {
        self.lists
            .undecided
            .add(Filed { region: c, cause })
            .map_err(|_| Unsettled::UndecidedFull)?;
        Ok(outcome)
    }

    // The halves of c are pending, the upper put first, so that the lower is taken next.
    fn put_halves(&mut self, c: Region, j: usize)
        requires { 2 ≤ free self.old.pending_places self.old.pending }
        ensures { self.new ≡ halved self.old c j }
    {
        let (lower, upper) = c.split(j);
        let _ = self.lists.pending.add(upper);
        let _ = self.lists.pending.add(lower);
    }

    // c is unsure, and the rule has named a variable or none.
    fn file_unsure(&mut self, c: Region, named: Option<usize>) -> Result<Outcome, Unsettled>
        ensures left { self.new ≡ (unsure_filed self.old c named).0 }
        ensures answer { fate_of result ≡ (unsure_filed self.old c named).1 }
    {
        match named {
            None => self.file_undecided(c, Cause::Small, Outcome::Small),
            Some(j) => {
                if self.lists.pending.free() >= HALVES {
                    self.put_halves(c, j);
                    Ok(Outcome::Split)
                } else {
                    self.file_undecided(c, Cause::Crowded, Outcome::Crowded)
                }
            }
        }
    }

    /// Spends the ticket and settles the held box: narrowed, judged in the enclosure kind E, then filed, split or
    /// discarded. With an empty hand the ticket is handed back; where the list to file it in is full, the box as
    /// taken is pending again.
    pub fn settle<C: Contractor, R: SplittingRule, E: Enclosure>(
        &mut self,
        ticket: Ticket,
        method: &Method<C, R>,
    ) -> Result<Settled, Unsettled>
        ensures left { self.new ≡ (step (settle (C.Contractor.narrowed method.now.contractor) (R.SplittingRule.named method.now.rule) (judging E.Enclosure)) self.old).0 }
        ensures answer { settle_says result ≡ (step (settle (C.Contractor.narrowed method.now.contractor) (R.SplittingRule.named method.now.rule) (judging E.Enclosure)) self.old).1 }
        ensures lawful { Lawful (settle (C.Contractor.narrowed method.now.contractor) (R.SplittingRule.named method.now.rule) (judging E.Enclosure)) }
    {
        let Some(b) = self.hand else {
            return Err(Unsettled::EmptyHand(ticket));
        };
        let Ticket { stamp: _ } = ticket;
        self.settle_box::<C, R, E>(b, method)
    }

    // The held box b is narrowed, judged and filed.
    fn settle_box<C: Contractor, R: SplittingRule, E: Enclosure>(
        &mut self,
        b: Region,
        method: &Method<C, R>,
    ) -> Result<Settled, Unsettled>
        requires { self.old.settled < self.old.limit }
        ensures left { self.new ≡ (narrowed self.old (R.SplittingRule.named method.now.rule) (judging E.Enclosure) b (C.Contractor.narrowed method.now.contractor self.old.system b)).0 }
        ensures answer { settle_says result ≡ (narrowed self.old (R.SplittingRule.named method.now.rule) (judging E.Enclosure) b (C.Contractor.narrowed method.now.contractor self.old.system b)).1 }
    {
        let filed = match method.contractor.narrow(self.system, &b) {
            None => Ok(Outcome::Discarded),
            Some(c) => match judge_at_middles::<E>(self.system, &c) {
                Judgement::Met => self.file_met(c),
                Judgement::Broken => Ok(Outcome::Discarded),
                Judgement::Unsure => {
                    let named = method.rule.name(&c, self.tolerance);
                    self.file_unsure(c, named)
                }
            },
        };
        match filed {
            Ok(outcome) => Ok(self.spend(outcome)),
            Err(unsettled) => {
                self.return_box(b);
                Err(unsettled)
            }
        }
    }

    /// What is known of the starting box so far.
    pub fn verdict(&self) -> Verdict
        ensures { says result ≡ (step verdict self.now).1 }
    {
        if !self.lists.feasible.is_empty() {
            return Verdict::Some;
        }
        if !self.lists.pending.is_empty() || self.hand.is_some() {
            return Verdict::Unfinished;
        }
        if !self.lists.undecided.is_empty() {
            return Verdict::Unsure;
        }
        Verdict::None
    }

    /// The pending boxes, oldest first.
    pub fn pending(&self) -> &[Region]
        ensures { result.now ≡ self.now.pending }
    {
        self.lists.pending.items()
    }

    /// The feasible boxes, oldest first.
    pub fn feasible(&self) -> &[Region]
        ensures { result.now ≡ self.now.feasible }
    {
        self.lists.feasible.items()
    }

    /// The undecided boxes, oldest first.
    pub fn undecided(&self) -> &[Filed]
        ensures { result.now ≡ self.now.undecided }
    {
        self.lists.undecided.items()
    }

    /// How many boxes have been settled.
    pub fn settled(&self) -> u32
        ensures { result ≡ self.now.settled }
    {
        self.settled
    }
}
