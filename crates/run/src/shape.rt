ghost use Rattle.std.specs.Prelude.{◌≡◌};
ghost use Rattle.run.specs.Numbers.{settle_number};

/// The right to settle the box in the hand, or to put it back. It is not dropped: one of the two spends it.
pub struct Ticket {
    pub(crate) stamp: (),
}

/// Why nothing was settled.
pub enum Unsettled {
    /// The ticket is handed back.
    EmptyHand(Ticket),
    FeasibleFull,
    UndecidedFull,
}

impl Unsettled {
    /// The number of the refusal.
    pub fn number(&self) -> usize
        ensures { result ≡ settle_number self.now }
    {
        // no discriminants: one of them carries the ticket
        match self {
            Unsettled::EmptyHand(_) => 24,
            Unsettled::FeasibleFull => 25,
            Unsettled::UndecidedFull => 26,
        }
    }
}
