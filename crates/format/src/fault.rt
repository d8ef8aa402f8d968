ghost use Rattle.std.specs.Prelude.{◌≡◌};
ghost use Rattle.format.specs.declared.fault.SheetFault.TheVariants.{Field as InField};
ghost use Rattle.format.specs.Faults.{field_number, field_place, number, place};

// What the field reader refuses, with the field's place.
#[derive(Clone, Copy, Debug, PartialEq, Eq)]
pub enum FieldFault {
    Short(usize),
    UnknownTag(usize),
    WrongLength(usize),
}

// What the sheet reader refuses. A field's fault travels whole.
#[derive(Clone, Copy, Debug, PartialEq, Eq)]
pub enum SheetFault {
    TooLong,
    Field(FieldFault),
    NotAllowed(usize),
    TooMany(usize),
    OutOfRange(usize),
    NameTaken(usize),
    Trailing(usize),
    NoRoom(usize),
}

impl From<FieldFault> for SheetFault {
    ghost from_gives = { λ f r. r ≡ InField f };

    fn from(fault: FieldFault) -> SheetFault {
        SheetFault::Field(fault)
    }
}

impl FieldFault {
    // the numbers are no discriminants: a fault that carries its place cannot be cast
    pub fn number(self) -> usize
        ensures { result ≡ field_number self }
    {
        match self {
            FieldFault::Short(_) => 2,
            FieldFault::UnknownTag(_) => 3,
            FieldFault::WrongLength(_) => 5,
        }
    }

    pub fn place(self) -> usize
        ensures { result ≡ field_place self }
    {
        match self {
            FieldFault::Short(p) | FieldFault::UnknownTag(p) | FieldFault::WrongLength(p) => p,
        }
    }
}

impl SheetFault {
    pub fn number(self) -> usize
        ensures { result ≡ number self }
    {
        match self {
            SheetFault::TooLong => 1,
            SheetFault::Field(f) => f.number(),
            SheetFault::NotAllowed(_) => 4,
            SheetFault::TooMany(_) => 7,
            SheetFault::OutOfRange(_) => 6,
            SheetFault::NameTaken(_) => 8,
            SheetFault::Trailing(_) => 10,
            SheetFault::NoRoom(_) => 9,
        }
    }

    pub fn place(self) -> usize
        ensures { result ≡ place self }
    {
        match self {
            SheetFault::TooLong => 4096,
            SheetFault::Field(f) => f.place(),
            SheetFault::NotAllowed(p)
            | SheetFault::TooMany(p)
            | SheetFault::OutOfRange(p)
            | SheetFault::NameTaken(p)
            | SheetFault::Trailing(p)
            | SheetFault::NoRoom(p) => p,
        }
    }
}
