// Why a job file is refused, and where.

ghost use Rattle.std.specs.Prelude.{◌≡◌};
ghost use Rattle.jobs.specs.Passes.{reason_number};

// In checking order.
#[derive(Clone, Copy, Debug, PartialEq, Eq)]
pub enum Reason {
    Size,
    NotInTable,
    CutShort,
    AfterTheEnd,
    NoRoom,
}

#[derive(Clone, Copy, Debug, PartialEq, Eq)]
pub struct Refusal {
    pub reason: Reason,
    pub place: usize,
}

impl From<Reason> for u8 {
    ghost from_gives = { λ reason number. number ≡ reason_number reason };

    fn from(reason: Reason) -> u8 {
        match reason {
            Reason::Size => 1,
            Reason::NotInTable => 2,
            Reason::CutShort => 3,
            Reason::AfterTheEnd => 4,
            Reason::NoRoom => 5,
        }
    }
}
