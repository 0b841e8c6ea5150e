// Why an entry refuses what it was given.
#![tactic(auto)]

ghost use Rattle.std.specs.Prelude.{◌≡◌};
ghost use Rattle.refusal.specs.Numbers.{number_of, row_of, number_told, row_told};

// The refusals of documents 01 and 02, in the order of their numbers. Those that name a row hold it, counted from 1.
#[derive(Clone, Copy, Debug, PartialEq, Eq)]
pub enum Refusal {
    Empty,
    Many,
    Zero(u8),
    Long(u8),
    Order(u8),
    Cycle,
    Tight(u8),
    Room,
    Record,
    Report,
    Stray,
    Size,
    Version,
    Dosing,
    Spans,
}

impl Refusal {
    // The number that document 01 gives it.
    pub fn number(self) -> u8
        ensures { result ≡ number_of self }
    {
        match self {
            Refusal::Empty => 1,
            Refusal::Many => 2,
            Refusal::Zero(_) => 3,
            Refusal::Long(_) => 4,
            Refusal::Order(_) => 5,
            Refusal::Cycle => 6,
            Refusal::Tight(_) => 7,
            Refusal::Room => 8,
            Refusal::Record => 9,
            Refusal::Report => 10,
            Refusal::Stray => 11,
            Refusal::Size => 12,
            Refusal::Version => 13,
            Refusal::Dosing => 14,
            Refusal::Spans => 15,
        }
    }

    // The row that it names, counted from 1, and 0 where it names none.
    pub fn named_row(self) -> u8
        ensures { result ≡ row_of self }
    {
        match self {
            Refusal::Zero(k) | Refusal::Long(k) | Refusal::Order(k) | Refusal::Tight(k) => k,
            _ => 0,
        }
    }
}

// The number that is told of an answer: its refusal's, and 0 where nothing is refused.
pub fn number(refusal: Option<Refusal>) -> u8
    ensures { result ≡ number_told refusal }
{
    refusal.map_or(0, |f| f.number())
}

// The row that is told of an answer: its refusal's, and 0 where nothing is refused.
pub fn named_row(refusal: Option<Refusal>) -> u8
    ensures { result ≡ row_told refusal }
{
    refusal.map_or(0, |f| f.named_row())
}
