// Why a call refuses, by the number that a caller in C is told.
#![tactic(auto)]

ghost use Rattle.std.specs.Prelude.{◌≡◌};
ghost use Rattle.refusal.specs.Refusal.{number, number_of};

// In the order of their numbers, from 1 on.
#[derive(Clone, Copy, PartialEq, Eq)]
pub enum Refusal {
    ImageShort = 1,
    ImageLong,
    WorkShort,
    NoValid,
    OutputShort,
    NotSound,
    NotValid,
    Full,
    SystemLimit,
    CommonLimit,
    LastMove,
    MovedOver,
    BankOver,
    BankLength,
    ValueLong,
    LogNumber,
    LogOrder,
    LogLength,
    RateRange,
    LogWindow,
}

impl Refusal {
    pub fn number(self) -> u32
        ensures { result ≡ number self }
    {
        self as u32
    }
}

// A call's number: 0 where it is accepted.
pub fn number_of<T: Drop>(answer: Result<T, Refusal>) -> u32
    ensures { result ≡ number_of answer }
{
    match answer {
        Ok(_) => 0,
        Err(refusal) => refusal.number(),
    }
}
