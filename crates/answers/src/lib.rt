// What calls answer: what each hands back, or a refusal, and the number of each refusal in documents 01 and 02.
#![tactic(auto)]

ghost use Rattle.std.specs.Prelude.{◌≡◌};
ghost use Rattle.answers.specs.Numbers.{number_of, answered};

// The refusals of 01, and those of 02 that calls on a book have.
#[derive(Clone, Copy, Debug, PartialEq, Eq)]
pub enum Refusal {
    TooShort,
    WrongHeader,
    WrongLength,
    WrongPoint,
    Unreadable,
    Outside,
    Unsound,
    AlreadyClosed,
    NotAbove,
    Full,
    Empty,
    ShortOutput,
    ShortIndex,
}

// The documents' number.
impl From<Refusal> for u32 {
    ghost from_gives = { λ refusal number. number ≡ number_of refusal };

    fn from(refusal: Refusal) -> u32 {
        match refusal {
            Refusal::TooShort => 1,
            Refusal::WrongHeader => 2,
            Refusal::WrongLength => 3,
            Refusal::WrongPoint => 4,
            Refusal::Unreadable => 5,
            Refusal::Outside => 6,
            Refusal::Unsound => 7,
            Refusal::AlreadyClosed => 8,
            Refusal::NotAbove => 9,
            Refusal::Full => 10,
            Refusal::Empty => 11,
            Refusal::ShortOutput => 13,
            Refusal::ShortIndex => 17,
        }
    }
}

// The number that a call answers: 0 where it was accepted.
pub fn answered<T>(answer: &Result<T, Refusal>) -> u32
    ensures { result ≡ answered answer.now }
{
    match answer {
        Ok(_) => 0,
        Err(refusal) => u32::from(*refusal),
    }
}
