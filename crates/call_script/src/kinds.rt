// The kinds of calls.
ghost use Rattle.call_script.specs.Kinds.{IsKindOf};

// A kind of call, by the byte that a call in a script begins with.
#[derive(Clone, Copy, Debug, PartialEq, Eq)]
pub enum CallKind {
    Deliver,
    TakeBack,
    Close,
    Totals,
}

// A byte that begins no call.
#[derive(Clone, Copy, Debug, PartialEq, Eq)]
pub struct UnknownCall(pub u8);

impl TryFrom<u8> for CallKind {
    type Error = UnknownCall;

    ghost try_from_gives = { IsKindOf };

    fn try_from(byte: u8) -> Result<Self, UnknownCall> {
        match byte {
            0 => Ok(CallKind::Deliver),
            1 => Ok(CallKind::TakeBack),
            2 => Ok(CallKind::Close),
            3 => Ok(CallKind::Totals),
            _ => Err(UnknownCall(byte)),
        }
    }
}
