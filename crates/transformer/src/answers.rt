// The number of each refusal.
ghost use Rattle.std.specs.Prelude.{◌≡◌};
ghost use Rattle.transformer.specs.Numbers.{number_of};

use crate::ConversionRefusal;

// 02's number.
impl From<ConversionRefusal> for u32 {
    ghost from_gives = { λ refusal number. number ≡ number_of refusal };

    fn from(refusal: ConversionRefusal) -> u32 {
        match refusal {
            ConversionRefusal::OutOfRange => 14,
            ConversionRefusal::Implausible => 15,
        }
    }
}
