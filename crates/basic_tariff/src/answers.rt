// The number of a refusal.
ghost use Rattle.std.specs.Prelude.{◌≡◌};
ghost use Rattle.basic_tariff.specs.Numbers.{number_of};

use crate::ChargeRefusal;

// 02's number.
impl From<ChargeRefusal> for u32 {
    ghost from_gives = { λ refusal number. number ≡ number_of refusal };

    fn from(refusal: ChargeRefusal) -> u32 {
        match refusal {
            ChargeRefusal::OutOfRange => 16,
        }
    }
}
