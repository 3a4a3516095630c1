// The squares of signed energies.
ghost use Rattle.std.specs.Prelude.{◌≡◌};
ghost use Rattle.transformer.specs.Steps.{squared_energy};

use crate::LowSide;

// The square of the apparent energy of the low side.
pub(crate) fn squared_energy(low: LowSide) -> u64
    ensures { result ≡ squared_energy low }
{
    let active = u64::from(low.active.unsigned_abs());
    let reactive = u64::from(low.reactive.unsigned_abs());
    active * active + reactive * reactive
}
