// The classification of one quarter-hour.
ghost use Rattle.std.specs.Prelude.{◌≡◌};
ghost use Rattle.reactive.specs.QuarterHour.{arguments, called};

// Answers 0 and puts the five shares into the first 40 bytes of `shares`; or 5 for an argument out
// of range, or 13 for a slice under 40 bytes, and leaves the slice as it is.
#[unsafe(no_mangle)]
pub extern "C" fn reactive_classify(
    role: u32,
    level: u32,
    band: u32,
    lamp: u32,
    take: u32,
    supply: u32,
    actual: u32,
    set: u32,
    shares: &mut [u8],
) -> u32
    ensures { (result, shares.new) ≡ called (arguments role level band lamp take supply actual set) shares.old }
{
    reactive::reactive_classify(role, level, band, lamp, take, supply, actual, set, shares)
}
