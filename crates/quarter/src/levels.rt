// The number that stands for a level, in a month file and in the C call.
ghost use Rattle.std.specs.Prelude.{◌≡◌};
ghost use Rattle.quarter.specs.Reading.{level_of, level_bit};

use crate::Level;

// The level that a number stands for.
impl From<u64> for Level {
    ghost from_gives = { λ number level. level ≡ level_of number };

    #[tactic(auto, unfolding(crate::specs::Reading::level_of))]
    fn from(number: u64) -> Level {
        if number == 0 {
            return Level::Kv220;
        }
        Level::Kv380
    }
}

// The bit that stands for a level.
impl From<Level> for u64 {
    ghost from_gives = { λ level bit. bit ≡ level_bit level };

    fn from(level: Level) -> u64 {
        match level {
            Level::Kv220 => 0,
            Level::Kv380 => 1,
        }
    }
}
