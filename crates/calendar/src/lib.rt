// The calendar: the length of a month in quarter-hours, document 01, "Month file", as 02, Ticket 7, amends it.
#![tactic(auto)]

ghost use Rattle.std.specs.Prelude.{◌≡◌, ◌≤◌};
ghost use Rattle.calendar.specs.Calendar.{leap, days_of, quarters_of};

// The most quarter-hours that a month can have: October's.
pub const MOST_QUARTERS: usize = 2_980;

// The quarter-hours of a month, 96 a day but where the clock changes; 0 where there is no such month, as in the
// definition `quarters_of`: no quarter is below it.
#[tactic(auto, unfolding(crate::specs::Calendar::quarters_of))]
pub fn quarters_of_month(year: u16, month: u8) -> u16
    ensures { result ≡ quarters_of year month }
{
    match month {
        3 => 2_972,
        10 => 2_980,
        _ => 96 * days_of_month(year, month),
    }
}

// The days of a month; 0 where there is no such month.
#[tactic(auto, unfolding(crate::specs::Calendar::days_of))]
fn days_of_month(year: u16, month: u8) -> u16
    ensures value { result ≡ days_of year month }
    ensures upper_bound { result ≤ 31 }
{
    match month {
        2 if is_leap(year) => 29,
        2 => 28,
        4 | 6 | 9 | 11 => 30,
        1..=12 => 31,
        _ => 0,
    }
}

// Whether a year is a leap year.
#[tactic(auto, unfolding(crate::specs::Calendar::leap))]
fn is_leap(year: u16) -> bool
    ensures { result ≡ leap year }
{
    (year % 4 == 0) & (year % 100 != 0) | (year % 400 == 0)
}
