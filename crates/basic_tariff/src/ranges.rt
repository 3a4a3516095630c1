// What is turned away.
ghost use Rattle.std.specs.Prelude.{◌≡◌};
ghost use Rattle.std.specs.List.{list_any, zip};
ghost use Rattle.basic_tariff.specs.BasicTariff.{point, point_refused, refused};

// Whether tariff or count is out of range, a counted point has no place in a slice, or is itself turned away.
#[tactic(auto, unfolding(crate::specs::BasicTariff::refused, crate::specs::BasicTariff::call_refused))]
pub(crate) fn is_refused(fixed_tariff: u32, points: u32, drawn: &[u64], fed_in: &[u64]) -> bool
    ensures { result ≡ refused fixed_tariff points drawn.now fed_in.now }
{
    let count = points as usize;
    if (100_000_000 < fixed_tariff)
        | (count < 1)
        | (8 < count)
        | (drawn.len() < count)
        | (fed_in.len() < count)
    {
        return true;
    }
    any_refused(&drawn[..count], &fed_in[..count])
}

// Whether one of the points is turned away.
fn any_refused(drawn: &[u64], fed_in: &[u64]) -> bool
    ensures { result ≡ list_any (λ p. point_refused (point p.0 p.1)) (zip drawn.now fed_in.now) }
{
    drawn
        .iter()
        .zip(fed_in)
        .any(|(drawn, fed_in)| point_refused(*drawn, *fed_in))
}

// Whether an energy of the point is out of range, or both are 0.
#[tactic(auto, unfolding(crate::specs::BasicTariff::point_refused))]
fn point_refused(drawn: u64, fed_in: u64) -> bool
    ensures { result ≡ point_refused (point drawn fed_in) }
{
    (1_000_000_000_000 < drawn) | (1_000_000_000_000 < fed_in) | ((drawn == 0) & (fed_in == 0))
}
