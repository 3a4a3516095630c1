// Stored totals beside sums afresh.
ghost use Rattle.std.specs.Prelude.{◌≡◌};
ghost use Rattle.audit.specs.Audit.{all_same};

use worth::Figures;

// Whether the figures of all places are equal.
pub fn are_equal(a: [Figures; 8], b: [Figures; 8]) -> bool
    ensures { result ≡ all_same a b }
{
    a == b
}
