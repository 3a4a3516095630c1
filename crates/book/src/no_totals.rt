// What totals gives beside a refusal.
ghost use Rattle.std.specs.Prelude.{◌≡◌};
ghost use Rattle.book.specs.Library.{no_totals};

use crate::Totals;
use worth::Figures;

impl Totals {
    // No figures and no entries: "Beside a refusal's number every other figure given is 0".
    pub fn none() -> Totals
        ensures { result ≡ no_totals }
    {
        Totals {
            points: [Figures::none(); 8],
            length: 0,
        }
    }
}
