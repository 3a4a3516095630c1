// The last line of a statement: the total of the lines that are printed above it.
#![tactic(auto)]

ghost use Rattle.std.specs.Prelude.{◌≡◌, ◌+◌, ◌^◌, ◌<◌, take};
ghost use Rattle.worth.specs.Figures.{Column};
ghost use Rattle.statement_total.specs.Total.{figure_of, line_with, total_line, Addable};

use statement_text::{Line, NO_FIGURES};

// The sum of each column over the first lines, as many as are counted; a count past the eight places
// takes all eight.
pub fn total_of(lines: [Line; 8], count: usize) -> Line
    requires { Addable lines }
    ensures { result ≡ total_line (take count lines) }
{
    let mut total = NO_FIGURES;
    let counted = &lines[..count.min(8)];
    for line in counted {
        total = plus(total, *line);
    }
    total
}

// A total with one line more.
fn plus(total: Line, line: Line) -> Line
    requires { (c : Column) → figure_of total c + figure_of line c < 2 ^ 64 }
    ensures { result ≡ line_with (λ c. figure_of total c + figure_of line c) }
{
    Line {
        absolute: total.absolute + line.absolute,
        paid: total.paid + line.paid,
        free: total.free + line.free,
        billed: total.billed + line.billed,
        allowance: total.allowance + line.allowance,
        disconnected: total.disconnected + line.disconnected,
        credit: total.credit + line.credit,
        debit: total.debit + line.debit,
    }
}
