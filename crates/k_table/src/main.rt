// Prints the table of the factor K from the rule of 02, Ticket 3, a number a line: the text of the source file that has
// it, `crates/basic_tariff/src/k_factors.rt`, but for where its lines end. Nothing of that table is read here. The test
// command compares the two.
#![tactic(auto)]

ghost use Rattle.std.specs.Prelude.{◌≡◌};
ghost use Rattle.basic_tariff.specs.BasicTariff.{K};

// Standard output, by its number.
const STDOUT_FILENO: i32 = 1;

fn main() {
    heading();
    for share in 0..1_001u64 {
        row(k_of(share));
    }
    io::write_all(STDOUT_FILENO, b"];\n");
}

// What stands above the numbers.
fn heading() {
    io::write_all(
        STDOUT_FILENO,
        b"// The factor K in 600ths for each share from 0 to 1,000 thousandths: 02, Ticket 3.\n",
    );
    io::write_all(
        STDOUT_FILENO,
        b"// The program `k_table` prints this text from the rule.\n",
    );
    io::write_all(
        STDOUT_FILENO,
        b"pub(crate) const K_FACTORS: [u16; 1_001] = [\n",
    );
}

// A number on its line.
fn row(k: u64) {
    io::write_all(STDOUT_FILENO, b"    ");
    io::print_decimal(STDOUT_FILENO, k);
    io::write_all(STDOUT_FILENO, b",\n");
}

// K of a share, in 600ths.
#[tactic(auto, unfolding(basic_tariff::specs::BasicTariff::K))]
fn k_of(share: u64) -> u64
    ensures { result ≡ K share }
{
    if share <= 200 {
        return 0;
    }
    if 800 <= share {
        return 600;
    }
    share - 200
}
