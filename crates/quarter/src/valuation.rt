// What the shares of one quarter-hour are worth.
ghost use Rattle.std.specs.Prelude.{◌≡◌, ◌+◌};
ghost use Rattle.quarter.specs.Reading.{valued};

use crate::{Amounts, Shares, Tariffs};

// Credit for the paid share, debit for the billed one.
#[tactic(auto, unfolding(crate::specs::Reading::valued, crate::specs::Reading::credit_of, crate::specs::Reading::debit_of))]
pub fn value(shares: Shares, tariffs: Tariffs) -> Amounts
    ensures { result ≡ valued shares tariffs }
{
    Amounts {
        credit: shares.paid.times(u64::from(tariffs.payment)),
        debit: shares.billed.times(rate(tariffs.billing, tariffs.penalty)),
    }
}

// The billing tariff with its penalty.
fn rate(billing: u32, penalty: u32) -> u64
    ensures { result ≡ billing + penalty }
{
    u64::from(billing) + u64::from(penalty)
}
