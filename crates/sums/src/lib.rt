// Sums over bids and lines: what changes hands in a pool, and the welfare of accepted amounts.
// Other crates sum what they have judged. Where counts or lengths do not fit, every sum here is 0; welfare also where an amount is above the limit on
// a bid's size. So each sum is a number for every input, and a caller that has judged its tables meets no second refusal.
// A sum takes the slices that it reads, and no book: its callers have parts of books, such as the amounts of a sheet without any flows.
#![tactic(auto)]

ghost use Rattle.std.specs.Prelude.{◌≡◌, ◌<◌, true, map, length, nat_abs};
ghost use Rattle.definitions.specs.Checks.{clearing_of};
ghost use Rattle.definitions.specs.Clearing as clearing;
ghost use Rattle.definitions.specs.RunningSum.{sales_welfare};
ghost use Rattle.sums.specs.BidsOnly.{bids_only};
ghost use Rattle.sums.specs.Pools.{TablesFit, ChangesHands, PoolSummed};
ghost use Rattle.sums.specs.SummedWelfare.{summed};

use crate::pools::{carried, is_summable, side_in};
use crate::side::Side;
use crate::values::{do_amounts_fit, sum_values, write_sizes};
use definitions::Limits;

mod pools;
mod side;
mod values;

// What changes hands in a pool: accepted sales and purchases, inflow and outflow.
#[derive(Clone, Copy, Default)]
pub struct PoolSums {
    pub sold: usize,
    pub bought: usize,
    pub inflow: usize,
    pub outflow: usize,
}

// What changes hands in a pool, where the tables fit.
fn fitting_sums(m: usize, p: usize, bids: &[i32], amounts: &[i32], flows: &[i32]) -> PoolSums
    requires tables_fit { TablesFit m (length bids.now) (length amounts.now) (length flows.now) }
    requires p_lt_m { p < m }
    ensures { ChangesHands true (bids_only (length amounts.now) m bids.now) (clearing_of m amounts.now flows.now) p result.sold result.bought result.inflow result.outflow }
{
    PoolSums {
        sold: side_in(Side::Sales, p, bids, amounts),
        bought: side_in(Side::Purchases, p, bids, amounts),
        inflow: carried(p, m, m, flows),
        outflow: carried(p * m, 1, m, flows),
    }
}

// What changes hands in pool p, from 0, under the amounts and flows sent, each by its size.
pub fn pool_sums(m: usize, p: usize, bids: &[i32], amounts: &[i32], flows: &[i32]) -> PoolSums
    ensures { PoolSummed m p bids.now amounts.now flows.now result.sold result.bought result.inflow result.outflow }
{
    if !is_summable(m, p, bids.len(), amounts.len(), flows.len()) {
        return PoolSums::default();
    }
    fitting_sums(m, p, bids, amounts, flows)
}

// The welfare of accepted amounts, in hundredths, summed sales first: that of the sales alone, which is the running sum after the last sale, and the
// whole by formula (1) of document 003, at which the sum ends.
#[derive(Clone, Copy, Default)]
pub struct WelfareSums {
    pub sales: i64,
    pub whole: i64,
}

// Sums the welfare. Three functions promise it as `summed`: `sum_values` where the amounts fit, this one for all, and `welfare_sent` the whole of amounts
// sent as signed numbers.
pub fn welfare(bids: &[i32], accepted: &[u32]) -> WelfareSums
    ensures sales { result.sales ≡ summed sales_welfare bids.now accepted.now }
    ensures whole { result.whole ≡ summed clearing.welfare bids.now accepted.now }
{
    if !do_amounts_fit(bids, accepted) {
        return WelfareSums::default();
    }
    sum_values(bids, accepted)
}

// The welfare of amounts sent as signed numbers, each by its size.
pub fn welfare_sent(bids: &[i32], amounts: &[i32]) -> i64
    ensures { result ≡ summed clearing.welfare bids.now (map nat_abs amounts.now) }
{
    let count = amounts.len();
    if Limits::BIDS < count {
        return 0;
    }
    // No heap: there is room for the sizes of as many amounts as a book has bids.
    let mut room = [0; Limits::BIDS];
    let sizes = &mut room[..count];
    write_sizes(amounts, sizes);
    welfare(bids, sizes).whole
}
