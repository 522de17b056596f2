// The welfare of accepted amounts: whether it can be summed, and its sum, sales first; the sizes of amounts sent as signed numbers.
ghost use Rattle.std.specs.Prelude.{◌≡◌, map, ◌+◌, ◌*◌, ◌≤◌, length, nat_abs};
ghost use Rattle.definitions.specs.Limits.{bid_limit, quantity_limit};
ghost use Rattle.definitions.specs.Book.{in_hundredths};
ghost use Rattle.definitions.specs.Clearing as clearing;
ghost use Rattle.definitions.specs.RunningSum.{sales_welfare};
ghost use Rattle.sums.specs.Sides.{side_part, sum_of_side, value_limit};
ghost use Rattle.sums.specs.SummedWelfare.{AmountsFit, amounts_small, amounts_fit, summed};

use crate::WelfareSums;
use crate::side::Side;
use definitions::{Limits, price_in_hundredths};

// What one bid adds to the sum of a side, 0 if it is on the other: its price in hundredths × accepted, which is taken off for a sale. The bid's numbers
// come as the table has them.
fn part_of(side: Side, price: i32, quantity: i32, hundredths: i32, accepted: u32) -> i64
    requires { accepted ≤ quantity_limit }
    ensures { result ≡ side_part side (in_hundredths price hundredths) quantity accepted }
{
    if !side.has(quantity) {
        return 0;
    }
    let value = price_in_hundredths(price, hundredths) * accepted as i64;
    match side {
        Side::Sales => -value,
        Side::Purchases => value,
    }
}

// No amount is above the limit on a bid's size.
fn are_small(accepted: &[u32]) -> bool
    ensures { result ≡ amounts_small accepted.now }
{
    accepted.iter().all(|x| *x <= Limits::QUANTITY as u32)
}

// Whether the welfare can be summed in 64 bits.
#[tactic(auto, unfolding(crate::specs::SummedWelfare::amounts_fit))]
pub fn do_amounts_fit(bids: &[i32], accepted: &[u32]) -> bool
    ensures { result ≡ amounts_fit bids.now accepted.now }
{
    accepted.len() <= Limits::BIDS
        && bids.len() == Limits::BID_NUMBERS * accepted.len()
        && are_small(accepted)
}

// Goes on with the running sum: adds the bids of one side, by bid number. The invariant is that the total is document 02's running sum after the bids
// passed. So it is a `for`: a sum of signed numbers may leave its limits on the way, and the invariant says that this one does not.
fn add_side(side: Side, table: &[i32], accepted: &[u32], start: i64) -> i64
    requires fit { AmountsFit table.now accepted.now }
    requires begun { start ≡ sum_of_side side table.now accepted.now 0 }
    requires start_small { nat_abs start ≤ bid_limit * value_limit }
    ensures sum { result ≡ sum_of_side side table.now accepted.now (length accepted.now) }
    ensures small { nat_abs result ≤ nat_abs start + bid_limit * value_limit }
{
    let (bids, _) = table.as_chunks::<{ Limits::BID_NUMBERS }>();
    let mut total = start;
    for (i, &[_, price, quantity, hundredths]) in bids.iter().enumerate() {
        let part = part_of(side, price, quantity, hundredths, accepted[i]);
        total += part;
    }
    total
}

// Sums all sales, then all purchases, each by bid number.
pub fn sum_values(table: &[i32], accepted: &[u32]) -> WelfareSums
    requires { AmountsFit table.now accepted.now }
    ensures sales { result.sales ≡ summed sales_welfare table.now accepted.now }
    ensures whole { result.whole ≡ summed clearing.welfare table.now accepted.now }
{
    let sales = add_side(Side::Sales, table, accepted, 0);
    let whole = add_side(Side::Purchases, table, accepted, sales);
    WelfareSums { sales, whole }
}

// Writes the sizes of numbers. Sealing has this loop for residues; one that is given the function would say more in its contract than both loops do.
pub fn write_sizes(numbers: &[i32], sizes: &mut [u32])
    requires { length sizes.old ≡ length numbers.now }
    ensures { sizes.new ≡ map nat_abs numbers.now }
{
    for (i, size) in sizes.iter_mut().enumerate() {
        let number = numbers[i];
        *size = number.unsigned_abs();
    }
}
