// Sums over the bids of a pool, and over the lines that enter or leave it. Each adds turn by turn, under an invariant that bounds it: the library's
// `sum` asks for that bound of one list, and these lists are made of two slices, or of every m-th number.
// Limits stand in the contracts, and no `Counts`: a sum is also asked of numbers that no judge has passed, and `is_summable` is its test of them.
ghost use Rattle.std.specs.Prelude.{◌≡◌, ℕ, ◌+◌, ◌*◌, ◌<◌, ◌≤◌, length, get_or, pos, nat_abs};
ghost use Rattle.definitions.specs.Limits.{bid_limit, pool_limit, bid_numbers};
ghost use Rattle.definitions.specs.Arithmetic.{on, sum_to};
ghost use Rattle.sums.specs.Pools.{summable, stands, side_in, sum_limit};

use crate::side::Side;
use definitions::Limits;

// Pool p of m, and tables of the lengths that go with so many amounts and with m pools.
#[tactic(auto, unfolding(crate::specs::Pools::summable))]
pub fn is_summable(m: usize, p: usize, bids: usize, amounts: usize, flows: usize) -> bool
    ensures { result ≡ summable m p bids amounts flows }
{
    amounts <= Limits::BIDS
        && m <= Limits::POOLS
        && p < m
        && bids == Limits::BID_NUMBERS * amounts
        && flows == m * m
}

// The size of an amount if its bid stands on one side of a pool, else 0.
fn amount_in(side: Side, number: i32, pool: i32, quantity: i32, amount: i32) -> usize
    ensures { result ≡ on (stands side number pool quantity) (nat_abs amount) }
{
    if side.has(quantity) && pool == number {
        amount.unsigned_abs() as usize
    } else {
        0
    }
}

// The accepted purchases of pool p, from 0, or its accepted sales. Amounts go by the bid's index, by which the sum is
// defined; `zip` gives pairs and no index.
pub fn side_in(side: Side, p: usize, table: &[i32], amounts: &[i32]) -> usize
    requires p_lt_pool_limit { p < pool_limit }
    requires table_len { length table.now ≡ bid_numbers * length amounts.now }
    requires amounts_len_bound { length amounts.now ≤ bid_limit }
    ensures { (result ≡ side_in side table.now amounts.now p) × (result ≤ sum_limit) }
{
    let number = p as i32 + 1;
    let (bids, _) = table.as_chunks::<{ Limits::BID_NUMBERS }>();
    let mut total = 0;
    for (i, &[pool, _, quantity, _]) in bids.iter().enumerate() {
        let amount = amounts[i];
        let part = amount_in(side, number, pool, quantity, amount);
        total += part;
    }
    total
}

// What some lines carry together, a row or a column of their table: the flow of line k stands at k × step + first. `skip`, `step_by` and `take` would
// promise which runs they make, and not at which index each flow stands.
pub fn carried(first: usize, step: usize, count: usize, flows: &[i32]) -> usize
    requires count_le_pool_limit { count ≤ pool_limit }
    requires by_index { (k : ℕ) → k < count → k * step + first < length flows.now }
    ensures { (result ≡ sum_to count (λ k. nat_abs (get_or flows.now (k * step + first) (pos 0)))) × (result ≤ sum_limit) }
{
    let mut total = 0;
    for k in 0..count {
        let flow = flows[k * step + first];
        total += flow.unsigned_abs() as usize;
    }
    total
}
