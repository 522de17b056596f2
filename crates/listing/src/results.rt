// The opened results of a book, read by bid, line and pool.
ghost use Rattle.std.specs.Prelude.{◌≡◌, ◌<◌, length};
ghost use Rattle.definitions.specs.Calls.{result_at, flow_place, pool_place, pool_hundredths_place, presence_place};
ghost use Rattle.definitions.specs.Sheet.{result_count};
ghost use Rattle.listing.specs.Prices.{priced};

use definitions::{Counts, Limits, price_in_hundredths};

// The opened results of a book of these counts, as they are lent: accepted amounts, flows by rows, and each pool's price, hundredths and
// presence.
#[derive(Clone, Copy)]
pub(crate) struct Results<'a> {
    pub(crate) counts: Counts,
    pub(crate) numbers: &'a [i32],
    ghost complete: { length numbers.now ≡ result_count counts.n counts.m },
}

impl Results<'_> {
    // What bid i has accepted.
    pub(crate) fn amount(&self, i: usize) -> i32
        requires { i < self.now.counts.n }
        ensures { result ≡ result_at self.now.numbers.now i }
    {
        self.numbers[i]
    }

    // The flow from pool a to pool b.
    pub(crate) fn flow(&self, a: usize, b: usize) -> i32
        requires { (a < self.now.counts.m) × (b < self.now.counts.m) }
        ensures { result ≡ result_at self.now.numbers.now (flow_place self.now.counts.n self.now.counts.m a b) }
    {
        self.numbers[self.counts.n + (a * self.counts.m + b)]
    }

    // Pool p's price in hundredths, where it has one.
    pub(crate) fn price(&self, p: usize) -> Option<i64>
        requires { p < self.now.counts.m }
        ensures { result ≡ priced (result_at self.now.numbers.now (pool_place self.now.counts.n self.now.counts.m p)) (result_at self.now.numbers.now (pool_hundredths_place self.now.counts.n self.now.counts.m p)) (result_at self.now.numbers.now (presence_place self.now.counts.n self.now.counts.m p)) }
    {
        let at = self.counts.n + self.counts.lines() + Limits::POOL_RESULTS * p;
        let price = price_in_hundredths(
            self.numbers[at],
            self.numbers[at + Limits::HUNDREDTHS_RESULT],
        );
        let presence = self.numbers[at + Limits::PRESENCE_RESULT];
        (0 < presence).then_some(price)
    }
}
