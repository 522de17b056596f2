// The lines that settle prints, and all of them: the listing.
ghost use Rattle.std.specs.Prelude.{◌<◌};
ghost use Rattle.definitions.specs.Settle.{bid_line, flow_line, welfare_line, bid_lines, flow_lines, price_lines, listing, refused_text};
ghost use Rattle.listing.specs.Lines.{row_lines};
ghost use Rattle.listing.specs.Prices.{pool_line};
ghost use Rattle.listing.specs.Page.{Wrote};

use crate::page::Page;
use crate::results::Results;

// The limit of the flows that have a line: "only flows above 0".
const NO_FLOW: i32 = 0;

impl Page<'_> {
    // A bid's line: its number, and its accepted amount.
    pub(crate) fn put_bid(&mut self, bid: usize, accepted: i32)
        ensures { Wrote self.old (bid_line bid accepted) self.new }
    {
        self.put_field(b"bid ", bid);
        self.put_last(i64::from(accepted));
    }

    // The line of a flow between two pools; a flow of 0 has none.
    pub(crate) fn put_flow(&mut self, from: usize, to: usize, flow: i32)
        ensures { Wrote self.old (flow_line from to flow) self.new }
    {
        if NO_FLOW < flow {
            self.put_field(b"line ", from);
            self.put_field(b" ", to);
            self.put_last(i64::from(flow));
        }
    }

    // A pool's line: its price in hundredths, or `none`.
    pub(crate) fn put_price(&mut self, pool: usize, price: Option<i64>)
        ensures { Wrote self.old (pool_line pool price) self.new }
    {
        self.put_field(b"price ", pool);
        match price {
            Some(price) => self.put_last(price),
            None => self.put(b" none\n"),
        }
    }

    // The welfare's line.
    pub(crate) fn put_welfare(&mut self, welfare: i64)
        ensures { Wrote self.old (welfare_line welfare) self.new }
    {
        self.put(b"welfare");
        self.put_last(welfare);
    }

    // A refusal's line: its number and its place. It is not `Reason`'s `Display`: a caller lends any number and place.
    pub(crate) fn put_refused(&mut self, number: usize, place: usize)
        ensures { Wrote self.old (refused_text number place) self.new }
    {
        self.put_field(b"refused ", number);
        self.put_field(b" ", place);
        self.put(b"\n");
    }

    // The lines of all bids. The loops over bids, lines and pools put one line each: one that is given the line as a closure would say more in its
    // contract than they do.
    pub(crate) fn put_bids(&mut self, results: &Results)
        ensures { Wrote self.old (bid_lines results.now.counts.n results.now.numbers.now) self.new }
    {
        for i in 0..results.counts.n {
            self.put_bid(i + 1, results.amount(i));
        }
    }

    // The flows from pool a, counted from 0.
    pub(crate) fn put_row(&mut self, a: usize, results: &Results)
        requires { a < results.now.counts.m }
        ensures { Wrote self.old (row_lines results.now.counts.n results.now.counts.m a results.now.numbers.now) self.new }
    {
        for b in 0..results.counts.m {
            self.put_flow(a + 1, b + 1, results.flow(a, b));
        }
    }

    // The lines of all flows, by rows.
    pub(crate) fn put_flows(&mut self, results: &Results)
        ensures { Wrote self.old (flow_lines results.now.counts.n results.now.counts.m results.now.numbers.now) self.new }
    {
        for a in 0..results.counts.m {
            self.put_row(a, results);
        }
    }

    // The lines of all pools.
    pub(crate) fn put_prices(&mut self, results: &Results)
        ensures { Wrote self.old (price_lines results.now.counts.n results.now.counts.m results.now.numbers.now) self.new }
    {
        for p in 0..results.counts.m {
            self.put_price(p + 1, results.price(p));
        }
    }

    // All lines.
    pub(crate) fn put_listing(&mut self, results: &Results, welfare: i64)
        ensures { Wrote self.old (listing results.now.counts.n results.now.counts.m results.now.numbers.now welfare) self.new }
    {
        self.put_bids(results);
        self.put_flows(results);
        self.put_prices(results);
        self.put_welfare(welfare);
    }
}
