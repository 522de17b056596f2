// The walk through the tables: how many orders the plan has, and the order at a position.
ghost use Rattle.std.specs.Prelude.{◌≡◌, ◌<◌, length, get_or};
ghost use Rattle.definitions.specs.declared.Order.TheVariants.{Constant};
ghost use Rattle.plan.specs.Phased.{row_of, row_size};
ghost use Rattle.plan.specs.Table.{phase_count};
ghost use Rattle.orders.specs.Shaped.{IsShape};
ghost use Rattle.orders.specs.Stretches.{start, position};
ghost use Rattle.orders.specs.Steps.{IsAt};
ghost use Rattle.orders.specs.Plans.{plan_of, phase_of};

use crate::shape::{Shape, Spot};
use crate::tables::Tables;
use definitions::Order;

// A place among stretches of orders, one behind the other: a stretch, and how many of its orders come before.
#[derive(Clone, Copy)]
pub struct Within {
    pub stretch: usize,
    pub before: usize,
}

// The same place, counted from the stretch that it lies in. A search that always finds: no end is to be tested, as a `for` would.
pub fn settled(sizes: &[usize], place: Within) -> Within
    requires { position sizes.now place < start sizes.now (length sizes.now) }
    ensures same { position sizes.now result ≡ position sizes.now place }
    ensures stretch { result.stretch < length sizes.now }
    ensures inside { result.before < get_or sizes.now result.stretch 0 }
{
    let mut at = place;
    while sizes[at.stretch] <= at.before {
        at.before -= sizes[at.stretch];
        at.stretch += 1;
    }
    at
}

impl Tables {
    // How many orders all phases have. The library's `sum` asks for its bound over the runs of an iterator, which takes a longer proof than this loop.
    pub fn length(&self) -> usize
        ensures { result ≡ length (plan_of self.now) }
    {
        let mut length = 0;
        for size in &self.sizes {
            length += *size;
        }
        length
    }

    // The order at place x of row i of phase k.
    fn order_in_row(&self, k: usize, shape: &Shape, i: usize, x: usize) -> Order
        requires k_lt_phase_count { k < phase_count }
        requires shape { IsShape (phase_of self.now k) shape.now }
        requires i_bound { i < (phase_of self.now k).rows }
        requires x_bound { x < row_size (phase_of self.now k) }
        ensures { IsAt self.now.counts.n self.now.counts.m (row_of (phase_of self.now k) i) x result }
    {
        let sizes = shape.sizes();
        let first = Within {
            stretch: 0,
            before: x,
        };
        let at = settled(&sizes, first);
        let turn = shape.parts[at.stretch].turn;
        let s = Spot {
            row: i,
            part: at.stretch,
            column: at.before / turn,
            turn: at.before % turn,
        };
        self.order(k, s)
    }

    // The order at a place of a phase: the plan's at its position.
    pub fn order_within(&self, place: Within) -> Order
        requires phase { place.stretch < phase_count }
        requires inside { place.before < get_or self.now.sizes place.stretch 0 }
        ensures { result ≡ get_or (plan_of self.now) (position self.now.sizes place) (Constant 0 0) }
    {
        let k = place.stretch;
        let shape = self.shape(k);
        let row = shape.row_size();
        self.order_in_row(k, &shape, place.before / row, place.before % row)
    }

    // The plan's order at a position before its end.
    pub fn order_at(&self, at: usize) -> Order
        requires { at < length (plan_of self.now) }
        ensures { result ≡ get_or (plan_of self.now) at (Constant 0 0) }
    {
        let first = Within {
            stretch: 0,
            before: at,
        };
        self.order_within(settled(&self.sizes, first))
    }
}
