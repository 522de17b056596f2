// Blocks of orders over names: the order at a turn of its block.
// A turn is a number, since a position is divided into places: a block as a list or a closure would be made anew for each of its orders.
#![tactic(auto, using(crate::specs::Named::at_turn))]

ghost use Rattle.std.specs.Prelude.{◌≡◌, ◌<◌, ◌^◌, [], ◌∷◌};
ghost use Rattle.plan.specs.Orders.{sum, product};
ghost use Rattle.plan.specs.Running.{subset_block};
ghost use Rattle.plan.specs.Blocks.{size_block, raised_price_block, cut_turn, test_order, cost_turn, amount_block, reach_turn, rest_turn, take_turn, margin_block, greatest_turn, price_block};
ghost use Rattle.orders.specs.Named.{name_of, named_of, made, moved};

use crate::names::{Name, NamedOrder, cell, difference, first, less, own, product, sum};
use crate::sets::{is_leaving, other_pools, subset_count};
use definitions::{Counts, Limits};
use plan::Family::*;

// The product of cells a and b, in cell t, added to cell d.
pub fn added(t: Name, d: Name, a: Name, b: Name, turn: usize) -> NamedOrder
    requires { turn < 2 }
    ensures { named_of result ≡ made (product (name_of t) (name_of a) (name_of b) ∷ sum (name_of d) (name_of d) (name_of t) ∷ []) turn }
{
    match turn {
        0 => product(t, a, b),
        _ => sum(d, d, t),
    }
}

// Cell d takes what cell a holds, where low holds less than high: with a below d the lesser of the two, with d below a the greater.
fn moved(d: Name, a: Name, low: Name, high: Name, turn: usize) -> NamedOrder
    requires { turn < 4 }
    ensures { named_of result ≡ made (moved (name_of d) (name_of a) (name_of low) (name_of high)) turn }
{
    match turn {
        0 => less(own(0), low, high),
        1 => difference(own(1), a, d),
        2 => product(own(0), own(0), own(1)),
        _ => sum(d, d, own(0)),
    }
}

// The size of bid i.
pub fn size_order(i: usize, turn: usize) -> NamedOrder
    requires { turn < 3 }
    ensures { named_of result ≡ made (size_block i) turn }
{
    match turn {
        0 => product(
            own(0),
            cell(Bids, i, Limits::QUANTITY_PLACE),
            first(Sides, i),
        ),
        1 => difference(own(1), cell(Bids, i, Limits::QUANTITY_PLACE), own(0)),
        _ => difference(first(Sizes, i), own(0), own(1)),
    }
}

// The price of bid i in hundredths, raised.
pub fn raised_price_order(i: usize, turn: usize) -> NamedOrder
    requires { turn < 2 }
    ensures { named_of result ≡ made (raised_price_block i) turn }
{
    match turn {
        0 => product(own(0), first(RaisedWholes, i), first(Hundreds, 0)),
        _ => sum(
            first(RaisedPrices, i),
            own(0),
            cell(Bids, i, Limits::HUNDREDTHS_PLACE),
        ),
    }
}

// The accepted amount of bid i.
pub fn amount_order(i: usize, turn: usize) -> NamedOrder
    requires { turn < 4 }
    ensures { named_of result ≡ made (amount_block i) turn }
{
    match turn {
        0 => difference(own(0), first(Sizes, i), first(Uses, i)),
        1 => difference(own(0), own(0), first(Uses, i)),
        2 => product(own(0), own(0), first(Sides, i)),
        _ => sum(first(Amounts, i), first(Uses, i), own(0)),
    }
}

// The margin of bid i.
pub fn margin_order(i: usize, turn: usize) -> NamedOrder
    requires { turn < 3 }
    ensures { named_of result ≡ made (margin_block i) turn }
{
    match turn {
        0 => less(own(0), first(Uses, i), first(Sizes, i)),
        1 => difference(own(1), first(Tops, 0), first(RaisedPrices, i)),
        _ => product(first(Margins, i), own(0), own(1)),
    }
}

// The price, hundredths and presence of pool p.
pub fn price_order(p: usize, turn: usize) -> NamedOrder
    requires { turn < 7 }
    ensures { named_of result ≡ made (price_block p) turn }
{
    match turn {
        0 => less(
            cell(Prices, p, Limits::PRESENCE_RESULT),
            first(ZeroCells, 0),
            first(BestMargins, p),
        ),
        1 => difference(own(0), first(PoolWholes, p), first(Shifts, 0)),
        2 => product(
            first(Prices, p),
            own(0),
            cell(Prices, p, Limits::PRESENCE_RESULT),
        ),
        3 => product(own(0), first(PoolWholes, p), first(Hundreds, 0)),
        4 => difference(own(1), first(Tops, 0), first(BestMargins, p)),
        5 => difference(own(1), own(1), own(0)),
        _ => product(
            cell(Prices, p, Limits::HUNDREDTHS_RESULT),
            own(1),
            cell(Prices, p, Limits::PRESENCE_RESULT),
        ),
    }
}

// Order s of the sums over all subsets; a is the cell of the set's lowest pool.
#[tactic(auto, using(crate::specs::Named::subset_first, crate::specs::Named::subset_next))]
pub fn subset_order(counts: Counts, s: usize, a: Name) -> NamedOrder
    requires { s < 2 ^ counts.m }
    ensures { named_of result ≡ made (subset_block counts.m (λ p. name_of a) s) 0 }
{
    if s == 0 {
        return NamedOrder::Constant(first(Subsets, s), 0);
    }
    sum(first(Subsets, s), first(Subsets, other_pools(counts, s)), a)
}

// Is bid j before bid i?
pub fn test_order(i: usize, j: usize) -> NamedOrder
    ensures { named_of result ≡ test_order i j }
{
    if j < i {
        return less(own(0), first(Keys, j), first(Nexts, i));
    }
    if i < j {
        return less(own(0), first(Doubles, j), first(Keys, i));
    }
    less(own(0), first(ZeroCells, 0), first(ZeroCells, 0))
}

// Line a to b's part of the cut of s.
#[tactic(auto, using(crate::specs::Named::cut_chosen))]
pub fn cut_turn(s: usize, a: usize, b: usize) -> NamedOrder
    ensures { named_of result ≡ made (cut_turn s a b) 0 }
{
    if is_leaving(s, a, b) {
        return sum(first(Cuts, s), first(Cuts, s), cell(Capacities, a, b));
    }
    sum(first(Cuts, s), first(Cuts, s), first(ZeroCells, 0))
}

// Whether pool a of line l reaches its pool b, by the set s: if s holds a without b it must have slack.
#[tactic(auto, using(crate::specs::Named::reach_chosen))]
pub fn reach_turn(l: usize, a: usize, b: usize, s: usize) -> NamedOrder
    ensures { named_of result ≡ made (reach_turn l a b s) 0 }
{
    let test = first(ReachTests, l);
    if is_leaving(s, a, b) {
        return product(test, test, first(SlackTests, s));
    }
    product(test, test, first(Units, 0))
}

// One step of a least, in the third temporary: what line a to b leaves unused is at most the slack of s, if the line leaves s.
pub fn rest_turn(a: usize, b: usize, s: usize, turn: usize) -> NamedOrder
    requires { turn < 4 }
    ensures { named_of result ≡ made (rest_turn a b s) turn }
{
    if is_leaving(s, a, b) {
        return moved(own(2), first(Slacks, s), first(Slacks, s), own(2), turn);
    }
    moved(
        own(2),
        cell(Capacities, a, b),
        cell(Capacities, a, b),
        own(2),
        turn,
    )
}

// The slack of s after line l, a to b: less what the line leaves unused if it leaves s, less its flow if it enters s.
#[tactic(auto, using(crate::specs::Named::take_chosen))]
pub fn take_turn(l: usize, a: usize, b: usize, s: usize) -> NamedOrder
    ensures { named_of result ≡ made (take_turn l a b s) 0 }
{
    if is_leaving(s, a, b) {
        return difference(first(Slacks, s), first(Slacks, s), own(2));
    }
    if is_leaving(s, b, a) {
        return difference(first(Slacks, s), first(Slacks, s), first(Flows, l));
    }
    difference(first(Slacks, s), first(Slacks, s), first(ZeroCells, 0))
}

// One step of a least, in cell d: the cost of s is its cut and the sizes outside s.
#[tactic(auto, using(crate::specs::Named::at_turn, crate::specs::Named::made_next))]
pub fn cost_turn(counts: Counts, d: Name, s: usize, turn: usize) -> NamedOrder
    requires s_bound { s < 2 ^ counts.m }
    requires turn_bound { turn < 5 }
    ensures { named_of result ≡ made (cost_turn counts.m (name_of d) s) turn }
{
    if turn == 0 {
        let last = subset_count(counts) - 1;
        return sum(own(2), first(Cuts, s), first(Subsets, last - s));
    }
    moved(d, own(2), own(2), d, turn - 1)
}

// One step of a greatest, in cell d: the product of a test and a number.
#[tactic(auto, using(crate::specs::Named::at_turn, crate::specs::Named::made_next))]
pub fn greatest_turn(d: Name, test: Name, number: Name, turn: usize) -> NamedOrder
    requires { turn < 5 }
    ensures { named_of result ≡ made (greatest_turn (name_of d) (name_of test) (name_of number)) turn }
{
    if turn == 0 {
        return product(own(2), test, number);
    }
    moved(d, own(2), d, own(2), turn - 1)
}
