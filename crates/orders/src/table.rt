// The table of the plan's phases: how often each loops, and the order at a place of it, over names.
// A phase goes by its number, and so does a part of its rows: a position is found by counting them off, and a name would be looked up for each order.
#![tactic(auto, using(crate::specs::Shaped::one_of, crate::specs::Shaped::of_part, crate::specs::Shaped::of_second, crate::specs::Shaped::one_of_second, crate::specs::Shaped::sum_at, crate::specs::Shaped::head_of, crate::specs::Shaped::cut_at, crate::specs::Shaped::gain_at))]

ghost use Rattle.std.specs.Prelude.{◌≡◌, ◌<◌};
ghost use Rattle.plan.specs.Table.{scratch_count, phase_at, phase_count, demand_phase, cut_phase, size_before_phase, rank_phase, placement_phase, slack_phase, reach_phase, line_phase, greatest_phase, best_margin_phase};
ghost use Rattle.plan.specs.Names.{at};
ghost use Rattle.orders.specs.Named.{named_of};
ghost use Rattle.orders.specs.Shaped.{IsShape, InPhase, order_in};

use crate::blocks::{
    added, amount_order, cost_turn, cut_turn, greatest_turn, margin_order, price_order,
    raised_price_order, reach_turn, rest_turn, size_order, subset_order, take_turn, test_order,
};
use crate::names::{
    HUNDRED, NamedOrder, SHIFT, TOP, cell, difference, equal, first, less, own, product, sum,
};
use crate::sets::{lowest_pool, subset_count};
use crate::shape::{NONE, ONE, Shape, Spot, many};
use definitions::{Counts, Limits};
use plan::Family::{self, *};

// The shape of phase k, for so many scratch cells.
#[tactic(auto, using(crate::specs::Shaped::shape_known), unfolding(plan::specs::Table::phase_at, plan::specs::Table::table, plan::specs::Table::work))]
pub fn shape_of(counts: Counts, scratch: usize, k: usize) -> Shape
    requires scratch_value { scratch ≡ scratch_count counts.n counts.m }
    requires k_lt_phase_count { k < phase_count }
    ensures { IsShape (phase_at counts.n counts.m k) result }
{
    let n = counts.n;
    let m = counts.m;
    let lines = counts.lines();
    let sets = subset_count(counts);
    match k {
        0 => Shape::new(1, [ONE, NONE, NONE, NONE]), // units
        1 => Shape::new(1, [ONE, NONE, NONE, NONE]), // hundreds
        2 => Shape::new(1, [ONE, NONE, NONE, NONE]), // shifts
        3 => Shape::new(1, [ONE, NONE, NONE, NONE]), // tops
        4 => Shape::new(m, [ONE, NONE, NONE, NONE]), // pool numbers
        5 => Shape::new(n, [ONE, NONE, NONE, NONE]), // sides
        6 => Shape::new(n, [many(1, 3), NONE, NONE, NONE]), // sizes
        7 => Shape::new(n, [ONE, NONE, NONE, NONE]), // raised wholes
        8 => Shape::new(n, [many(1, 2), NONE, NONE, NONE]), // raised prices
        9 => Shape::new(n, [ONE, NONE, NONE, NONE]), // doubles
        10 => Shape::new(n, [ONE, NONE, NONE, NONE]), // keys
        11 => Shape::new(n, [ONE, NONE, NONE, NONE]), // nexts
        12 => Shape::new(n, [many(m, 1), NONE, NONE, NONE]), // memberships
        13 => Shape::new(n, [many(m, 1), NONE, NONE, NONE]), // pool sizes
        14 => Shape::new(m, [ONE, many(n, 2), NONE, NONE]), // demands
        15 => Shape::new(1, [many(sets, 1), many(sets, 1 + lines), NONE, NONE]), // cuts
        16 => Shape::new(n, [many(m, 1), many(n, 1 + m * 2), NONE, NONE]), // sizes before
        17 => Shape::new(n, [many(sets, 1), ONE, many(sets, 5), NONE]), // ranks before
        18 => Shape::new(n, [many(m, 1), NONE, NONE, NONE]), // sizes with
        19 => Shape::new(n, [many(sets, 1), ONE, many(sets, 5), NONE]), // ranks with
        20 => Shape::new(n, [ONE, NONE, NONE, NONE]), // uses
        21 => Shape::new(n, [many(1, 4), NONE, NONE, NONE]), // amounts
        22 => Shape::new(m, [ONE, many(n, 2), NONE, NONE]), // placements
        23 => Shape::new(1, [many(sets, 1), many(sets, 1), NONE, NONE]), // slacks
        24 => Shape::new(1, [many(sets, 1), NONE, NONE, NONE]), // slack tests
        25 => Shape::new(lines, [ONE, many(sets, 1), NONE, NONE]), // reach tests
        26 => Shape::new(lines, [ONE, many(sets, 4), ONE, many(sets, 1)]), // flows
        27 => Shape::new(n, [many(1, 3), NONE, NONE, NONE]), // margins
        28 => Shape::new(m, [ONE, many(n, 5), NONE, NONE]), // pool margins
        29 => Shape::new(m, [ONE, many(m, 5), NONE, NONE]), // best margins
        30 => Shape::new(n, [many(m, 1), NONE, NONE, NONE]), // price tests
        31 => Shape::new(m, [ONE, many(n, 5), NONE, NONE]), // pool wholes
        32 => Shape::new(m, [many(1, 7), NONE, NONE, NONE]), // prices
        _ => Shape::new(1, [many(scratch, 1), NONE, NONE, NONE]), // zeros
    }
}

// Demands, placements and greatests each clear a cell before they gather in it, and cuts and slacks each sum over the sets first: one line each,
// which a function for them would not spare.

// An order of the demand of a pool.
fn demands(counts: Counts, s: Spot) -> NamedOrder
    requires { InPhase (demand_phase counts.n counts.m) s }
    ensures { named_of result ≡ order_in (demand_phase counts.n counts.m) s }
{
    let demand = first(Demands, s.row);
    if s.part == 0 {
        return NamedOrder::Constant(demand, 0);
    }
    let bid = s.column;
    added(
        own(0),
        demand,
        first(Sides, bid),
        cell(PoolSizes, bid, s.row),
        s.turn,
    )
}

// An order of the cuts: of the sums of demands over the sets, then of the cut of a set.
fn cuts(counts: Counts, s: Spot) -> NamedOrder
    requires { InPhase (cut_phase counts.n counts.m) s }
    ensures { named_of result ≡ order_in (cut_phase counts.n counts.m) s }
{
    let m = counts.m;
    let set = s.column;
    if s.part == 0 {
        return subset_order(counts, set, first(Demands, lowest_pool(counts, set)));
    }
    if s.turn == 0 {
        return sum(first(Cuts, set), first(Subsets, set), first(ZeroCells, 0));
    }
    let line = s.turn - 1;
    cut_turn(set, line / m, line % m)
}

// An order of the sizes before a bid.
fn sizes_before(counts: Counts, s: Spot) -> NamedOrder
    requires { InPhase (size_before_phase counts.n counts.m) s }
    ensures { named_of result ≡ order_in (size_before_phase counts.n counts.m) s }
{
    if s.part == 0 {
        return NamedOrder::Constant(cell(SizesBefore, s.row, s.column), 0);
    }
    if s.turn == 0 {
        return test_order(s.row, s.column);
    }
    let pool = (s.turn - 1) / 2;
    let size = cell(SizesBefore, s.row, pool);
    added(
        own(1),
        size,
        own(0),
        cell(PoolSizes, s.column, pool),
        (s.turn - 1) % 2,
    )
}

// An order of the rank of the sizes in a row of a family, in the cell of that row of another.
fn ranks(counts: Counts, sizes: Family, ranks: Family, s: Spot) -> NamedOrder
    requires { InPhase (rank_phase counts.n counts.m (at sizes) (λ x. at ranks x 0)) s }
    ensures { named_of result ≡ order_in (rank_phase counts.n counts.m (at sizes) (λ x. at ranks x 0)) s }
{
    let m = counts.m;
    let set = s.column;
    match s.part {
        0 => subset_order(counts, set, cell(sizes, s.row, lowest_pool(counts, set))),
        1 => NamedOrder::Constant(first(ranks, s.row), Limits::POSITIVE as usize),
        _ => cost_turn(counts, first(ranks, s.row), set, s.turn),
    }
}

// An order of what is used in a pool.
fn placements(counts: Counts, s: Spot) -> NamedOrder
    requires { InPhase (placement_phase counts.n counts.m) s }
    ensures { named_of result ≡ order_in (placement_phase counts.n counts.m) s }
{
    let placement = first(Placements, s.row);
    if s.part == 0 {
        return NamedOrder::Constant(placement, 0);
    }
    let bid = s.column;
    added(
        own(0),
        placement,
        cell(Memberships, bid, s.row),
        first(Uses, bid),
        s.turn,
    )
}

// An order of the slacks: of the sums of placements over the sets, then of the slack of a set.
fn slacks(counts: Counts, s: Spot) -> NamedOrder
    requires { InPhase (slack_phase counts.n counts.m) s }
    ensures { named_of result ≡ order_in (slack_phase counts.n counts.m) s }
{
    let m = counts.m;
    let set = s.column;
    if s.part == 0 {
        return subset_order(counts, set, first(Placements, lowest_pool(counts, set)));
    }
    difference(first(Slacks, set), first(Cuts, set), first(Subsets, set))
}

// An order of the test whether the pool where a line begins reaches the pool where it ends.
fn reach_tests(counts: Counts, s: Spot) -> NamedOrder
    requires { InPhase (reach_phase counts.n counts.m) s }
    ensures { named_of result ≡ order_in (reach_phase counts.n counts.m) s }
{
    let line = s.row;
    if s.part == 0 {
        return NamedOrder::Constant(first(ReachTests, line), 1);
    }
    reach_turn(line, line / counts.m, line % counts.m, s.column)
}

// An order of a line.
fn lines(counts: Counts, s: Spot) -> NamedOrder
    requires { InPhase (line_phase counts.n counts.m) s }
    ensures { named_of result ≡ order_in (line_phase counts.n counts.m) s }
{
    let a = s.row / counts.m;
    let b = s.row % counts.m;
    match s.part {
        0 => sum(own(2), cell(Capacities, a, b), first(ZeroCells, 0)),
        1 => rest_turn(a, b, s.column, s.turn),
        2 => difference(first(Flows, s.row), cell(Capacities, a, b), own(2)),
        _ => take_turn(s.row, a, b, s.column),
    }
}

// An order of the greatest, for a pool, of numbers of the bids that pass a test: of the margins of its bids, and of the whole parts of the bids that have
// its price. The greatest, the tests and the numbers each stand in a family.
fn bid_greatest(
    counts: Counts,
    greatest: Family,
    tests: Family,
    numbers: Family,
    s: Spot,
) -> NamedOrder
    requires { InPhase (greatest_phase counts.n counts.m counts.n (λ p. at greatest p 0) (λ p i. at tests i p) (λ i. at numbers i 0)) s }
    ensures { named_of result ≡ order_in (greatest_phase counts.n counts.m counts.n (λ p. at greatest p 0) (λ p i. at tests i p) (λ i. at numbers i 0)) s }
{
    let d = first(greatest, s.row);
    if s.part == 0 {
        return NamedOrder::Constant(d, 0);
    }
    let bid = s.column;
    greatest_turn(d, cell(tests, bid, s.row), first(numbers, bid), s.turn)
}

// An order of the greatest margin in the pools that reach a pool.
fn best_margins(counts: Counts, s: Spot) -> NamedOrder
    requires { InPhase (best_margin_phase counts.n counts.m) s }
    ensures { named_of result ≡ order_in (best_margin_phase counts.n counts.m) s }
{
    let margin = first(BestMargins, s.row);
    if s.part == 0 {
        return NamedOrder::Constant(margin, 0);
    }
    let pool = s.column;
    greatest_turn(
        margin,
        first(ReachTests, pool * counts.m + s.row),
        first(PoolMargins, pool),
        s.turn,
    )
}

// The order at a place of phase k.
#[tactic(auto, using(crate::specs::Shaped::only_known, crate::specs::Shaped::block_known), unfolding(plan::specs::Table::phase_at, plan::specs::Table::table, plan::specs::Table::work, crate::specs::Shaped::order_in, crate::specs::Named::made))]
pub fn order_of(counts: Counts, k: usize, s: Spot) -> NamedOrder
    requires k_lt_phase_count { k < phase_count }
    requires in_phase { InPhase (phase_at counts.n counts.m k) s }
    ensures { named_of result ≡ order_in (phase_at counts.n counts.m k) s }
{
    let i = s.row;
    match k {
        0 => NamedOrder::Constant(first(Units, i), 1),
        1 => NamedOrder::Constant(first(Hundreds, i), HUNDRED),
        2 => NamedOrder::Constant(first(Shifts, i), SHIFT),
        3 => NamedOrder::Constant(first(Tops, i), TOP),
        4 => NamedOrder::Constant(first(PoolNumbers, i), i + 1),
        5 => less(
            first(Sides, i),
            first(ZeroCells, 0),
            cell(Bids, i, Limits::QUANTITY_PLACE),
        ),
        6 => size_order(i, s.turn),
        7 => sum(
            first(RaisedWholes, i),
            cell(Bids, i, Limits::PRICE_PLACE),
            first(Shifts, 0),
        ),
        8 => raised_price_order(i, s.turn),
        9 => sum(
            first(Doubles, i),
            first(RaisedPrices, i),
            first(RaisedPrices, i),
        ),
        10 => sum(first(Keys, i), first(Doubles, i), first(Sides, i)),
        11 => sum(first(Nexts, i), first(Doubles, i), first(Units, 0)),
        12 => equal(
            cell(Memberships, i, s.column),
            first(Bids, i),
            first(PoolNumbers, s.column),
        ),
        13 => product(
            cell(PoolSizes, i, s.column),
            cell(Memberships, i, s.column),
            first(Sizes, i),
        ),
        14 => demands(counts, s),
        15 => cuts(counts, s),
        16 => sizes_before(counts, s),
        17 => ranks(counts, SizesBefore, RanksBefore, s),
        18 => sum(
            cell(SizesWith, i, s.column),
            cell(SizesBefore, i, s.column),
            cell(PoolSizes, i, s.column),
        ),
        19 => ranks(counts, SizesWith, RanksWith, s),
        20 => difference(first(Uses, i), first(RanksWith, i), first(RanksBefore, i)),
        21 => amount_order(i, s.turn),
        22 => placements(counts, s),
        23 => slacks(counts, s),
        24 => less(
            first(SlackTests, s.column),
            first(ZeroCells, 0),
            first(Slacks, s.column),
        ),
        25 => reach_tests(counts, s),
        26 => lines(counts, s),
        27 => margin_order(i, s.turn),
        28 => bid_greatest(counts, PoolMargins, Memberships, Margins, s),
        29 => best_margins(counts, s),
        30 => equal(
            cell(PriceTests, i, s.column),
            first(Margins, i),
            first(BestMargins, s.column),
        ),
        31 => bid_greatest(counts, PoolWholes, PriceTests, RaisedWholes, s),
        32 => price_order(i, s.turn),
        _ => NamedOrder::Constant(own(s.column), 0),
    }
}
