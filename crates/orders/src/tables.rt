// The tables that a plan is made by: where each family of cells stands on the sheet, and how many orders each phase has.
ghost use Rattle.std.specs.Prelude.{◌≡◌, ◌*◌, ◌^◌, ◌<◌};
ghost use Rattle.plan.specs.Names.{number, family_place};
ghost use Rattle.plan.specs.Plan.{scratch_count};
ghost use Rattle.orders.specs.Tables.{IsLayout, IsSizes};

use crate::names::{Name, NamedOrder, Operation};
use crate::sets::subset_count;
use crate::shape::{Shape, Spot};
use crate::table::{order_of, shape_of};
use definitions::{Counts, Limits, Order};
use plan::Family::{self, *};
use plan::Place;

// How many phases the plan has. A phase's number is bounded in each contract: a type for it would be made anew at each turn of a loop and after each
// `settled`.
pub const PHASES: usize = 34;

// One beginning more than there are families: where the last ends.
const STARTS: usize = Family::COUNT + 1;

// The place of a family on the sheet.
fn place_of(counts: Counts, family: Family) -> Place
    ensures { result ≡ family_place counts.n counts.m (counts.m * counts.m) (2 ^ counts.m) family }
{
    let n = counts.n;
    let m = counts.m;
    let lines = counts.lines();
    let sets = subset_count(counts);
    match family {
        Bids => Place(0, n, Limits::BID_NUMBERS),
        Capacities => Place(1, m, m),
        Amounts => Place(2, n, 1),
        Flows => Place(3, lines, 1),
        Prices => Place(4, m, Limits::POOL_RESULTS),
        Temporaries => Place(5, 3, 1),
        ZeroCells => Place(6, 1, 1),
        Units => Place(7, 1, 1),
        Hundreds => Place(8, 1, 1),
        Shifts => Place(9, 1, 1),
        Tops => Place(10, 1, 1),
        PoolNumbers => Place(11, m, 1),
        Sides => Place(12, n, 1),
        Sizes => Place(13, n, 1),
        RaisedWholes => Place(14, n, 1),
        RaisedPrices => Place(15, n, 1),
        Doubles => Place(16, n, 1),
        Keys => Place(17, n, 1),
        Nexts => Place(18, n, 1),
        Memberships => Place(19, n, m),
        PoolSizes => Place(20, n, m),
        Demands => Place(21, m, 1),
        Subsets => Place(22, sets, 1),
        Cuts => Place(23, sets, 1),
        SizesBefore => Place(24, n, m),
        RanksBefore => Place(25, n, 1),
        SizesWith => Place(26, n, m),
        RanksWith => Place(27, n, 1),
        Uses => Place(28, n, 1),
        Placements => Place(29, m, 1),
        Slacks => Place(30, sets, 1),
        SlackTests => Place(31, sets, 1),
        ReachTests => Place(32, lines, 1),
        Margins => Place(33, n, 1),
        PoolMargins => Place(34, m, 1),
        BestMargins => Place(35, m, 1),
        PriceTests => Place(36, n, m),
        PoolWholes => Place(37, m, 1),
    }
}

// A family's number.
fn number(family: Family) -> usize
    ensures { result ≡ number family }
{
    family as usize
}

// How many orders each phase has, for so many scratch cells. `scratch` is a number with its value in the contract, here and at `shape_of`: it is known
// once the layout is, before there are `Tables` to hold it.
fn sizes_of(counts: Counts, scratch: usize) -> [usize; PHASES]
    requires { scratch ≡ scratch_count counts.n counts.m }
    ensures { IsSizes counts.n counts.m result }
{
    let mut sizes = [0; PHASES];
    for (k, size) in sizes.iter_mut().enumerate() {
        *size = shape_of(counts, scratch, k).size();
    }
    sizes
}

#[derive(Clone, Copy)]
pub struct Tables {
    pub counts: Counts,
    // Where each family begins, and where the last ends.
    starts: [usize; STARTS],
    // How many columns each family has.
    columns: [usize; Family::COUNT],
    // How many scratch cells have names: from the temporaries to the end.
    scratch: usize,
    // How many orders each phase has.
    pub sizes: [usize; PHASES],
    ghost scratch_cells: { scratch ≡ scratch_count counts.n counts.m },
    ghost layout: { IsLayout counts.n counts.m starts columns },
    ghost phases: { IsSizes counts.n counts.m sizes },
}

impl Tables {
    ghost use Rattle.plan.specs.Plan.{cell_of, Placed, PlacedOrder};
    ghost use Rattle.plan.specs.Table.{phase_count};
    ghost use Rattle.orders.specs.Named.{name_of, named_of, numbered_of};
    ghost use Rattle.orders.specs.Shaped.{IsShape, InPhase};
    ghost use Rattle.orders.specs.Plans.{phase_of, order_at};

    // The tables of a plan, for judged counts: the families one behind the other, then the phases by how many scratch cells there are.
    pub fn new(counts: Counts) -> Tables
        ensures { (result.counts.n ≡ counts.n) × (result.counts.m ≡ counts.m) }
    {
        let mut starts = [0; STARTS];
        let mut columns = [0; Family::COUNT];
        let mut end = 0;
        for (f, family) in Family::ALL.iter().enumerate() {
            let place = place_of(counts, *family);
            starts[f] = end;
            columns[f] = place.2;
            end += place.1 * place.2;
        }
        starts[Family::COUNT] = end;
        let scratch = end - starts[Temporaries as usize];
        let sizes = sizes_of(counts, scratch);
        Tables {
            counts,
            starts,
            columns,
            scratch,
            sizes,
        }
    }

    // The shape of phase k. Number and shape stay two values: a type for both would have to carry the counts too.
    pub fn shape(&self, k: usize) -> Shape
        requires { k < phase_count }
        ensures { IsShape (phase_of self.now k) result }
    {
        shape_of(self.counts, self.scratch, k)
    }

    // The cell of a name.
    fn cell(&self, name: Name) -> usize
        requires { Placed self.now.counts.n self.now.counts.m (name_of name) }
        ensures { result ≡ cell_of self.now.counts.n self.now.counts.m (name_of name) }
    {
        let f = number(name.family);
        self.starts[f] + (name.row * self.columns[f] + name.column)
    }

    // An order with each name replaced by its cell.
    #[tactic(auto, unfolding(crate::specs::Named::numbered_of))]
    fn numbered(&self, order: NamedOrder) -> Order
        requires { PlacedOrder self.now.counts.n self.now.counts.m (named_of order) }
        ensures { result ≡ numbered_of self.now.counts.n self.now.counts.m (named_of order) }
    {
        match order {
            NamedOrder::Constant(d, k) => Order::Constant {
                d: self.cell(d),
                k: k as u32,
            },
            NamedOrder::Operate(operation, d, a, b) => {
                let d = self.cell(d);
                let a = self.cell(a);
                let b = self.cell(b);
                match operation {
                    Operation::Sum => Order::Sum { d, a, b },
                    Operation::Difference => Order::Difference { d, a, b },
                    Operation::Product => Order::Product { d, a, b },
                    Operation::Less => Order::Less { d, a, b },
                    Operation::Equal => Order::Equal { d, a, b },
                }
            }
        }
    }

    // The order at a place of phase k.
    pub fn order(&self, k: usize, s: Spot) -> Order
        requires k_lt_phase_count { k < phase_count }
        requires in_phase { InPhase (phase_of self.now k) s }
        ensures { result ≡ order_at self.now k s }
    {
        self.numbered(order_of(self.counts, k, s))
    }
}
