// The shape of a phase: how often each of its loops turns.
ghost use Rattle.std.specs.Prelude.{◌≡◌, ◌*◌, ◌≤◌};
ghost use Rattle.definitions.specs.Limits.{bid_limit, cell_count};
ghost use Rattle.orders.specs.Limits.{turn_limit, stretch_limit, row_limit, phase_limit};

// Blocks side by side: in how many columns, and how many orders each has.
#[derive(Clone, Copy)]
pub struct Columns {
    pub count: usize,
    pub turn: usize,
    ghost few: { count ≤ cell_count },
    ghost short: { turn ≤ turn_limit },
}

// A block alone, of one order.
pub const ONE: Columns = Columns { count: 1, turn: 1 };

// No block: what a row has in the place of a part.
pub const NONE: Columns = Columns { count: 0, turn: 0 };

pub fn many(count: usize, turn: usize) -> Columns
    requires few { count ≤ cell_count }
    requires short { turn ≤ turn_limit }
    ensures { (result.count ≡ count) × (result.turn ≡ turn) }
{
    Columns { count, turn }
}

impl Columns {
    // How many orders they have.
    pub fn size(self) -> usize
        ensures { (result ≡ self.count * self.turn) × (result ≤ stretch_limit) }
    {
        self.count * self.turn
    }
}

// A phase: its rows, and the parts of each row.
#[derive(Clone, Copy)]
pub struct Shape {
    pub rows: usize,
    pub parts: [Columns; 4],
    ghost few: { rows ≤ bid_limit },
}

impl Shape {
    ghost use Rattle.std.specs.Prelude.{[], ◌∷◌};
    ghost use Rattle.orders.specs.Shaped.{part_number, row_number, SmallSizes};

    pub fn new(rows: usize, parts: [Columns; 4]) -> Shape
        requires { rows ≤ bid_limit }
        ensures { (result.rows ≡ rows) × (result.parts ≡ parts) }
    {
        Shape { rows, parts }
    }

    // How many orders each part of a row has.
    pub fn sizes(&self) -> [usize; 4]
        ensures sizes { result ≡ part_number self.now 0 ∷ part_number self.now 1 ∷ part_number self.now 2 ∷ part_number self.now 3 ∷ [] }
        ensures small { SmallSizes self.now }
    {
        let [a, b, c, d] = self.parts;
        [a.size(), b.size(), c.size(), d.size()]
    }

    // How many orders a row has.
    pub fn row_size(&self) -> usize
        ensures { (result ≡ row_number self.now) × (result ≤ row_limit) }
    {
        let [a, b, c, d] = self.sizes();
        a + (b + (c + d))
    }

    // How many orders the phase has.
    pub fn size(&self) -> usize
        ensures { (result ≡ self.now.rows * row_number self.now) × (result ≤ phase_limit) }
    {
        self.rows * self.row_size()
    }
}

// A place in a phase: an order of a block, which stands in a column of a part of a row. How far each number may go says the phase, another one in each
// function: so it is asked there (`InPhase`) and is no field.
#[derive(Clone, Copy)]
pub struct Spot {
    pub row: usize,
    pub part: usize,
    pub column: usize,
    pub turn: usize,
}
