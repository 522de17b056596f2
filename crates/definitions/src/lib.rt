// The types that every part of the unit shares: its limits, counts and tables, the machine's orders, and why a call refuses its input.
// What each case means is defined in specs/, in the words and numbers of the documents.
#![tactic(auto)]

ghost use Rattle.std.specs.Prelude.{◌≡◌, ◌+◌, ◌*◌, ◌<◌, ◌≤◌};
ghost use Rattle.definitions.specs.Limits.{bid_limit, pool_limit, bid_numbers};
ghost use Rattle.definitions.specs.Answers.{stated, number_of, place_of, parts_of};
ghost use Rattle.definitions.specs.Book.{in_hundredths};
ghost use Rattle.definitions.specs.Sheet.{first_result, result_count};

use std::error::Error;
use std::fmt;

// The limits of the unit, together.
#[derive(Clone, Copy)]
pub struct Limits {}

impl Limits {
    pub const BIDS: usize = 64;

    pub const POOLS: usize = 4;

    // Of the whole part of a price, and of its hundredths.
    pub const WHOLE: i32 = 30_000;

    pub const HUNDREDTHS: i32 = 99;

    // How many hundredths make one.
    pub const HUNDRED: i32 = 100;

    // Of a price in hundredths.
    pub const PRICE: i32 = 3_000_000;

    pub const QUANTITY: i32 = 65_535;

    pub const CAPACITY: i32 = 1_000_000;

    pub const CELLS: usize = 4_096;

    // p, the modulus of the cells.
    pub const MODULUS: u32 = 2_147_483_647;

    // The greatest residue that reads as itself.
    pub const POSITIVE: u32 = 1_073_741_823;

    // How many numbers a bid has: its pool, its price, its quantity and its hundredths; the places of the last three.
    pub const BID_NUMBERS: usize = 4;

    pub const PRICE_PLACE: usize = 1;

    pub const QUANTITY_PLACE: usize = 2;

    pub const HUNDREDTHS_PLACE: usize = 3;

    // How many results a pool has: its price, its hundredths and its presence; the places of the last two.
    pub const POOL_RESULTS: usize = 3;

    pub const HUNDREDTHS_RESULT: usize = 1;

    pub const PRESENCE_RESULT: usize = 2;
}

// A price in hundredths, from its two parts. In 64 bits it fits for any two numbers.
pub fn price_in_hundredths(price: i32, hundredths: i32) -> i64
    ensures { result ≡ in_hundredths price hundredths }
{
    price as i64 * Limits::HUNDRED as i64 + hundredths as i64
}

// An order of the machine: its target cell d, then a constant or the two cells that it reads. Document 01 names this form.
#[derive(Clone, Copy)]
pub enum Order {
    Constant { d: usize, k: u32 },
    Sum { d: usize, a: usize, b: usize },
    Difference { d: usize, a: usize, b: usize },
    Product { d: usize, a: usize, b: usize },
    Less { d: usize, a: usize, b: usize },
    Equal { d: usize, a: usize, b: usize },
}

// Why a call refuses its input, with the place where there is one. A call answers with a `Result`, whose error is the reason.
#[derive(Clone, Copy, Debug, PartialEq, Eq)]
pub enum Reason {
    BidCount,
    PoolCount,
    Length,
    Pool(usize),
    Price(usize),
    Quantity(usize),
    Capacity(usize),
    Diagonal(usize),
    CutShort(usize),
    Kind(usize),
    Form(usize),
    Operand(usize),
    Position,
    Room,
    Cell(usize),
    Holder,
}

impl Reason {
    // The documents' number of the refusal.
    pub fn number(self) -> u32
        ensures { result ≡ number_of (stated self) }
    {
        match self {
            Reason::BidCount => 1,
            Reason::PoolCount => 2,
            Reason::Length => 3,
            Reason::Pool(_) => 4,
            Reason::Price(_) => 5,
            Reason::Quantity(_) => 6,
            Reason::Capacity(_) => 7,
            Reason::Diagonal(_) => 8,
            Reason::CutShort(_) => 9,
            Reason::Kind(_) => 10,
            Reason::Form(_) => 11,
            Reason::Operand(_) => 12,
            Reason::Position => 13,
            Reason::Room => 14,
            Reason::Cell(_) => 15,
            Reason::Holder => 16,
        }
    }

    // Its place, 0 where there is none.
    pub fn place(self) -> usize
        ensures { result ≡ place_of (stated self) }
    {
        match self {
            Reason::Pool(at)
            | Reason::Price(at)
            | Reason::Quantity(at)
            | Reason::Capacity(at)
            | Reason::Diagonal(at)
            | Reason::CutShort(at)
            | Reason::Kind(at)
            | Reason::Form(at)
            | Reason::Operand(at)
            | Reason::Cell(at) => at,
            _ => 0,
        }
    }
}

// As the programs print it: `refused`, the number and the place.
impl fmt::Display for Reason {
    fn fmt<W: fmt::Write>(&self, f: &mut fmt::Formatter<W>) -> fmt::Result {
        write!(f, "refused {} {}", self.number(), self.place())
    }
}

impl Error for Reason {}

// What a call that only judges or writes answers: nothing is refused, or the reason.
pub type Verdict = Result<(), Reason>;

// An order by its numbers: its kind, its target, its constant, and the two cells that it reads. A number that the kind does not have is 0, not an
// `Option`: the kind says which numbers are read, so no order has another constant or cell to mistake it for.
#[derive(Clone, Copy)]
pub struct Parts {
    pub kind: u32,
    pub d: usize,
    pub k: u32,
    pub a: usize,
    pub b: usize,
}

// Document 01 has the machine decide by the number of an order's kind, so an order is given as its numbers too.
impl From<Order> for Parts {
    ghost from_gives = { λ order parts. parts ≡ parts_of order };

    fn from(order: Order) -> Parts {
        match order {
            Order::Constant { d, k } => Parts {
                kind: 0,
                d,
                k,
                a: 0,
                b: 0,
            },
            Order::Sum { d, a, b } => Parts {
                kind: 1,
                d,
                k: 0,
                a,
                b,
            },
            Order::Difference { d, a, b } => Parts {
                kind: 2,
                d,
                k: 0,
                a,
                b,
            },
            Order::Product { d, a, b } => Parts {
                kind: 3,
                d,
                k: 0,
                a,
                b,
            },
            Order::Less { d, a, b } => Parts {
                kind: 4,
                d,
                k: 0,
                a,
                b,
            },
            Order::Equal { d, a, b } => Parts {
                kind: 5,
                d,
                k: 0,
                a,
                b,
            },
        }
    }
}

// A book as its tables are lent: n, m, four numbers for each bid, and the capacities by rows.
#[derive(Clone, Copy)]
pub struct LentBook<'a> {
    pub n: usize,
    pub m: usize,
    pub bids: &'a [i32],
    pub capacities: &'a [i32],
}

// Counts of bids and pools that are not refused.
#[derive(Clone, Copy)]
pub struct Counts {
    pub n: usize,
    pub m: usize,
    ghost bids_fit: { n ≤ bid_limit },
    ghost some_pools: { 1 ≤ m },
    ghost pools_fit: { m ≤ pool_limit },
}

impl Counts {
    // How many numbers the bid table has.
    pub fn bid_numbers(self) -> usize
        ensures { result ≡ bid_numbers * self.n }
    {
        Limits::BID_NUMBERS * self.n
    }

    // How many lines there are, a pool's line to itself included.
    pub fn lines(self) -> usize
        ensures { result ≡ self.m * self.m }
    {
        self.m * self.m
    }

    // How many numbers both tables have: the bids and the capacities.
    pub fn inputs(self) -> usize
        ensures { result ≡ bid_numbers * self.n + self.m * self.m }
    {
        self.bid_numbers() + self.lines()
    }

    // The first result cell: behind the bids and the capacities.
    pub fn first_result(self) -> usize
        ensures { result ≡ first_result self.n self.m }
    {
        self.inputs()
    }

    // How many results there are.
    pub fn results(self) -> usize
        ensures { result ≡ result_count self.n self.m }
    {
        self.n + self.lines() + Limits::POOL_RESULTS * self.m
    }
}
