// The sheet by columns: the new number of each of its cells, and an order with its cell numbers replaced.
#![tactic(auto)]

ghost use Rattle.std.specs.Prelude.{◌≡◌};
ghost use Rattle.definitions.specs.Columns.{column_of, column_cell, renumbered};
ghost use Rattle.columns.specs.Plans.{order_by};

use definitions::{Counts, Limits, Order};

// The numbers that the cells of a sheet go by: by rows, as document 01 has them, or by columns, as document 02 does.
#[derive(Clone, Copy)]
pub enum Numbering {
    Rows,
    Columns,
}

// The column of the number at a place of a bid's row: pool, price, quantity, hundredths.
fn column_of(place: usize) -> usize
    ensures { result ≡ column_of place }
{
    match place {
        0 => 0,
        1 => 1,
        2 => 3,
        _ => 2,
    }
}

// The new number of a cell.
fn column_cell(counts: Counts, c: usize) -> usize
    ensures { result ≡ column_cell counts.n c }
{
    if counts.bid_numbers() <= c {
        return c;
    }
    column_of(c % Limits::BID_NUMBERS) * counts.n + c / Limits::BID_NUMBERS
}

// An order with each cell number replaced by its new one.
fn column_order(counts: Counts, order: Order) -> Order
    ensures { result ≡ renumbered (column_cell counts.n) order }
{
    match order {
        Order::Constant { d, k } => Order::Constant {
            d: column_cell(counts, d),
            k,
        },
        Order::Sum { d, a, b } => Order::Sum {
            d: column_cell(counts, d),
            a: column_cell(counts, a),
            b: column_cell(counts, b),
        },
        Order::Difference { d, a, b } => Order::Difference {
            d: column_cell(counts, d),
            a: column_cell(counts, a),
            b: column_cell(counts, b),
        },
        Order::Product { d, a, b } => Order::Product {
            d: column_cell(counts, d),
            a: column_cell(counts, a),
            b: column_cell(counts, b),
        },
        Order::Less { d, a, b } => Order::Less {
            d: column_cell(counts, d),
            a: column_cell(counts, a),
            b: column_cell(counts, b),
        },
        Order::Equal { d, a, b } => Order::Equal {
            d: column_cell(counts, d),
            a: column_cell(counts, a),
            b: column_cell(counts, b),
        },
    }
}

impl Numbering {
    // An order of the row plan by these numbers.
    pub fn order(self, counts: Counts, order: Order) -> Order
        ensures { result ≡ order_by self counts.n order }
    {
        match self {
            Numbering::Rows => order,
            Numbering::Columns => column_order(counts, order),
        }
    }
}
