// Clearing: seals a book, runs the plan on the sheet, gives the count of orders, the welfare, and the welfare of the sales alone.
#![tactic(auto)]

ghost use Rattle.std.specs.Prelude.{◌≡◌, List, length, ℤ};
ghost use Rattle.definitions.specs.Answers.{refusal_of, given_or};
ghost use Rattle.definitions.specs.Book.{book, book_of};
ghost use Rattle.definitions.specs.Sheet.{amount_cell};
ghost use Rattle.definitions.specs.Clearing as clearing;
ghost use Rattle.definitions.specs.Machine.{cell};
ghost use Rattle.definitions.specs.Calls.{seal_refusal};
ghost use Rattle.definitions.specs.Outcome.{clear_sheet, clear_count, clear_welfare};
ghost use Rattle.definitions.specs.RunningSum.{sales_welfare, clear_sales_welfare};
ghost use Rattle.plan.specs.Plan.{plan};
ghost use Rattle.clearing.specs.Amounts.{AmountsWithin};
ghost use Rattle.clearing.specs.Given.{nothing_cleared};

use definitions::{Counts, LentBook, Reason};
use orders::run_plan;
use sealing::seal;
use sums::{WelfareSums, welfare};

// What clearing gives: how many orders were run, the welfare, and the welfare of the sales alone, which is the running sum after the last sale.
#[derive(Clone, Copy)]
pub struct Cleared {
    pub orders: usize,
    pub welfare: i64,
    pub sales_welfare: i64,
}

// The welfare of the accepted amounts that a sheet holds, and of their sales.
fn welfare_of(counts: Counts, bids: &[i32], sheet: &[u32]) -> WelfareSums
    requires { AmountsWithin counts.n counts.m bids.now sheet.now }
    ensures sales { (capacities : List ℤ) → result.sales ≡ sales_welfare (book counts.n counts.m bids.now capacities) (λ i. cell sheet.now (amount_cell counts.n counts.m i)) }
    ensures whole { (capacities : List ℤ) → result.whole ≡ clearing.welfare (book counts.n counts.m bids.now capacities) (λ i. cell sheet.now (amount_cell counts.n counts.m i)) }
{
    let first = counts.first_result();
    welfare(bids, &sheet[first..first + counts.n])
}

// Seals a book, runs the plan, and gives the count of orders and the two figures of the welfare; a refusal leaves the sheet as it was.
pub fn clear(book: &LentBook, sheet: &mut [u32]) -> Result<Cleared, Reason>
    ensures refusal { refusal_of result ≡ seal_refusal (book_of book.now) (length sheet.old) }
    ensures orders { (given_or nothing_cleared result).orders ≡ clear_count plan (book_of book.now) (length sheet.old) }
    ensures welfare { (given_or nothing_cleared result).welfare ≡ clear_welfare plan (book_of book.now) (length sheet.old) }
    ensures sales_welfare { (given_or nothing_cleared result).sales_welfare ≡ clear_sales_welfare plan (book_of book.now) (length sheet.old) }
    ensures cells { sheet.new ≡ clear_sheet plan (book_of book.now) sheet.old }
{
    let counts = seal(book, sheet)?;
    let orders = run_plan(counts.n, counts.m, sheet);
    let sums = welfare_of(counts, book.bids, sheet);
    Ok(Cleared {
        orders,
        welfare: sums.whole,
        sales_welfare: sums.sales,
    })
}
