// The plan, asked at a position, run on a sheet and written as bytes: all by one table of phases, on which two loops walk. Asking and writing give its
// orders by rows or by columns.
// An order is made over the names of cells first; one function then gives each name its cell.
#![tactic(auto)]

ghost use Rattle.std.specs.Prelude.{◌≡◌, length, IfOk};
ghost use Rattle.definitions.specs.Answers.{refusal_of, given_or};
ghost use Rattle.definitions.specs.Calls.{counts_refusal};
ghost use Rattle.definitions.specs.Plan.{asked, ask_refusal, total, write_refusal, write_counts, write_slice};
ghost use Rattle.definitions.specs.Columns.{column_plan};
ghost use Rattle.plan.specs.Plan.{plan};
ghost use Rattle.columns.specs.Plans.{plan_by};
ghost use Rattle.orders.specs.Answer.{answer_of, counts_of, SamePlan};
ghost use Rattle.orders.specs.Runs.{stepped_plan};

use crate::tables::Tables;
use crate::write::judge_room;
use columns::Numbering;
use definitions::{Order, Reason, Verdict};
use judging::judge_counts;

mod blocks;
mod names;
mod run;
mod sets;
mod shape;
mod table;
mod tables;
mod walk;
mod write;

// A position in the plan for n bids and m pools: how many orders come before it.
#[derive(Clone, Copy)]
pub struct Position {
    pub n: usize,
    pub m: usize,
    pub at: usize,
}

// What the plan gives at a position: an order with the position after it, or that it has ended. Document 01 names this form.
#[derive(Clone, Copy)]
pub enum Asked {
    Order(Order, Position),
    Ended,
}

impl Position {
    pub fn first(n: usize, m: usize) -> Position
        ensures { result ≡ record { n = n; m = m; at = 0 } }
    {
        Position { n, m, at: 0 }
    }

    // The tables of the plan, for a position that is not refused: 13, after the counts, is one past the total.
    fn tables(self) -> Result<Tables, Reason>
        ensures refusal { refusal_of result ≡ ask_refusal plan self.n self.m self.at }
        ensures counts { IfOk result (λ tables. (tables.counts.n ≡ self.n) × (tables.counts.m ≡ self.m)) }
    {
        let counts = judge_counts(self.n, self.m)?;
        let tables = Tables::new(counts);
        if tables.length() < self.at {
            return Err(Reason::Position);
        }
        Ok(tables)
    }

    pub fn judge(self) -> Verdict
        ensures { refusal_of result ≡ ask_refusal plan self.n self.m self.at }
    {
        self.tables()?;
        Ok(())
    }

    // Before the total there is an order, by rows or by columns; at the total the plan has ended.
    fn ask_by(self, by: Numbering) -> Result<Asked, Reason>
        ensures answer { answer_of result ≡ asked (plan_by by plan) self.n self.m self.at }
        ensures same { SamePlan self.n self.m result }
    {
        let tables = self.tables()?;
        if tables.length() <= self.at {
            return Ok(Asked::Ended);
        }
        let order = by.order(tables.counts, tables.order_at(self.at));
        let next = Position {
            n: self.n,
            m: self.m,
            at: self.at + 1,
        };
        Ok(Asked::Order(order, next))
    }

    // Of the row plan, in the form that document 01 names.
    pub fn ask(self) -> Result<Asked, Reason>
        ensures answer { answer_of result ≡ asked plan self.n self.m self.at }
        ensures same { SamePlan self.n self.m result }
    {
        self.ask_by(Numbering::Rows)
    }

    // Of the column plan.
    pub fn ask_columns(self) -> Result<Asked, Reason>
        ensures answer { answer_of result ≡ asked (column_plan plan) self.n self.m self.at }
        ensures same { SamePlan self.n self.m result }
    {
        self.ask_by(Numbering::Columns)
    }
}

#[derive(Clone, Copy)]
pub struct Plan {}

impl Plan {
    // How many orders the plan has.
    pub fn total(n: usize, m: usize) -> Result<usize, Reason>
        ensures refusal { refusal_of result ≡ counts_refusal n m }
        ensures count { given_or 0 result ≡ total plan n m }
    {
        let counts = judge_counts(n, m)?;
        let tables = Tables::new(counts);
        Ok(tables.length())
    }
}

// Runs the plan on a sheet, and gives how many orders it has, or why the counts are refused, which leave the sheet as it was. Any counts may be given, so
// they are plain numbers, and opening's calls have the same: only the sheet is lent, and a struct of all three would be taken apart at once.
pub fn try_run_plan(n: usize, m: usize, sheet: &mut [u32]) -> Result<usize, Reason>
    ensures refusal { refusal_of result ≡ counts_refusal n m }
    ensures count { given_or 0 result ≡ total plan n m }
    ensures cells { sheet.new ≡ stepped_plan plan n m sheet.old }
{
    let counts = judge_counts(n, m)?;
    let tables = Tables::new(counts);
    tables.run(sheet);
    Ok(tables.length())
}

// The same for a caller that has judged the counts: it refuses nothing, and refused counts give 0.
pub fn run_plan(n: usize, m: usize, sheet: &mut [u32]) -> usize
    ensures count { result ≡ total plan n m }
    ensures cells { sheet.new ≡ stepped_plan plan n m sheet.old }
{
    try_run_plan(n, m, sheet).unwrap_or(0)
}

// What was written: bytes, orders, and the position after them.
#[derive(Clone, Copy, Default)]
pub struct Written {
    pub bytes: usize,
    pub orders: usize,
    pub next: usize,
}

// From a position, fills the slice with as many whole orders as fit, by rows or by columns, and keeps the bytes after them. n, m and at come as numbers, as
// the C host gives them.
pub fn write_by(
    by: Numbering,
    n: usize,
    m: usize,
    at: usize,
    out: &mut [u8],
) -> Result<Written, Reason>
    ensures refusal { refusal_of result ≡ write_refusal (plan_by by plan) n m at (length out.old) }
    ensures counts { counts_of result ≡ write_counts (plan_by by plan) n m at (length out.old) }
    ensures slice { out.new ≡ write_slice (plan_by by plan) n m at out.old }
{
    let counts = judge_counts(n, m)?;
    let tables = Tables::new(counts);
    let total = tables.length();
    judge_room(total, at, out.len())?;
    Ok(tables.write(by, total, at, out))
}

// The row plan's orders.
pub fn write_plan(n: usize, m: usize, at: usize, out: &mut [u8]) -> Result<Written, Reason>
    ensures refusal { refusal_of result ≡ write_refusal plan n m at (length out.old) }
    ensures counts { counts_of result ≡ write_counts plan n m at (length out.old) }
    ensures slice { out.new ≡ write_slice plan n m at out.old }
{
    write_by(Numbering::Rows, n, m, at, out)
}

// The column plan's orders.
pub fn write_column_plan(n: usize, m: usize, at: usize, out: &mut [u8]) -> Result<Written, Reason>
    ensures refusal { refusal_of result ≡ write_refusal (column_plan plan) n m at (length out.old) }
    ensures counts { counts_of result ≡ write_counts (column_plan plan) n m at (length out.old) }
    ensures slice { out.new ≡ write_slice (column_plan plan) n m at out.old }
{
    write_by(Numbering::Columns, n, m, at, out)
}
