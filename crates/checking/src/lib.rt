// Checking a settlement from elsewhere: whether the amounts and flows sent for a book are a feasible clearing of the greatest welfare.
#![tactic(auto)]

ghost use Rattle.std.specs.Prelude.{◌≡◌, false, length};
ghost use Rattle.definitions.specs.Limits.{cell_count};
ghost use Rattle.definitions.specs.Answers.{refusal_of, given_or};
ghost use Rattle.definitions.specs.Book.{book_of};
ghost use Rattle.definitions.specs.Checks.{check_refusal, Passes, Exactly};
ghost use Rattle.definitions.specs.Outcome.{clear_welfare};
ghost use Rattle.plan.specs.Plan.{plan};
ghost use Rattle.checking.specs.Checked.{found_optimal};

use clearing::clear;
use definitions::{LentBook, Limits, Reason, Verdict};
use feasible::{Sent, is_feasible, judge_sent};
use judging::judge_book;
use sums::welfare_sent;

// Counts and all lengths, then the book as at sealing: 1 to 8.
#[tactic(auto, unfolding(definitions::specs::Checks::check_refusal))]
fn judge_check(book: &LentBook, sent: &Sent) -> Verdict
    ensures { refusal_of result ≡ check_refusal (book_of book.now) (length sent.now.amounts.now) (length sent.now.flows.now) }
{
    judge_sent(book, sent)?;
    judge_book(book, Limits::CELLS)?;
    Ok(())
}

// The welfare that clearing the book gives, on a sheet of its own. For a refused book it is 0, as document 01 has it, and so no `Option`: `check` has
// turned such a book away before it asks.
fn cleared_welfare(book: &LentBook) -> i64
    ensures { result ≡ clear_welfare plan (book_of book.now) cell_count }
{
    let mut sheet = [0; Limits::CELLS];
    clear(book, &mut sheet).map_or(0, |cleared| cleared.welfare)
}

// The numbers sent are a feasible clearing, and its welfare is the one that clearing gives.
fn is_optimal(book: &LentBook, sent: &Sent) -> bool
    ensures { result ≡ found_optimal (book_of book.now) sent.now.amounts.now sent.now.flows.now }
{
    is_feasible(book, sent) && welfare_sent(book.bids, sent.amounts) == cleared_welfare(book)
}

// Says yes exactly if nothing is refused and the numbers sent are a feasible clearing than which none has greater welfare.
pub fn check(book: &LentBook, sent: &Sent) -> Result<bool, Reason>
    ensures refusal { refusal_of result ≡ check_refusal (book_of book.now) (length sent.now.amounts.now) (length sent.now.flows.now) }
    ensures answer { Exactly (given_or false result) (Passes (book_of book.now) sent.now.amounts.now sent.now.flows.now) }
{
    judge_check(book, sent)?;
    Ok(is_optimal(book, sent))
}
