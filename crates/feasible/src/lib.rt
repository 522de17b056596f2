// Whether the amounts and flows sent for a book are a feasible clearing.
#![tactic(auto)]

ghost use Rattle.std.specs.Prelude.{◌≡◌, ℕ, ◌+◌, ◌*◌, ◌<◌, length, pos, nat_abs, IfOk};
ghost use Rattle.definitions.specs.Arithmetic.{all_to, within};
ghost use Rattle.definitions.specs.Answers.{refusal_of};
ghost use Rattle.definitions.specs.Book.{book_of};
ghost use Rattle.definitions.specs.Checks.{sent_refusal, sent_feasible};
ghost use Rattle.feasible.specs.Tests.{within_sizes, pool_balanced, tested, SentSizes};

use definitions::{Counts, LentBook, Limits, Reason};
use judging::judge_tables;
use sums::pool_sums;

// What is sent for a book: an amount for each bid, and the flows by rows.
#[derive(Clone, Copy)]
pub struct Sent<'a> {
    pub amounts: &'a [i32],
    pub flows: &'a [i32],
}

// A book's counts and tables, and how many amounts and flows are sent for it: 1, 2, 3.
#[tactic(auto, unfolding(definitions::specs::Checks::sent_refusal))]
pub fn judge_sent(book: &LentBook, sent: &Sent) -> Result<Counts, Reason>
    ensures refusal { refusal_of result ≡ sent_refusal (book_of book.now) (length sent.now.amounts.now) (length sent.now.flows.now) }
    ensures counts { IfOk result (λ counts. (counts.n ≡ book.now.n) × (counts.m ≡ book.now.m)) }
{
    let counts = judge_tables(book)?;
    if sent.amounts.len() != counts.n || sent.flows.len() != counts.lines() {
        return Err(Reason::Length);
    }
    Ok(counts)
}

// A number lies between 0 and the size of its limit, which may have no i32: so no range of them is asked.
fn is_within_size(number: i32, limit: i32) -> bool
    ensures { result ≡ within (pos 0) (pos (nat_abs limit)) number }
{
    0 <= number && number.unsigned_abs() <= limit.unsigned_abs()
}

// Each number lies between 0 and the size of its limit. One test of amounts and flows: the limit of number k stands at step × k + first, since an
// amount's is one of four numbers of its bid; with the bids cut in chunks, the two would be tested by loops that differ in this alone.
fn are_within(numbers: &[i32], limits: &[i32], first: usize, step: usize) -> bool
    requires { (k : ℕ) → k < length numbers.now → step * k + first < length limits.now }
    ensures { result ≡ within_sizes numbers.now limits.now first step }
{
    for (k, &number) in numbers.iter().enumerate() {
        let limit = limits[step * k + first];
        if !is_within_size(number, limit) {
            return false;
        }
    }
    true
}

// In each pool accepted sales plus inflow equal accepted purchases plus outflow.
fn is_balanced(book: &LentBook, sent: &Sent) -> bool
    requires { SentSizes (book_of book.now) (length sent.now.amounts.now) (length sent.now.flows.now) }
    ensures { result ≡ all_to book.now.m (pool_balanced book.now.m book.now.bids.now sent.now.amounts.now sent.now.flows.now) }
{
    for p in 0..book.m {
        let sums = pool_sums(book.m, p, book.bids, sent.amounts, sent.flows);
        if sums.sold + sums.inflow != sums.bought + sums.outflow {
            return false;
        }
    }
    true
}

// The numbers sent are a feasible clearing of the book.
fn are_feasible(book: &LentBook, sent: &Sent) -> bool
    requires { SentSizes (book_of book.now) (length sent.now.amounts.now) (length sent.now.flows.now) }
    ensures { result ≡ tested (book_of book.now) sent.now.amounts.now sent.now.flows.now }
{
    are_within(
        sent.amounts,
        book.bids,
        Limits::QUANTITY_PLACE,
        Limits::BID_NUMBERS,
    ) && are_within(sent.flows, book.capacities, 0, 1)
        && is_balanced(book, sent)
}

// Whether the numbers sent are a feasible clearing of the book; not, where counts or lengths are not as stated. The book's own numbers are the
// caller's to judge: a capacity below 0 counts by its size, and a bid whose pool is none of the m stands in no balance.
pub fn is_feasible(book: &LentBook, sent: &Sent) -> bool
    ensures { result ≡ sent_feasible (book_of book.now) sent.now.amounts.now sent.now.flows.now }
{
    judge_sent(book, sent).is_ok() && are_feasible(book, sent)
}
