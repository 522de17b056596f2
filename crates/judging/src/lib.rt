// Who is turned away: judges counts, a number of results, a bid alone, a whole book, and the cells of a sheet.
#![tactic(auto)]

ghost use Rattle.std.specs.Prelude.{◌≡◌, [], ◌*◌, ◌≤◌, length, IfOk};
ghost use Rattle.definitions.specs.Limits.{pool_limit, bid_numbers};
ghost use Rattle.definitions.specs.Arithmetic.{within};
ghost use Rattle.definitions.specs.Answers.{refusal_of, numbered};
ghost use Rattle.definitions.specs.Book.{book, book_of};
ghost use Rattle.definitions.specs.Calls.{pools_refusal, counts_refusal, price_in_range, bid_fault, bid_refusal, bids_refusal, capacity_fault, capacities_refusal, seal_refusal, cells_refusal, results_refusal};
ghost use Rattle.judging.specs.Tables.{tables_refusal};

use definitions::{Counts, LentBook, Limits, Reason, Verdict, price_in_hundredths};

// The pool count: 2.
fn judge_pools(m: usize) -> Verdict
    ensures refusal { refusal_of result ≡ pools_refusal m }
    ensures within { IfOk result (λ _. (1 ≤ m) × (m ≤ pool_limit)) }
{
    if !(1..=Limits::POOLS).contains(&m) {
        return Err(Reason::PoolCount);
    }
    Ok(())
}

// Both counts: 1, then 2.
pub fn judge_counts(n: usize, m: usize) -> Result<Counts, Reason>
    ensures refusal { refusal_of result ≡ counts_refusal n m }
    ensures counts { IfOk result (λ counts. (counts.n ≡ n) × (counts.m ≡ m)) }
{
    if Limits::BIDS < n {
        return Err(Reason::BidCount);
    }
    judge_pools(m)?;
    Ok(Counts { n, m })
}

// Both counts and how many results there are: 1, 2, 3.
pub fn judge_results(n: usize, m: usize, results: usize) -> Result<Counts, Reason>
    ensures refusal { refusal_of result ≡ results_refusal n m results }
    ensures counts { IfOk result (λ counts. (counts.n ≡ n) × (counts.m ≡ m)) }
{
    let counts = judge_counts(n, m)?;
    if results != counts.results() {
        return Err(Reason::Length);
    }
    Ok(counts)
}

// Both counts, then the lengths of both tables: 1, 2, 3.
pub fn judge_tables(book: &LentBook) -> Result<Counts, Reason>
    ensures refusal { refusal_of result ≡ tables_refusal (book_of book.now) }
    ensures counts { IfOk result (λ counts. (counts.n ≡ book.now.n) × (counts.m ≡ book.now.m)) }
{
    let counts = judge_counts(book.n, book.m)?;
    if book.bids.len() != counts.bid_numbers() || book.capacities.len() != counts.lines() {
        return Err(Reason::Length);
    }
    Ok(counts)
}

// The definition's own test of a range, so that each judge asks it in one word.
fn is_within(low: i32, high: i32, v: i32) -> bool
    ensures { result ≡ within low high v }
{
    (low..=high).contains(&v)
}

// A limit price: its whole part, its hundredths, and then both together.
fn is_price(price: i32, hundredths: i32) -> bool
    ensures { result ≡ price_in_range price hundredths }
{
    is_within(-Limits::WHOLE, Limits::WHOLE, price)
        && is_within(0, Limits::HUNDREDTHS, hundredths)
        && price_in_hundredths(price, hundredths) <= Limits::PRICE as i64
}

// One bid: 4, 5, 6. Its numbers come as the table and `judge_bid` have them: a struct would be made for this call alone. Of the counts only m is
// asked, with its bound: a bid judged alone has no n. The hundredths, though last in the table, are judged with the price.
fn judge_numbers(
    m: usize,
    pool: i32,
    price: i32,
    quantity: i32,
    hundredths: i32,
    place: usize,
) -> Verdict
    requires { m ≤ pool_limit }
    ensures { refusal_of result ≡ numbered (bid_fault m pool price quantity hundredths) place }
{
    if !is_within(1, m as i32, pool) {
        return Err(Reason::Pool(place));
    }
    if !is_price(price, hundredths) {
        return Err(Reason::Price(place));
    }
    if !is_within(-Limits::QUANTITY, Limits::QUANTITY, quantity) {
        return Err(Reason::Quantity(place));
    }
    Ok(())
}

// A bid judged alone: 2, then the bid's own refusals, with place 0.
pub fn judge_bid(m: usize, pool: i32, price: i32, quantity: i32, hundredths: i32) -> Verdict
    ensures { refusal_of result ≡ bid_refusal m pool price quantity hundredths }
{
    judge_pools(m)?;
    judge_numbers(m, pool, price, quantity, hundredths, 0)
}

// The bids one by one, each by its number.
fn judge_bids(counts: Counts, table: &[i32]) -> Verdict
    requires { length table.now ≡ bid_numbers * counts.n }
    ensures { refusal_of result ≡ bids_refusal (book counts.n counts.m table.now []) }
{
    let (bids, _) = table.as_chunks::<{ Limits::BID_NUMBERS }>();
    for (i, &[pool, price, quantity, hundredths]) in bids.iter().enumerate() {
        judge_numbers(counts.m, pool, price, quantity, hundredths, i + 1)?;
    }
    Ok(())
}

// One entry of the capacity table: 8 on the diagonal, 7 off it. The flag is the definition's own: two functions would each state half of `capacity_fault`.
fn judge_capacity(diagonal: bool, capacity: i32, place: usize) -> Verdict
    ensures { refusal_of result ≡ numbered (capacity_fault diagonal capacity) place }
{
    if diagonal {
        if capacity == 0 {
            return Ok(());
        }
        return Err(Reason::Diagonal(place));
    }
    if !is_within(0, Limits::CAPACITY, capacity) {
        return Err(Reason::Capacity(place));
    }
    Ok(())
}

// The capacities by rows: the first bad one ends the search. Document 01 names this form, two loops left by a label, so `?` does not leave them. An
// entry's place is its index in the one slice, so the table is not cut into rows.
fn judge_capacities(counts: Counts, capacities: &[i32]) -> Verdict
    requires { length capacities.now ≡ counts.m * counts.m }
    ensures { refusal_of result ≡ capacities_refusal (book 0 counts.m [] capacities.now) }
{
    let m = counts.m;
    let mut verdict = Ok(());
    'rows: for a in 0..m {
        for b in 0..m {
            let at = a * m + b;
            let capacity = capacities[at];
            verdict = judge_capacity(a == b, capacity, at + 1);
            if verdict.is_err() {
                break 'rows;
            }
        }
    }
    verdict
}

// A book, and the length of the sheet that it is to be sealed in: counts, lengths, bids, capacities.
pub fn judge_book(book: &LentBook, cells: usize) -> Result<Counts, Reason>
    ensures refusal { refusal_of result ≡ seal_refusal (book_of book.now) cells }
    ensures counts { IfOk result (λ counts. (counts.n ≡ book.now.n) × (counts.m ≡ book.now.m)) }
{
    let counts = judge_tables(book)?;
    if cells != Limits::CELLS {
        return Err(Reason::Length);
    }
    // `and` has both judge, at the cost of 16 numbers at most, so that which of them comes first stands in one equation.
    judge_bids(counts, book.bids).and(judge_capacities(counts, book.capacities))?;
    Ok(counts)
}

// The first cell that is no residue: 15.
pub fn judge_cells(sheet: &[u32]) -> Verdict
    ensures { refusal_of result ≡ cells_refusal sheet.now }
{
    for (c, cell) in sheet.iter().enumerate() {
        if Limits::MODULUS <= *cell {
            return Err(Reason::Cell(c));
        }
    }
    Ok(())
}
