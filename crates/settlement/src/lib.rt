// From a text to the text that settle prints: clears the book, opens its results and lists them, or names the refusal.
// specs/ say what is printed and left for every input, and that this is what the documents say. Where out has less room than a listing may
// need, every call here gives 0 and leaves sheet and out as they are. `settled_size`, `settled_sheet` and `settled_slice` are three clauses and
// not one: a caller cites each alone, and `write_why` has no sheet.
#![tactic(auto)]

ghost use Rattle.std.specs.Prelude.{◌≤◌, ◌≡◌, ℕ, List, length, take, leb, ℤ, IfOk, Err};
ghost use Rattle.definitions.specs.Answers.{none, refusal_of};
ghost use Rattle.definitions.specs.Calls.{seal_refusal, open_refusal, opened_results};
ghost use Rattle.definitions.specs.Outcome.{clear_sheet, clear_welfare};
ghost use Rattle.definitions.specs.Settle.{listing, settle_input};
ghost use Rattle.definitions.specs.Sheet.{result_count};
ghost use Rattle.listing.specs.Text.{text_room, text_size, text_slice};
ghost use Rattle.plan.specs.Plan.{plan};
ghost use Rattle.stages.specs.Counting.{input_for};
ghost use Rattle.settlement.specs.Settled.{settled_size, settled_slice, settled_sheet, book_at, tables_of, Prints};

use clearing::clear;
use definitions::{Counts, LentBook, Limits, Reason};
use judging::judge_counts;
use listing::{Listing, write_listing, write_refused, write_unreadable};
use opening::open;
use stages::{Input, Tables, Unsettled};
use text::{Reader, read};

// How many results a book has at most.
const RESULTS: usize = Limits::BIDS
    + Limits::POOLS * Limits::POOLS
    + Limits::POOL_RESULTS * Limits::POOLS;

// Why a text has no listing: a refusal by its number and place, or that it is unreadable.
fn write_why(why: Unsettled, out: &mut [u8]) -> usize
    ensures size { (numbers : List ℤ) (cells : ℕ) → result ≡ settled_size plan (input_for (Err why) numbers) cells (length out.old) }
    ensures bytes { (numbers : List ℤ) (cells : ℕ) → out.new ≡ settled_slice plan (input_for (Err why) numbers) cells out.old }
{
    match why {
        Unsettled::Unreadable => write_unreadable(out),
        Unsettled::Refused(reason) => write_refused(reason.number(), reason.place(), out),
    }
}

// Opens the results that a sheet holds, one that opening does not refuse, and lists them with the welfare.
fn list_sheet(counts: Counts, welfare: i64, sheet: &[u32], out: &mut [u8]) -> usize
    requires { open_refusal counts.n counts.m sheet.now (result_count counts.n counts.m) ≡ none }
    ensures size { result ≡ text_size (leb text_room (length out.old)) (listing counts.n counts.m (opened_results counts.n counts.m sheet.now) welfare) }
    ensures bytes { out.new ≡ text_slice (leb text_room (length out.old)) (listing counts.n counts.m (opened_results counts.n counts.m sheet.now) welfare) out.old }
{
    // With no heap the results of this book are the first numbers of an array for the longest.
    let mut numbers = [0; RESULTS];
    let results = &mut numbers[..counts.results()];
    open(counts.n, counts.m, sheet, results).unwrap();
    write_listing(counts.n, counts.m, results, welfare, out)
}

// Clears the book of the tables that a text gave. A text's numbers are stored by how many were read, so both tables' lie one behind the other and are
// cut in two here. The counts are judged here, though no text that is read has others: a caller of `settle` may give any.
fn clear_tables(
    tables: Tables,
    numbers: &[i32; Reader::NUMBERS],
    sheet: &mut [u32],
) -> Result<(Counts, i64), Reason>
    ensures refusal { refusal_of result ≡ seal_refusal (book_at tables.n tables.m numbers.now) (length sheet.old) }
    ensures counts { IfOk result (λ given. (given.0.n ≡ tables.n) × (given.0.m ≡ tables.m)) }
    ensures welfare { IfOk result (λ given. given.1 ≡ clear_welfare plan (book_at tables.n tables.m numbers.now) (length sheet.old)) }
    ensures cells { sheet.new ≡ clear_sheet plan (book_at tables.n tables.m numbers.now) sheet.old }
{
    let counts = judge_counts(tables.n, tables.m)?;
    let bids = counts.bid_numbers();
    let all = counts.inputs();
    let book = LentBook {
        n: counts.n,
        m: counts.m,
        bids: &numbers[..bids],
        capacities: &numbers[bids..all],
    };
    let cleared = clear(&book, sheet)?;
    Ok((counts, cleared.welfare))
}

// Clears the book on the sheet lent and writes the listing of its results, or its refusal, at the start of out. The two are lent apart, since
// one call takes the sheet and another out.
fn settle_tables(
    tables: Tables,
    numbers: &[i32; Reader::NUMBERS],
    sheet: &mut [u32],
    out: &mut [u8],
) -> usize
    ensures size { result ≡ settled_size plan (tables_of tables.n tables.m numbers.now) (length sheet.old) (length out.old) }
    ensures cells { sheet.new ≡ settled_sheet plan (tables_of tables.n tables.m numbers.now) (length out.old) sheet.old }
    ensures bytes { out.new ≡ settled_slice plan (tables_of tables.n tables.m numbers.now) (length sheet.old) out.old }
{
    // Asked for before the sheet is touched.
    if out.len() < Listing::ROOM {
        return 0;
    }
    match clear_tables(tables, numbers, sheet) {
        Ok((counts, welfare)) => list_sheet(counts, welfare, sheet, out),
        Err(reason) => write_why(Unsettled::Refused(reason), out),
    }
}

// Writes, at the start of out, what settle prints for the text that was read, and gives its size. The sheet may hold anything.
// 0 is the size of nothing: no text is empty. The text is not given as a part of out, of which no clause could then say what stands behind the
// text. Sheet and out are two values: settle keeps its sheet to itself and hands out on.
pub fn settle(
    input: Input,
    numbers: &[i32; Reader::NUMBERS],
    sheet: &mut [u32],
    out: &mut [u8],
) -> usize
    ensures size { result ≡ settled_size plan (input_for input numbers.now) (length sheet.old) (length out.old) }
    ensures cells { sheet.new ≡ settled_sheet plan (input_for input numbers.now) (length out.old) sheet.old }
    ensures bytes { out.new ≡ settled_slice plan (input_for input numbers.now) (length sheet.old) out.old }
    ensures counted { (result ≤ length out.new) × (result ≡ length (take result out.new)) }
{
    match input {
        Ok(tables) => settle_tables(tables, numbers, sheet, out),
        Err(why) => write_why(why, out),
    }
}

// The same of a whole text: reads it and settles what it is. With no heap there is a place for each number of the longest tables.
pub fn settle_text(text: &[u8], sheet: &mut [u32], out: &mut [u8]) -> usize
    ensures size { result ≡ settled_size plan (settle_input text.now) (length sheet.old) (length out.old) }
    ensures cells { sheet.new ≡ settled_sheet plan (settle_input text.now) (length out.old) sheet.old }
    ensures bytes { out.new ≡ settled_slice plan (settle_input text.now) (length sheet.old) out.old }
    ensures printed { Prints plan text.now (length sheet.old) out.old result out.new }
    ensures counted { (result ≤ length out.new) × (result ≡ length (take result out.new)) }
{
    let mut numbers = [0; Reader::NUMBERS];
    let input = read(text, &mut numbers);
    settle(input, &numbers, sheet, out)
}
