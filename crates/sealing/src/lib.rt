// Sealing: writes a book that is not refused into the sheet, by rows or by columns.
#![tactic(auto)]

ghost use Rattle.std.specs.Prelude.{◌≡◌, ◌+◌, ◌-◌, ◌*◌, ◌<◌, ◌≤◌, ◌++◌, map, length, replicate, IfOk};
ghost use Rattle.definitions.specs.Limits.{cell_count, bid_numbers};
ghost use Rattle.definitions.specs.Arithmetic as arithmetic;
ghost use Rattle.definitions.specs.Answers.{refusal_of};
ghost use Rattle.definitions.specs.Book.{book_of};
ghost use Rattle.definitions.specs.Sheet.{sealed_sheet};
ghost use Rattle.definitions.specs.Calls.{seal_refusal, seal_sheet};
ghost use Rattle.definitions.specs.Columns.{column, column_sealed_sheet, seal_columns_sheet};
ghost use Rattle.sealing.specs.Numbers.{number_in_row};

use definitions::{Counts, LentBook, Limits, Reason};
use judging::judge_book;
use residues::residue;

// Writes numbers as residues into as many cells. `sums` has this loop for sizes; one that is given the function would say more in its contract than
// the loops do.
fn write_residues(numbers: &[i32], cells: &mut [u32])
    requires { length numbers.now ≡ length cells.old }
    ensures { cells.new ≡ map arithmetic.residue numbers.now }
{
    for (i, cell) in cells.iter_mut().enumerate() {
        let number = numbers[i];
        *cell = residue(number);
    }
}

// Writes one number of every bid as residues: that at a place of the bid's row.
fn write_column(book: &LentBook, place: usize, cells: &mut [u32])
    requires whole_rows { length book.now.bids.now ≡ bid_numbers * book.now.n }
    requires in_a_row { place < bid_numbers }
    requires a_cell_each { length cells.old ≡ book.now.n }
    ensures { cells.new ≡ column (number_in_row (book_of book.now) place) book.now.n }
{
    for (i, cell) in cells.iter_mut().enumerate() {
        let number = book.bids[Limits::BID_NUMBERS * i + place];
        *cell = residue(number);
    }
}

// Writes what stands behind the bids: the capacities, then 0 in every further cell.
fn write_behind_bids(capacities: &[i32], cells: &mut [u32])
    requires { length capacities.now ≤ length cells.old }
    ensures { cells.new ≡ map arithmetic.residue capacities.now ++ replicate (length cells.old - length capacities.now) 0 }
{
    let (lines, further) = cells.split_at_mut(capacities.len());
    write_residues(capacities, lines);
    further.fill(0);
}

// Writes the bids by rows, then what stands behind them.
#[tactic(auto, unfolding(definitions::specs::Sheet::sealed_sheet))]
fn write_book(book: &LentBook, sheet: &mut [u32])
    requires { length book.now.bids.now + length book.now.capacities.now ≤ length sheet.old }
    ensures { length sheet.old ≡ cell_count → sheet.new ≡ sealed_sheet (book_of book.now) }
{
    let bids = book.bids.len();
    write_residues(book.bids, &mut sheet[..bids]);
    write_behind_bids(book.capacities, &mut sheet[bids..]);
}

// Writes the pools, the prices, the hundredths and the quantities of all bids, then what stands behind them.
#[tactic(auto, unfolding(definitions::specs::Columns::column_sealed_sheet))]
fn write_columns(book: &LentBook, sheet: &mut [u32])
    requires whole_rows { length book.now.bids.now ≡ bid_numbers * book.now.n }
    requires room { length book.now.bids.now + length book.now.capacities.now ≤ length sheet.old }
    ensures { length sheet.old ≡ cell_count → sheet.new ≡ column_sealed_sheet (book_of book.now) }
{
    let n = book.n;
    let (pools, rest) = sheet.split_at_mut(n);
    let (prices, rest) = rest.split_at_mut(n);
    let (hundredths, rest) = rest.split_at_mut(n);
    let (quantities, rest) = rest.split_at_mut(n);
    write_column(book, 0, pools);
    write_column(book, Limits::PRICE_PLACE, prices);
    write_column(book, Limits::HUNDREDTHS_PLACE, hundredths);
    write_column(book, Limits::QUANTITY_PLACE, quantities);
    write_behind_bids(book.capacities, rest);
}

// Seals a book, or refuses it and leaves the sheet as it was.
#[tactic(auto, using(crate::proofs::Sealable::sealable), unfolding(definitions::specs::Calls::seal_sheet))]
pub fn seal(book: &LentBook, sheet: &mut [u32]) -> Result<Counts, Reason>
    ensures refusal { refusal_of result ≡ seal_refusal (book_of book.now) (length sheet.old) }
    ensures counts { IfOk result (λ counts. (counts.n ≡ book.now.n) × (counts.m ≡ book.now.m)) }
    ensures cells { sheet.new ≡ seal_sheet (book_of book.now) sheet.old }
{
    let counts = judge_book(book, sheet.len())?;
    write_book(book, sheet);
    Ok(counts)
}

// Seals a book by columns, or refuses it and leaves the sheet as it was.
#[tactic(auto, using(crate::proofs::Sealable::sealable), unfolding(definitions::specs::Columns::seal_columns_sheet))]
pub fn seal_columns(book: &LentBook, sheet: &mut [u32]) -> Result<Counts, Reason>
    ensures refusal { refusal_of result ≡ seal_refusal (book_of book.now) (length sheet.old) }
    ensures counts { IfOk result (λ counts. (counts.n ≡ book.now.n) × (counts.m ≡ book.now.m)) }
    ensures cells { sheet.new ≡ seal_columns_sheet (book_of book.now) sheet.old }
{
    let judged = judge_book(book, sheet.len())?;
    write_columns(book, sheet);
    Ok(judged)
}
