// Opening: copies the signed readings of the result cells.
#![tactic(auto)]

ghost use Rattle.std.specs.Prelude.{◌≡◌, length, IfOk};
ghost use Rattle.definitions.specs.Answers.{refusal_of};
ghost use Rattle.definitions.specs.Calls.{open_refusal, open_slice};

use definitions::{Counts, Limits, Reason, Verdict};
use judging::{judge_cells, judge_results};
use residues::reading;

// Counts, lengths, then the cells: 1, 2, 3, 15.
#[tactic(auto, unfolding(definitions::specs::Calls::open_refusal))]
fn judge_opening(n: usize, m: usize, sheet: &[u32], results: usize) -> Result<Counts, Reason>
    ensures refusal { refusal_of result ≡ open_refusal n m sheet.now results }
    ensures counts { IfOk result (λ counts. (counts.n ≡ n) × (counts.m ≡ m)) }
{
    let counts = judge_results(n, m, results)?;
    if sheet.len() != Limits::CELLS {
        return Err(Reason::Length);
    }
    judge_cells(sheet)?;
    Ok(counts)
}

// Opens the results of a run for n bids and m pools, or refuses and leaves `out` as lent.
#[tactic(auto, using(crate::specs::Openable::results_fit), unfolding(definitions::specs::Calls::open_slice))]
pub fn open(n: usize, m: usize, sheet: &[u32], out: &mut [i32]) -> Verdict
    ensures refusal { refusal_of result ≡ open_refusal n m sheet.now (length out.old) }
    ensures results { out.new ≡ open_slice n m sheet.now out.old }
{
    let counts = judge_opening(n, m, sheet, out.len())?;
    let first = counts.first_result();
    for (i, result) in out.iter_mut().enumerate() {
        *result = reading(sheet[first + i]);
    }
    Ok(())
}
