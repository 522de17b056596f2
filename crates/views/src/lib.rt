// Views: what one holder is shown of opened results.
#![tactic(auto)]

ghost use Rattle.std.specs.Prelude.{◌≡◌, length};
ghost use Rattle.definitions.specs.Answers.{refusal_of};
ghost use Rattle.definitions.specs.Views.{view_refusal, view_slice};

use definitions::{Reason, Verdict};
use judging::judge_results;

// Counts, the lengths of all three slices, then the holder: 1, 2, 3, 16.
#[tactic(auto, using(crate::proofs::Viewing::among_found), unfolding(definitions::specs::Views::view_refusal))]
fn judge_view(
    n: usize,
    m: usize,
    table: &[u32],
    holder: u32,
    results: usize,
    view: usize,
) -> Verdict
    ensures { refusal_of result ≡ view_refusal n m table.now holder results view }
{
    judge_results(n, m, results)?;
    if table.len() != n || view != results {
        return Err(Reason::Length);
    }
    if !table.contains(&holder) {
        return Err(Reason::Holder);
    }
    Ok(())
}

// Makes the view of the opened results of n bids and m pools that a holder is shown: every number, but 0 for the amount of another holder's bid.
// Or refuses and leaves `out` as lent.
#[tactic(auto, using(crate::proofs::Viewing::viewing), unfolding(definitions::specs::Views::view_slice))]
pub fn view(
    n: usize,
    m: usize,
    table: &[u32],
    holder: u32,
    results: &[i32],
    out: &mut [i32],
) -> Verdict
    ensures refusal { refusal_of result ≡ view_refusal n m table.now holder (length results.now) (length out.old) }
    ensures shown { out.new ≡ view_slice n m table.now holder results.now out.old }
{
    judge_view(n, m, table, holder, results.len(), out.len())?;
    out.copy_from_slice(results);
    for (i, owner) in table.iter().enumerate() {
        if *owner != holder {
            out[i] = 0;
        }
    }
    Ok(())
}
