// The calls of the C host, on numbers and byte slices: the plan's total, and its bytes from a position on, by rows or by columns.
// Each returns the refusal's number, 0 for none, and gives its numbers in a further slice, 8 bytes each, lowest byte first.
#![tactic(auto)]

ghost use Rattle.std.specs.Prelude.{◌≡◌, length};
ghost use Rattle.definitions.specs.Answers.{number_of, refusal_of};
ghost use Rattle.definitions.specs.Plan.{lowest_first, count_bytes, number_size, counts_size, total_refusal, total_slice, bytes_refusal, bytes_slice, counts_slice};
ghost use Rattle.definitions.specs.Columns.{column_plan};
ghost use Rattle.plan.specs.Plan.{plan};
ghost use Rattle.columns.specs.Plans.{plan_by};
ghost use Rattle.orders.specs.Answer.{written_of};

use columns::Numbering;
use definitions::{Reason, Verdict};
use judging::judge_counts;
use orders::{Plan, Written, write_by};

// How many bytes one number takes, and the writer's three.
const NUMBER_BYTES: usize = 8;

const COUNTS_BYTES: usize = 3 * NUMBER_BYTES;

// The number that a call returns: C has no `Result`.
fn returned(verdict: Verdict) -> u32
    ensures { result ≡ number_of (refusal_of verdict) }
{
    match verdict {
        Ok(()) => 0,
        Err(reason) => reason.number(),
    }
}

// Fills 8 bytes with a number.
#[tactic(auto, using(crate::proofs::Numbers::bytes_are))]
fn put_number(out: &mut [u8], v: usize)
    requires { length out.old ≡ number_size }
    ensures { out.new ≡ lowest_first number_size v }
{
    out.copy_from_slice(&(v as u64).to_le_bytes());
}

fn put_counts(out: &mut [u8], written: Written)
    requires { length out.old ≡ counts_size }
    ensures { out.new ≡ count_bytes (written_of written) }
{
    let (bytes, rest) = out.split_at_mut(NUMBER_BYTES);
    let (orders, next) = rest.split_at_mut(NUMBER_BYTES);
    put_number(bytes, written.bytes);
    put_number(orders, written.orders);
    put_number(next, written.next);
}

// 1, 2, 3 are judged before the plan's tables are made, from which the total comes.
#[tactic(auto, unfolding(definitions::specs::Plan::total_refusal, definitions::specs::Plan::total_slice, definitions::specs::Plan::total))]
fn give_total(n: usize, m: usize, out: &mut [u8]) -> Verdict
    ensures refusal { refusal_of result ≡ total_refusal n m (length out.old) }
    ensures total { out.new ≡ total_slice plan n m out.old }
{
    judge_counts(n, m)?;
    if out.len() != NUMBER_BYTES {
        return Err(Reason::Length);
    }
    let total = Plan::total(n, m)?;
    put_number(out, total);
    Ok(())
}

// 1, 2, 3 are judged here, 13 and 14 by the writer.
#[tactic(auto, unfolding(definitions::specs::Plan::bytes_refusal, definitions::specs::Plan::bytes_slice, definitions::specs::Plan::counts_slice, definitions::specs::Plan::write_refusal, definitions::specs::Plan::ask_refusal, definitions::specs::Plan::write_slice, definitions::specs::Plan::write_counts))]
fn give_bytes(
    by: Numbering,
    n: usize,
    m: usize,
    position: usize,
    bytes: &mut [u8],
    out: &mut [u8],
) -> Verdict
    ensures refusal { refusal_of result ≡ bytes_refusal (plan_by by plan) n m position (length bytes.old) (length out.old) }
    ensures bytes { bytes.new ≡ bytes_slice (plan_by by plan) n m position bytes.old (length out.old) }
    ensures counts { out.new ≡ counts_slice (plan_by by plan) n m position (length bytes.old) out.old }
{
    judge_counts(n, m)?;
    if out.len() != COUNTS_BYTES {
        return Err(Reason::Length);
    }
    let written = write_by(by, n, m, position, bytes)?;
    put_counts(out, written);
    Ok(())
}

// The plan's total, in 8 bytes.
#[unsafe(no_mangle)]
pub extern "C" fn plan_total(n: u64, m: u64, out: &mut [u8]) -> u32
    ensures refusal { result ≡ number_of (total_refusal n m (length out.old)) }
    ensures total { out.new ≡ total_slice plan n m out.old }
{
    returned(give_total(n as usize, m as usize, out))
}

// The plan's bytes from a position on, and in 24 bytes how many bytes and orders they are, and the next position.
#[unsafe(no_mangle)]
pub extern "C" fn plan_bytes(n: u64, m: u64, position: u64, bytes: &mut [u8], out: &mut [u8]) -> u32
    ensures refusal { result ≡ number_of (bytes_refusal plan n m position (length bytes.old) (length out.old)) }
    ensures bytes { bytes.new ≡ bytes_slice plan n m position bytes.old (length out.old) }
    ensures counts { out.new ≡ counts_slice plan n m position (length bytes.old) out.old }
{
    returned(give_bytes(
        Numbering::Rows,
        n as usize,
        m as usize,
        position as usize,
        bytes,
        out,
    ))
}

// The same of the column plan.
#[unsafe(no_mangle)]
pub extern "C" fn column_plan_bytes(
    n: u64,
    m: u64,
    position: u64,
    bytes: &mut [u8],
    out: &mut [u8],
) -> u32
    ensures refusal { result ≡ number_of (bytes_refusal (column_plan plan) n m position (length bytes.old) (length out.old)) }
    ensures bytes { bytes.new ≡ bytes_slice (column_plan plan) n m position bytes.old (length out.old) }
    ensures counts { out.new ≡ counts_slice (column_plan plan) n m position (length bytes.old) out.old }
{
    returned(give_bytes(
        Numbering::Columns,
        n as usize,
        m as usize,
        position as usize,
        bytes,
        out,
    ))
}
