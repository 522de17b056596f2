// The runner: checks all bytes of a plan, then runs their orders on the sheet.
#![tactic(auto)]

ghost use Rattle.std.specs.Prelude.{◌≡◌, ◌-◌, length, IfOk};
ghost use Rattle.std.specs.Iterator.{at_most};
ghost use Rattle.definitions.specs.Answers.{refusal_of, given_or};
ghost use Rattle.definitions.specs.Machine.{IsSheet, run_of};
ghost use Rattle.definitions.specs.Bytes.{parse};
ghost use Rattle.definitions.specs.Calls.{run_refusal, run_sheet, run_count};
ghost use Rattle.runner.specs.Left.{left, ReadsNext};

use codec::read_order;
use definitions::{Limits, Order, Reason, Verdict};
use judging::judge_cells;
use machine::step;

// The orders of some bytes from an offset on, one by one. It ends with the bytes, or after an order that is refused.
#[derive(Drop)]
struct Orders<'a> {
    bytes: &'a [u8],
    at: usize,
}

impl<'a> Iterator for Orders<'a> {
    type Item = Result<Order, Reason>;

    ghost next_gives = { ReadsNext };

    ghost remaining = { λ s. at_most (length s.bytes.now - s.at) };

    fn next(&mut self) -> Option<Result<Order, Reason>> {
        if self.bytes.len() <= self.at {
            return None;
        }
        match read_order(self.bytes, self.at) {
            Ok((order, next)) => {
                self.at = next;
                Some(Ok(order))
            }
            Err(reason) => {
                self.at = self.bytes.len();
                Some(Err(reason))
            }
        }
    }
}

impl<'a> Orders<'a> {
    // The orders of all bytes.
    fn of(bytes: &'a [u8]) -> Self
        ensures { left result ≡ parse bytes.now }
    {
        Orders { bytes, at: 0 }
    }
}

// The first order that is refused.
fn judge_bytes(bytes: &[u8]) -> Verdict
    ensures { refusal_of result ≡ (parse bytes.now).refusal }
{
    for order in Orders::of(bytes) {
        order?;
    }
    Ok(())
}

// The sheet, then all bytes.
fn judge_run(sheet: &[u32], bytes: &[u8]) -> Verdict
    ensures { refusal_of result ≡ run_refusal sheet.now bytes.now }
{
    if sheet.len() != Limits::CELLS {
        return Err(Reason::Length);
    }
    judge_cells(sheet)?;
    judge_bytes(bytes)
}

// Runs the orders of some bytes one after another, up to one that is refused, and counts them.
fn run_orders(sheet: &mut [u32], bytes: &[u8]) -> Result<usize, Reason>
    requires { IsSheet sheet.old }
    ensures refusal { refusal_of result ≡ (parse bytes.now).refusal }
    ensures count { IfOk result (λ count. count ≡ length (parse bytes.now).orders) }
    ensures cells { sheet.new ≡ run_of (parse bytes.now).orders sheet.old }
{
    let mut count = 0;
    for order in Orders::of(bytes) {
        step(sheet, order?);
        count += 1;
    }
    Ok(count)
}

// Runs the orders of some bytes on a sheet if nothing is refused, and gives how many they are.
// Sheet and bytes stay two parameters: only the sheet changes, and a struct of both would be taken apart at once.
pub fn run(sheet: &mut [u32], bytes: &[u8]) -> Result<usize, Reason>
    ensures refusal { refusal_of result ≡ run_refusal sheet.old bytes.now }
    ensures count { given_or 0 result ≡ run_count sheet.old bytes.now }
    ensures cells { sheet.new ≡ run_sheet sheet.old bytes.now }
{
    judge_run(sheet, bytes)?;
    run_orders(sheet, bytes)
}
