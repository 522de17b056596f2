// Runs the plan bytes of standard input on an empty sheet, and prints the count of orders and every cell that is not 0, or the refusal.
// A part of a plan is not run: where more is left to read than the room takes, or a read fails, `not read whole` is printed.
#![tactic(auto)]

use definitions::Limits;
use gathering::gather;
use printing::{print_cells, print_number};
use runner::run;
use std::io;

#[derive(Clone, Copy)]
struct Replay {}

impl Replay {
    // Room for the bytes of a plan: the longest, for 64 bids and 4 pools, has about 408,000.
    const ROOM: usize = 524_288;
}

// Runs plan bytes on an empty sheet and prints what that leaves, or why they are refused.
fn run_and_print(rt: &impl Print, bytes: &[u8]) -> io::Result<()> {
    let mut sheet = [0u32; Limits::CELLS];
    match run(&mut sheet, bytes) {
        Ok(orders) => {
            print_number(rt, b"orders", orders)?;
            print_cells(rt, &sheet)
        }
        Err(reason) => rt.println(reason),
    }
}

// Reads a plan into the bytes lent, and runs it.
fn read_and_run(rt: &HostRuntime, bytes: &mut [u8; Replay::ROOM]) -> io::Result<()> {
    match gather(&mut rt.stdin(), bytes) {
        Ok(size) => run_and_print(rt, &bytes[..size]),
        Err(_) => rt.println("not read whole"),
    }
}

fn main(rt: HostRuntime) -> io::Result<()> {
    // There is no heap: room for the longest plan.
    let mut bytes = [0u8; Replay::ROOM];
    read_and_run(&rt, &mut bytes)
}
