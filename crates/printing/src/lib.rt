// Lines on standard output: a name with its numbers, a verdict, the cells of a sheet. No contract can say what is written.
#![tactic(auto)]

use definitions::{Limits, Verdict};
use std::fmt::Display;
use std::{fmt, io};

// Numbers, each behind a space.
#[derive(Clone, Copy)]
struct Entries<'a, N>(&'a [N]);

impl<N: Display> Display for Entries<'_, N> {
    fn fmt<W: fmt::Write>(&self, f: &mut fmt::Formatter<W>) -> fmt::Result {
        for v in self.0 {
            write!(f, " {v}")?;
        }
        Ok(())
    }
}

// A name and numbers.
pub fn print_numbers<P: Print, N: Display>(rt: &P, name: &[u8], numbers: &[N]) -> io::Result<()> {
    rt.write_all(name)?;
    rt.println(Entries(numbers))
}

pub fn print_number<P: Print, N: Display + Copy>(rt: &P, name: &[u8], v: N) -> io::Result<()> {
    rt.write_all(name)?;
    println!(rt; " {v}")
}

// `accepted`, or `refused` with number and place.
pub fn print_verdict<P: Print>(rt: &P, verdict: Verdict) -> io::Result<()> {
    match verdict {
        Ok(()) => rt.println("accepted"),
        Err(reason) => rt.println(reason),
    }
}

// Each cell that is not 0, on a line of its own.
pub fn print_cells<P: Print>(rt: &P, sheet: &[u32; Limits::CELLS]) -> io::Result<()> {
    for (c, cell) in sheet.iter().enumerate() {
        if *cell != 0 {
            println!(rt; "cell {c} {cell}")?;
        }
    }
    Ok(())
}
