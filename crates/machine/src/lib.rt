// The machine: one order on the sheet.
#![tactic(auto)]

ghost use Rattle.std.specs.Prelude.{◌≡◌, true, ◌%◌, ◌<◌};
ghost use Rattle.definitions.specs.Limits.{modulus};
ghost use Rattle.definitions.specs.Machine.{step_of};
ghost use Rattle.machine.specs.Step.{holds_residue, constant_runs, cells_run, runnable, stepped};
ghost use Rattle.machine.specs.Parts.{kind_result};

use definitions::{Limits, Order, Parts};
use residues::reading;

fn modulo_p(v: u64) -> u32
    ensures { result ≡ v % modulus }
{
    (v % Limits::MODULUS as u64) as u32
}

// What an order of a kind makes of its constant or of two residues; no order has an unknown kind.
// Document 01 has the machine decide by the kind's number, with a range for the unknown ones.
fn result(kind: u32, k: u32, x: u32, y: u32) -> u32
    requires { 0 < kind → (x < modulus) × (y < modulus) }
    ensures { result ≡ kind_result kind k x y }
{
    match kind {
        0 => k,
        1 => modulo_p(x as u64 + y as u64),
        2 => modulo_p(x as u64 + Limits::MODULUS as u64 - y as u64),
        3 => modulo_p(x as u64 * y as u64),
        4 => u32::from(reading(x) < reading(y)),
        5 => u32::from(x == y),
        6..=u32::MAX => 0,
    }
}

// Whether a cell is one of the sheet's and holds a residue.
fn holds_residue(sheet: &[u32; Limits::CELLS], c: usize) -> bool
    ensures { result ≡ holds_residue sheet.now c }
{
    sheet.get(c).is_some_and(|x| *x < Limits::MODULUS)
}

// Order 0 runs if d is a cell and k is below p: it reads no cell.
fn constant_runs(d: usize, k: u32) -> bool
    ensures { result ≡ constant_runs d k }
{
    d < Limits::CELLS && k < Limits::MODULUS
}

// Orders 1 to 5 run if d, a and b are cells, and a and b hold residues.
fn cells_run(sheet: &[u32; Limits::CELLS], d: usize, a: usize, b: usize) -> bool
    ensures { result ≡ cells_run sheet.now d a b }
{
    d < Limits::CELLS && holds_residue(sheet, a) && holds_residue(sheet, b)
}

// Whether the sheet has 4,096 cells, the order is the machine's, and the cells that it reads hold residues.
fn is_runnable(sheet: &[u32], order: Order) -> bool
    ensures { result ≡ runnable sheet.now order }
{
    let Some(cells) = sheet.as_array() else {
        return false;
    };
    match order {
        Order::Constant { d, k } => constant_runs(d, k),
        Order::Sum { d, a, b }
        | Order::Difference { d, a, b }
        | Order::Product { d, a, b }
        | Order::Less { d, a, b }
        | Order::Equal { d, a, b } => cells_run(cells, d, a, b),
    }
}

// One order on the sheet: both cells are read before the target is written.
fn step_within(sheet: &mut [u32], order: Order)
    requires { runnable sheet.old order ≡ true }
    ensures { sheet.new ≡ step_of sheet.old order }
{
    let Parts { kind, d, k, a, b } = Parts::from(order);
    sheet[d] = result(kind, k, sheet[a], sheet[b]);
}

// One order on a sheet of 4,096 cells: it runs if it is the machine's (its cells below 4,096, its constant below p) and
// the cells that it reads hold residues. Any other order, and any order on a slice of another length, leaves the slice as it is.
#[tactic(auto, unfolding(crate::specs::Step::stepped))]
pub fn step(sheet: &mut [u32], order: Order)
    ensures { sheet.new ≡ stepped sheet.old order }
{
    if is_runnable(sheet, order) {
        step_within(sheet, order);
    }
}
