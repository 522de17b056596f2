// Whole numbers as residues modulo p, and back.
#![tactic(auto)]

ghost use Rattle.std.specs.Prelude.{◌≡◌};
ghost use Rattle.definitions.specs.Arithmetic as arithmetic;
ghost use Rattle.residues.specs.Residues.{read};

use definitions::Limits;

// A number as a cell holds it: a negative one is raised by p. For all numbers of less than p in size that is a residue.
// The least i32 stays below 0 even when raised and becomes 0; the greatest is p, which is no residue, and stays p.
// No accepted book holds either, so an `Option` would ask each caller for a case that never comes.
pub fn residue(v: i32) -> u32
    ensures { result ≡ arithmetic.residue v }
{
    let size = v.unsigned_abs();
    if v < 0 {
        Limits::MODULUS.saturating_sub(size)
    } else {
        size
    }
}

// A cell read with sign; a number that is no residue, which no sheet holds, as 0.
// Two functions and no conversions of a type of residues: document 01 has cells of u32 and readings of i32.
pub fn reading(x: u32) -> i32
    ensures { result ≡ read x }
{
    if Limits::MODULUS <= x {
        0
    } else if Limits::POSITIVE < x {
        x as i32 - Limits::MODULUS as i32
    } else {
        x as i32
    }
}
