// Input, read into a buffer that is lent.
#![tactic(auto)]

ghost use Rattle.std.specs.Prelude.{MatchResult};
ghost use Rattle.gathering.specs.Counts.{IsPrefixLen};

use std::io::Read;

// So many bytes were read, and they may be only a part of the input: it had more than there was room for, or a read failed.
#[derive(Clone, Copy, Debug, PartialEq, Eq)]
pub struct Part {
    pub size: usize,
}

// Reads until the input ends, a read fails or the buffer is full; then one byte more tells whether the input is over.
// Gives how many bytes a whole input has.
pub fn gather<R: Read>(input: &mut R, bytes: &mut [u8]) -> Result<usize, Part>
    ensures { MatchResult result (λ size. IsPrefixLen size bytes.new) (λ part. IsPrefixLen part.size bytes.new) }
{
    let mut size = 0;
    while size < bytes.len() {
        match input.read(&mut bytes[size..]) {
            Ok(0) => return Ok(size),
            Ok(n) => size += n,
            Err(_) => return Err(Part { size }),
        }
    }
    match input.read(&mut [0]) {
        Ok(0) => Ok(size),
        _ => Err(Part { size }),
    }
}
