// One call of the unit, from outside: the words of standard input say which call it is and what it is lent, and what it gives and leaves is printed.
// Input that is no call's, word for word, prints `unreadable`. So does a part of a call's input, which a failed read would leave: it lacks words.
#![tactic(auto)]

use crate::calls::{Call, Failure};
use gathering::gather;
use std::io;
use words::{Words, word};

mod calls;

// Reads the input and makes the call that it is. One byte more than there is room for tells that the input is too long.
fn read_and_call(rt: &HostRuntime, bytes: &mut [u8; Words::BYTES + 1]) -> Result<(), Failure> {
    let size = match gather(&mut rt.stdin(), bytes) {
        Ok(size) => size,
        Err(part) => part.size,
    };
    if Words::BYTES < size {
        return Err(Failure::Unreadable);
    }
    let input = &bytes[..size];
    Call::try_from(word(input, 0))?.make(rt, input)
}

fn main(rt: HostRuntime) -> io::Result<()> {
    // There is no heap: room for the longest input, and for one byte more.
    let mut bytes = [0u8; Words::BYTES + 1];
    match read_and_call(&rt, &mut bytes) {
        Ok(()) => Ok(()),
        Err(Failure::Unreadable) => rt.write_all(b"unreadable\n"),
        Err(Failure::Write(error)) => Err(error),
    }
}
