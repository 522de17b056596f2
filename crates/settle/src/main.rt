// Settle: reads a book's text from standard input and prints its clearing, or why there is none.
// No contract can say which bytes a read gives. So `take_turn` says what each answer of a read makes of the text so far, `read_text` that its answer
// is that of the text that some reads give, and `list_text` which bytes are to be printed for an answer.
#![tactic(auto)]

ghost use Rattle.std.specs.Prelude.{◌≡◌};
ghost use Rattle.definitions.specs.Settle.{input_text};
ghost use Rattle.plan.specs.Plan.{plan};
ghost use Rattle.stages.specs.Counting.{input_for};
ghost use Rattle.text.specs.Reading.{read_so_far};
ghost use Rattle.settle.specs.Turns.{turned, ReadWhole, PrintsWhole};

use definitions::Limits;
use listing::Listing;
use settlement::settle;
use stages::Input;
use std::io;
use std::io::Read;
use std::ops::ControlFlow;
use text::Reader;

// The bytes that are read at once.
const PIECE: usize = 4_096;

// One turn, by how many bytes a read put at the start of piece, all of it at most: 0 at the end of the input, none where it failed.
// It leads on to the next turn's reader, or the text is over. The piece comes whole beside its count: a failed read and the end have no part of it.
fn take_turn(
    reader: Reader,
    read: Option<usize>,
    piece: &[u8],
    numbers: &mut [i32; Reader::NUMBERS],
) -> ControlFlow<Input, Reader>
    ensures value { result ≡ (turned (read_so_far reader numbers.old) read piece.now).turn }
    ensures numbers_after { numbers.new ≡ (turned (read_so_far reader numbers.old) read piece.now).numbers }
{
    match read {
        None => ControlFlow::Break(reader.break_off(numbers)),
        Some(0) => ControlFlow::Break(reader.finish(numbers)),
        Some(size) => {
            let end = size.min(piece.len());
            ControlFlow::Continue(reader.feed(&piece[..end], numbers))
        }
    }
}

// Reads turn by turn until the text is over.
// A proved loop has to end, and nothing says that an input does. So there is a number of turns that no run uses up;
// a text that went on longer would be broken off there.
fn read_text<R: Read>(source: &mut R, numbers: &mut [i32; Reader::NUMBERS]) -> Input
    ensures { ReadWhole numbers.old result numbers.new }
{
    let mut reader = Reader::start();
    for _ in 0..u64::MAX {
        let mut piece = [0u8; PIECE];
        let read = source.read(&mut piece).ok();
        match take_turn(reader, read, &piece, numbers) {
            ControlFlow::Continue(next) => reader = next,
            ControlFlow::Break(input) => return input,
        }
    }
    reader.break_off(numbers)
}

// What is to be printed for the text that was read, written at the start of out.
fn list_text<'a>(
    input: Input,
    numbers: &[i32; Reader::NUMBERS],
    out: &'a mut [u8; Listing::ROOM],
) -> &'a [u8]
    ensures { result.now ≡ input_text plan (input_for input numbers.now) }
{
    let mut sheet = [0u32; Limits::CELLS];
    let size = settle(input, numbers, &mut sheet, out);
    &out[..size]
}

// Both: reads the text and writes what is to be printed for it.
// With no heap, its numbers and what is printed are lent arrays that hold the longest.
fn settled<'a, R: Read>(source: &mut R, out: &'a mut [u8; Listing::ROOM]) -> &'a [u8]
    ensures { PrintsWhole result.now }
{
    let mut numbers = [0i32; Reader::NUMBERS];
    let input = read_text(source, &mut numbers);
    list_text(input, &numbers, out)
}

fn main(rt: HostRuntime) -> io::Result<()> {
    let mut out = [0u8; Listing::ROOM];
    rt.write_all(settled(&mut rt.stdin(), &mut out))
}
