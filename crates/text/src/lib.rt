// Settle's reader: the text comes piece by piece, and what was read of it is a small state by value.
// specs/ say what each step gives, and that a whole text gives what the documents say, however it is cut.
#![tactic(auto)]

ghost use Rattle.std.specs.Prelude.{◌≡◌};
ghost use Rattle.definitions.specs.Settle.{settle_input};
ghost use Rattle.stages.specs.Counting.{input_for};
ghost use Rattle.text.specs.Reading.{read_so_far, start_reader, fed, failed_read, after_byte, word_ended, answer_so_far};
ghost use Rattle.text.specs.Texts.{none_stored, whole_read};

use stages::words::{Word, is_blank};
use stages::{Input, Progress, Stage, answer, place, store, take_word};

// What was read of a text: the word that is not yet ended, and the stage that the words before it led to. Only their types are public, so that
// a caller's own types may hold a reader. The numbers read are lent to each call: they are too many to be copied with a reader at each byte.
#[derive(Clone, Copy)]
pub struct Reader {
    word: Word,
    stage: Progress,
}

impl Reader {
    // How many numbers the tables of a book have at most.
    pub const NUMBERS: usize = stages::NUMBERS;

    // Nothing is read.
    pub fn start() -> Reader
        ensures { result ≡ start_reader }
    {
        Reader {
            word: Word::Empty,
            stage: Ok(Stage::First),
        }
    }

    // The word has ended: its number is counted and stored.
    fn end_word(self, numbers: &mut [i32; Reader::NUMBERS]) -> Reader
        ensures value { result ≡ (word_ended (read_so_far self numbers.old)).reader }
        ensures numbers_after { numbers.new ≡ (word_ended (read_so_far self numbers.old)).numbers }
    {
        let ended = self.word.end();
        store(ended, place(self.stage), numbers);
        Reader {
            word: Word::Empty,
            stage: take_word(self.stage, ended),
        }
    }

    // One byte is read. Once the answer is known it changes nothing.
    fn step(self, byte: u8, numbers: &mut [i32; Reader::NUMBERS]) -> Reader
        ensures value { result ≡ (after_byte (read_so_far self numbers.old) byte).reader }
        ensures numbers_after { numbers.new ≡ (after_byte (read_so_far self numbers.old) byte).numbers }
    {
        if self.stage.is_err() {
            return self;
        }
        if is_blank(byte) {
            return self.end_word(numbers);
        }
        Reader {
            word: self.word.grow(byte),
            ..self
        }
    }

    // The next piece of the text. `numbers` gets the tables' numbers in order.
    pub fn feed(self, bytes: &[u8], numbers: &mut [i32; Reader::NUMBERS]) -> Reader
        ensures value { result ≡ (fed (read_so_far self numbers.old) bytes.now).reader }
        ensures numbers_after { numbers.new ≡ (fed (read_so_far self numbers.old) bytes.now).numbers }
    {
        let mut reader = self;
        for byte in bytes {
            reader = reader.step(*byte, numbers);
        }
        reader
    }

    // The text has ended, and with it its last word.
    pub fn finish(self, numbers: &mut [i32; Reader::NUMBERS]) -> Input
        ensures value { result ≡ answer_so_far (word_ended (read_so_far self numbers.old)) }
        ensures numbers_after { numbers.new ≡ (word_ended (read_so_far self numbers.old)).numbers }
    {
        let reader = self.end_word(numbers);
        answer(reader.stage)
    }

    // The text breaks off: its rest is not known, and the part that is may be a whole book. So a byte that no text may have is fed: the text is
    // then unreadable, unless its counts were refused before.
    pub fn break_off(self, numbers: &mut [i32; Reader::NUMBERS]) -> Input
        ensures value { result ≡ answer_so_far (word_ended (fed (read_so_far self numbers.old) failed_read)) }
        ensures numbers_after { numbers.new ≡ (word_ended (fed (read_so_far self numbers.old) failed_read)).numbers }
    {
        self.feed(b"?", numbers).finish(numbers)
    }
}

// Reads a whole text. `numbers` gets the tables' numbers in order, up to the fault if there is one, and 0 in every further place.
pub fn read(text: &[u8], numbers: &mut [i32; Reader::NUMBERS]) -> Input
    ensures input { input_for result numbers.new ≡ settle_input text.now }
    ensures stored { numbers.new ≡ (whole_read none_stored text.now).numbers }
{
    *numbers = [0; Reader::NUMBERS];
    let start = Reader::start();
    let reader = start.feed(text, numbers);
    reader.finish(numbers)
}
