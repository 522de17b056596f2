// A page that a text is written on, piece by piece.
ghost use Rattle.std.specs.Prelude.{◌++◌, ◌≤◌, length};
ghost use Rattle.definitions.specs.Settle.{decimal};

use itoa::{Buffer, Integer};

// A lent slice that is written from its start on, and how many bytes are written.
// A text without room is left out: who opens a page has asked for room for every text.
#[derive(Drop)]
pub(crate) struct Page<'a> {
    pub(crate) out: &'a mut [u8],
    pub(crate) size: usize,
    ghost within: { size ≤ length out.now },
}

// Texts and numbers are put one by one, where `write!` would print them: it ensures its bytes of a `String` only, and there is no heap.
impl Page<'_> {
    ghost use Rattle.listing.specs.Lines.{last_field};
    ghost use Rattle.listing.specs.Page.{Wrote};

    // A text, behind what is written.
    pub(crate) fn put(&mut self, text: &[u8])
        ensures { Wrote self.old text.now self.new }
    {
        if text.len() <= self.out.len() - self.size {
            let end = self.size + text.len();
            self.out[self.size..end].copy_from_slice(text);
            self.size = end;
        }
    }

    // A number: its decimal digits, with a minus before them if it is below 0.
    fn put_number<N: Integer>(&mut self, v: N)
        ensures { Wrote self.old (N.text v) self.new }
    {
        let mut digits = Buffer::new();
        self.put(digits.format(v).as_bytes());
    }

    // A word, and a number behind it.
    pub(crate) fn put_field(&mut self, word: &[u8], v: usize)
        ensures { Wrote self.old (word.now ++ decimal v) self.new }
    {
        self.put(word);
        self.put_number(v);
    }

    // The last field of a line, with the space before it and the line's end.
    pub(crate) fn put_last(&mut self, v: i64)
        ensures { Wrote self.old (last_field v) self.new }
    {
        self.put(b" ");
        self.put_number(v);
        self.put(b"\n");
    }
}
