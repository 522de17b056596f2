// A word of the text: what it is byte by byte, and once it has ended.
ghost use Rattle.std.specs.Prelude.{◌≡◌};
ghost use Rattle.definitions.specs.Settle.{blank};
ghost use Rattle.stages.specs.Words.{no_digits, digit_after, signed_of, grown_by, ended_of};

// A blank stands between numbers.
pub fn is_blank(byte: u8) -> bool
    ensures { result ≡ blank byte }
{
    matches!(byte, b' ' | b'\n')
}

// The word being read: nothing yet, a minus alone, digits, or no number whatever follows.
#[derive(Clone, Copy)]
pub enum Word {
    Empty,
    Minus,
    Digits(Digits),
    NoNumber,
}

impl Word {
    // The word with one byte more, which is no blank.
    pub fn grow(self, byte: u8) -> Word
        ensures { result ≡ grown_by self byte }
    {
        match self {
            Word::Empty if byte == b'-' => Word::Minus,
            Word::Empty => Digits::none(false).grow(byte),
            Word::Minus => Digits::none(true).grow(byte),
            Word::Digits(digits) => digits.grow(byte),
            Word::NoNumber => Word::NoNumber,
        }
    }

    // What the word is as it stands, once it has ended.
    pub fn end(self) -> Ended
        ensures { result ≡ ended_of self }
    {
        match self {
            Word::Empty => Ok(None),
            Word::Digits(digits) => digits.end(),
            Word::Minus | Word::NoNumber => Err(NoNumber {}),
        }
    }
}

// Digits by their sign and their value.
#[derive(Clone, Copy)]
pub struct Digits {
    pub negative: bool,
    pub value: u32,
}

impl Digits {
    // Stands for every value beyond signed 32 bits: a word stays digits however many follow, as its definition says, and only its end judges them.
    const BEYOND: u64 = 2_147_483_649;

    // No digit yet.
    fn none(negative: bool) -> Digits
        ensures { result ≡ no_digits negative }
    {
        Digits { negative, value: 0 }
    }

    // One byte more.
    fn grow(self, byte: u8) -> Word
        ensures { result ≡ digit_after self byte }
    {
        if !byte.is_ascii_digit() {
            return Word::NoNumber;
        }
        let value = 10 * u64::from(self.value) + u64::from(byte - b'0');
        Word::Digits(Digits {
            value: value.min(Digits::BEYOND) as u32,
            ..self
        })
    }

    // The number of that sign and size, if it is within signed 32 bits.
    fn end(self) -> Ended
        ensures { result ≡ signed_of self }
    {
        let size = i64::from(self.value);
        let z = if self.negative { -size } else { size };
        i32::try_from(z).map(Some).map_err(|_| NoNumber {})
    }
}

// A word has ended that is no number within signed 32 bits.
#[derive(Clone, Copy, Debug, PartialEq, Eq)]
pub struct NoNumber {}

// What a word is once it has ended: its number, or none where it has no byte.
pub type Ended = Result<Option<i32>, NoNumber>;
