// The input as words of four bytes, lowest byte first, and the slices among them, each behind its length.
// A slice is named by its position alone, beside the input: one value of both would be made anew for each slice, and say no more.
// Every function here takes any input. Whether an input is that of a call is asked once, by `slices` or `slices_and_bytes`, before anything of it is used.
#![tactic(auto)]

ghost use Rattle.std.specs.Prelude.{◌≡◌, ℕ, ◌<◌, ◌≤◌, ◌-◌, ◌%◌, length, get_or, Some, is_some, option_map, IfSome};
ghost use Rattle.words.specs.Words.{word_room, word_at, signed_word, entry_at, slice_length, after_slice, after_slices, are_bytes, after_bytes, ends_at, is_call, is_call_with_bytes};

#[derive(Drop)]
pub struct Words {}

impl Words {
    // How many bytes a word has.
    const SIZE: usize = 4;

    // The greatest byte, as a word.
    const BYTE: u32 = 255;

    // How many words there is room for, and their bytes.
    pub const ROOM: usize = 8_192;

    pub const BYTES: usize = Self::SIZE * Self::ROOM;
}

// Word k, and 0 behind the last, where nothing is read once the form of the input is known: so no caller has a word missing to think of.
pub fn word(input: &[u8], k: usize) -> u32
    ensures { result ≡ word_at input.now k }
{
    let (words, _) = input.as_chunks::<{ Words::SIZE }>();
    words.get(k).map_or(0, |bytes| u32::from_le_bytes(*bytes))
}

// A word as an unsigned number, with `word`'s 0 behind the last.
// `word`, `number` and `signed` promise one word in three types: `number` reads a count or a length, which is no entry, and `FromWord` has no usize.
pub fn number(input: &[u8], k: usize) -> usize
    ensures { result ≡ word_at input.now k }
{
    word(input, k) as usize
}

// A word as a signed number.
pub fn signed(input: &[u8], k: usize) -> i32
    ensures { result ≡ signed_word (word_at input.now k) }
{
    i32::from_word(word(input, k))
}

// ---- Which input is that of a call

// The position behind the slice that begins, with its length, at a position; none if words are missing.
pub fn after_slice(input: &[u8], at: usize) -> Option<usize>
    ensures { result ≡ after_slice input.now at }
{
    let count = input.len() / Words::SIZE;
    if count <= at {
        return None;
    }
    let end = at + 1 + word(input, at) as usize;
    (end <= count).then_some(end)
}

// Where each of some slices in a row begins, and the position behind them; none if words are missing.
fn starts<const N: usize>(input: &[u8], at: usize) -> Option<([usize; N], usize)>
    ensures end { option_map (λ found. found.1) result ≡ after_slices input.now at N }
    ensures starts { IfSome result (λ found. (k : ℕ) → k < N → after_slices input.now at k ≡ Some (get_or found.0 k 0)) }
{
    let mut starts = [0; N];
    let mut end = at;
    for start in starts.iter_mut() {
        *start = end;
        end = after_slice(input, end)?;
    }
    Some((starts, end))
}

// Whether each word from one position up to another is a byte.
fn are_bytes(input: &[u8], from: usize, to: usize) -> bool
    ensures { result ≡ are_bytes input.now from (to - from) }
{
    for k in from..to {
        if Words::BYTE < word(input, k) {
            return false;
        }
    }
    true
}

// The position behind a slice of bytes; none if words are missing or one is no byte.
fn after_bytes(input: &[u8], at: usize) -> Option<usize>
    ensures { result ≡ after_bytes input.now at }
{
    let end = after_slice(input, at)?;
    are_bytes(input, at + 1, end).then_some(end)
}

// Whether the input is whole words, of which a position is the end.
fn ends_at(input: &[u8], at: usize) -> bool
    ensures { result ≡ ends_at input.now at }
{
    input.len() % Words::SIZE == 0 && at == input.len() / Words::SIZE
}

// Where each slice of a call begins, if the input is that of one: so many words and then N slices, and nothing more.
pub fn slices<const N: usize>(input: &[u8], before: usize) -> Option<[usize; N]>
    ensures form { is_some result ≡ is_call input.now before N }
    ensures starts { IfSome result (λ starts. (k : ℕ) → k < N → after_slices input.now before k ≡ Some (get_or starts k 0)) }
{
    let (starts, end) = starts(input, before)?;
    ends_at(input, end).then_some(starts)
}

// The same, with one more slice at the end, of bytes, and where that begins.
pub fn slices_and_bytes<const N: usize>(input: &[u8], before: usize) -> Option<([usize; N], usize)>
    ensures form { is_some result ≡ is_call_with_bytes input.now before N }
    ensures starts { IfSome result (λ found. (k : ℕ) → k < N → after_slices input.now before k ≡ Some (get_or found.0 k 0)) }
    ensures bytes { IfSome result (λ found. after_slices input.now before N ≡ Some found.1) }
{
    let (starts, bytes) = starts(input, before)?;
    let end = after_bytes(input, bytes)?;
    ends_at(input, end).then_some((starts, bytes))
}

// ---- The slices of a call

// What the entries of a slice are read as.
pub trait FromWord: Copy + Default {
    ghost of_word: { ℕ → Self };

    fn from_word(word: u32) -> Self
        ensures { result ≡ of_word word };
}

// A cell.
impl FromWord for u32 {
    ghost of_word = { λ v. v };

    fn from_word(word: u32) -> u32 {
        word
    }
}

// A number with its sign, by two's complement.
impl FromWord for i32 {
    ghost of_word = { signed_word };

    fn from_word(word: u32) -> i32 {
        word.cast_signed()
    }
}

impl FromWord for u8 {
    ghost of_word = { λ v. v % 256 };

    fn from_word(word: u32) -> u8 {
        (word % 256) as u8
    }
}

// Room for the entries of any slice. Nothing is said of what it holds: only of its length, by which a part of it is lent.
pub fn room<T: FromWord>() -> [T; Words::ROOM]
    ensures { word_room ≡ length result }
{
    [T::default(); Words::ROOM]
}

// How many entries the slice at a position has: as many as its length says, which there is always room for in the input of a call.
pub fn slice_length(input: &[u8], at: usize) -> usize
    ensures { (result ≡ slice_length input.now at) × (result ≤ word_room) }
{
    number(input, at).min(Words::ROOM)
}

// An entry of the slice at a position, and 0 behind the last word, as `word` has it.
fn entry(input: &[u8], at: usize, i: usize) -> u32
    ensures { result ≡ entry_at input.now at i }
{
    word(input, at.saturating_add(1).saturating_add(i))
}

// Copies the entries of the slice at a position, as many as there are places.
pub fn copy<T: FromWord>(input: &[u8], at: usize, places: &mut [T])
    ensures { (i : ℕ) (z : T) → i < length places.new → get_or places.new i z ≡ T.of_word (entry_at input.now at i) }
{
    for (i, place) in places.iter_mut().enumerate() {
        *place = T::from_word(entry(input, at, i));
    }
}
