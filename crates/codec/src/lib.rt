// An order's bytes, read at an offset and written at one.
#![tactic(auto)]

ghost use Rattle.std.specs.Prelude.{◌≡◌, ◌≤◌, ◌++◌, ℕ, true, length, is_some};
ghost use Rattle.definitions.specs.Answers.{stated};
ghost use Rattle.definitions.specs.Bytes.{most_groups, groups, number_bytes, order_bytes, read_groups, placed, number_at, kind_at, cell_at, constant_at, order_at, cells_orders, of_kind};
ghost use Rattle.definitions.specs.Plan.{over};
ghost use Rattle.codec.specs.Answer.{answer_at, result_answer, groups_answer, limited_answer, kind_answer};
ghost use Rattle.codec.specs.Written.{size_answer, has_room, written_size, written_bytes};

use definitions::{Limits, Order, Parts, Reason};

// A number has at most five groups.
const MOST_GROUPS: usize = 5;

// The kinds are 0 to 5.
const KINDS: u32 = 6;

// Why no number begins some bytes: they end before its last group, or it isn't one below 2^32 in its shortest form.
#[derive(Clone, Copy)]
enum Fault {
    CutShort,
    Form,
}

// At most g groups at the head of some bytes: their value, and how many they are. The last group is 0 only if it is the first too.
// `first` stays a flag, as in the definition: two functions would share all but one test.
fn read_groups(bytes: &[u8], g: usize, first: bool) -> Result<(usize, usize), Fault>
    requires { g ≤ most_groups }
    ensures { groups_answer result ≡ read_groups g first bytes.now }
{
    if g == 0 {
        return Err(Fault::Form);
    }
    let Some((x, rest)) = bytes.split_first() else {
        return Err(Fault::CutShort);
    };
    let x = *x as usize;
    if x < 128 {
        if x == 0 && !first {
            return Err(Fault::Form);
        }
        return Ok((x, 1));
    }
    let (v, n) = read_groups(rest, g - 1, false)?;
    Ok((x % 128 + 128 * v, n + 1))
}

// A number below 2^32 at the head of some bytes, in its shortest form, and how many groups it has.
fn read_number(bytes: &[u8]) -> Result<(u32, usize), Fault>
    ensures { (at : ℕ) → placed at (groups_answer result) ≡ placed at (read_groups most_groups true bytes.now) }
{
    let (v, n) = read_groups(bytes, MOST_GROUPS, true)?;
    let v = u32::try_from(v).map_err(|_| Fault::Form)?;
    Ok((v, n))
}

// The bytes that an order is read from, and the offset of its first, which is the place of a refusal.
// What is read comes with the offset after it, as in the definition: a cursor would keep that offset as a second one, beside the first byte's.
#[derive(Clone, Copy)]
struct Source<'a> {
    bytes: &'a [u8],
    start: usize,
}

impl Source<'_> {
    // A number below 2^32, in its shortest form.
    fn number(&self, at: usize) -> Result<(u32, usize), Reason>
        ensures { result_answer result ≡ answer_at self.now.start (number_at self.now.bytes.now at) }
    {
        let rest = self.bytes.get(at..).unwrap_or(&[]);
        match read_number(rest) {
            Ok((v, n)) => Ok((v, at + n)),
            Err(Fault::Form) => Err(Reason::Form(self.start)),
            Err(Fault::CutShort) => Err(Reason::CutShort(self.start)),
        }
    }

    // A number below a limit, else the reason.
    fn limited(&self, at: usize, limit: u32, over: Reason) -> Result<(u32, usize), Reason>
        ensures { result_answer result ≡ limited_answer limit (stated over) (answer_at self.now.start (number_at self.now.bytes.now at)) }
    {
        let (v, next) = self.number(at)?;
        if limit <= v {
            return Err(over);
        }
        Ok((v, next))
    }

    // The order's kind.
    fn kind(&self) -> Result<(u32, usize), Reason>
        ensures { result_answer result ≡ answer_at self.now.start (kind_at self.now.bytes.now self.now.start) }
    {
        self.limited(self.start, KINDS, Reason::Kind(self.start))
    }

    // A cell that the order names.
    fn cell(&self, at: usize) -> Result<(usize, usize), Reason>
        ensures { result_answer result ≡ answer_at self.now.start (cell_at self.now.bytes.now at) }
    {
        let (c, next) = self.limited(at, Limits::CELLS as u32, Reason::Operand(self.start))?;
        Ok((c as usize, next))
    }

    // The order's constant.
    fn constant(&self, at: usize) -> Result<(u32, usize), Reason>
        ensures { result_answer result ≡ answer_at self.now.start (constant_at self.now.bytes.now at) }
    {
        self.limited(at, Limits::MODULUS, Reason::Operand(self.start))
    }
}

// The order of a kind with two cells. The kinds are document 01's numbers: an enum of kinds would list these and the orders once more.
fn cells_order(kind: u32, d: usize, a: usize, b: usize) -> Option<Order>
    ensures { (next : ℕ) → kind_answer next result ≡ of_kind kind next (cells_orders d a b) }
{
    match kind {
        1 => Some(Order::Sum { d, a, b }),
        2 => Some(Order::Difference { d, a, b }),
        3 => Some(Order::Product { d, a, b }),
        4 => Some(Order::Less { d, a, b }),
        5 => Some(Order::Equal { d, a, b }),
        _ => None,
    }
}

// The order at an offset and the offset after it, number by number.
pub fn read_order(bytes: &[u8], at: usize) -> Result<(Order, usize), Reason>
    ensures { result_answer result ≡ answer_at at (order_at bytes.now at) }
{
    let source = Source { bytes, start: at };
    let (kind, next) = source.kind()?;
    let (d, next) = source.cell(next)?;
    if kind == 0 {
        let (k, next) = source.constant(next)?;
        return Ok((Order::Constant { d, k }, next));
    }
    let (a, next) = source.cell(next)?;
    let (b, next) = source.cell(next)?;
    let order = cells_order(kind, d, a, b).ok_or(Reason::Kind(at))?;
    Ok((order, next))
}

// How many of at most g groups a number has.
fn group_count(v: usize, g: usize) -> usize
    ensures { result ≡ length (groups g v) }
{
    if g == 0 {
        return 0;
    }
    if v < 128 {
        return 1;
    }
    1 + group_count(v / 128, g - 1)
}

// How many bytes a number has.
fn number_size(v: usize) -> usize
    ensures { (result ≡ length (number_bytes v)) × (result ≤ most_groups) }
{
    group_count(v, MOST_GROUPS)
}

// How many bytes an order has. Here and in `put_order` the kind that is written says whether a constant or two cells follow, as in `numbers_of`.
fn order_size(order: Order) -> usize
    ensures { result ≡ length (order_bytes order) }
{
    let p = Parts::from(order);
    let size = number_size(p.kind as usize) + number_size(p.d);
    if p.kind == 0 {
        return size + number_size(p.k as usize);
    }
    size + number_size(p.a) + number_size(p.b)
}

// Writes a number's groups, of which there are at most g, at the head of a slice, and gives how many they are.
// By hand: the library writes numbers as bytes and as decimal digits, and has no form of base 128 with a mark on all digits but the last.
fn put_groups(out: &mut [u8], v: usize, g: usize) -> usize
    requires { length (groups g v) ≤ length out.old }
    ensures size { result ≡ length (groups g v) }
    ensures bytes { out.new ≡ over (groups g v) out.old }
{
    if g == 0 {
        return 0;
    }
    if v < 128 {
        out[0] = v as u8;
        return 1;
    }
    out[0] = (v % 128 + 128) as u8;
    1 + put_groups(&mut out[1..], v / 128, g - 1)
}

fn put_number(out: &mut [u8], v: usize) -> usize
    requires { length (number_bytes v) ≤ length out.old }
    ensures size { result ≡ length (number_bytes v) }
    ensures bytes { out.new ≡ over (number_bytes v) out.old }
{
    put_groups(out, v, MOST_GROUPS)
}

// Two numbers one after the other.
fn put_two(out: &mut [u8], v: usize, w: usize) -> usize
    requires { length (number_bytes v ++ number_bytes w) ≤ length out.old }
    ensures size { result ≡ length (number_bytes v ++ number_bytes w) }
    ensures bytes { out.new ≡ over (number_bytes v ++ number_bytes w) out.old }
{
    let size = put_number(out, v);
    size + put_number(&mut out[size..], w)
}

// An order whose bytes have room.
fn put_order(out: &mut [u8], order: Order) -> usize
    requires { length (order_bytes order) ≤ length out.old }
    ensures size { result ≡ length (order_bytes order) }
    ensures bytes { out.new ≡ over (order_bytes order) out.old }
{
    let p = Parts::from(order);
    let size = put_two(out, p.kind as usize, p.d);
    let rest = &mut out[size..];
    if p.kind == 0 {
        return size + put_number(rest, p.k as usize);
    }
    size + put_two(rest, p.a, p.b)
}

// Writes an order at an offset if its bytes have room there, and gives how many they are.
pub fn write_order(out: &mut [u8], at: usize, order: Order) -> Option<usize>
    ensures room { is_some result ≡ has_room out.old at order }
    ensures size { size_answer result ≡ written_size out.old at order }
    ensures bytes { out.new ≡ written_bytes out.old at order }
{
    let (_, room) = out.split_at_mut_checked(at)?;
    if room.len() < order_size(order) {
        return None;
    }
    Some(put_order(room, order))
}
