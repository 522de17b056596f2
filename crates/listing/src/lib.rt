// What settle prints, written to a slice that the caller lends: the listing of opened results, a refusal, or that the text is unreadable.
#![tactic(auto)]

ghost use Rattle.std.specs.Prelude.{◌≡◌, length};
ghost use Rattle.listing.specs.Text.{listing_size, listing_slice, refused_size, refused_slice, unreadable_size, unreadable_slice};

mod lines;
mod page;
mod results;

use judging::judge_results;
use page::Page;
use results::Results;

// The bytes that a caller lends: no text is longer.
#[derive(Drop)]
pub struct Listing {}

impl Listing {
    pub const ROOM: usize = 4_096;
}

// ---- The calls
// Each gives the size of the text that it wrote, which is 0 where it wrote none: no text is empty, and an `Option` would say the same twice.
// Each tests the room and opens its page itself: a call that gives an `Option` of a page was tried, and that the slice stays as it is at `None` was not
// proved.

// Writes the listing of n bids' and m pools' opened results at the start of the slice and gives its size; or writes nothing and gives 0.
pub fn write_listing(n: usize, m: usize, results: &[i32], welfare: i64, out: &mut [u8]) -> usize
    ensures size { result ≡ listing_size n m results.now welfare (length out.old) }
    ensures bytes { out.new ≡ listing_slice n m results.now welfare out.old }
{
    if out.len() < Listing::ROOM {
        return 0;
    }
    let Ok(counts) = judge_results(n, m, results.len()) else {
        return 0;
    };
    let results = Results {
        counts,
        numbers: results,
    };
    let mut page = Page { out, size: 0 };
    page.put_listing(&results, welfare);
    page.size
}

// Writes a refusal's line at the start of the slice and gives its size; or, without room, writes nothing and gives 0.
pub fn write_refused(number: u32, place: usize, out: &mut [u8]) -> usize
    ensures size { result ≡ refused_size number place (length out.old) }
    ensures bytes { out.new ≡ refused_slice number place out.old }
{
    if out.len() < Listing::ROOM {
        return 0;
    }
    let mut page = Page { out, size: 0 };
    page.put_refused(number as usize, place);
    page.size
}

// Writes the line that says that settle's input is unreadable, or nothing.
pub fn write_unreadable(out: &mut [u8]) -> usize
    ensures size { result ≡ unreadable_size (length out.old) }
    ensures bytes { out.new ≡ unreadable_slice out.old }
{
    if out.len() < Listing::ROOM {
        return 0;
    }
    let mut page = Page { out, size: 0 };
    page.put(b"unreadable\n");
    page.size
}
