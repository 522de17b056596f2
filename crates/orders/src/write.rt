// The plan's orders as bytes, from a position on.
ghost use Rattle.std.specs.Prelude.{◌≡◌, ◌≤◌, length};
ghost use Rattle.definitions.specs.Answers.{first, refusal_of};
ghost use Rattle.definitions.specs.Plan.{bytes_written, written_counts, room_refusal, over};
ghost use Rattle.plan.specs.Plan.{plan};
ghost use Rattle.orders.specs.Answer.{written_of};
ghost use Rattle.orders.specs.Calls.{past_refusal};
ghost use Rattle.orders.specs.Plans.{plan_of};
ghost use Rattle.columns.specs.Plans.{plan_by};

use crate::Written;
use crate::tables::Tables;
use crate::walk::{Within, settled};
use codec::write_order;
use columns::Numbering;
use definitions::{Reason, Verdict};

// The longest order, in bytes.
const LONGEST_ORDER: usize = 8;

// 13, a position past the total, and 14, less room than one order may need.
pub fn judge_room(total: usize, at: usize, room: usize) -> Verdict
    ensures { refusal_of result ≡ first (past_refusal total at) (room_refusal room) }
{
    if total < at {
        return Err(Reason::Position);
    }
    if room < LONGEST_ORDER {
        return Err(Reason::Room);
    }
    Ok(())
}

impl Tables {
    // As many whole orders as fit, from a position on, by rows or by columns. The phase that the next order is in is kept from order to order.
    // The slice stays whole beside the count of its bytes: what was written is stated of the whole.
    pub fn write(&self, by: Numbering, total: usize, at: usize, out: &mut [u8]) -> Written
        requires total_value { total ≡ length (plan_of self.now) }
        requires at_le_total { at ≤ total }
        ensures counts { written_of result ≡ written_counts (plan_by by plan) self.now.counts.n self.now.counts.m at (length out.old) }
        ensures slice { out.new ≡ over (bytes_written (plan_by by plan) self.now.counts.n self.now.counts.m at (length out.old)) out.old }
    {
        let mut bytes = 0;
        let mut place = Within {
            stretch: 0,
            before: at,
        };
        for next in at..total {
            place = settled(&self.sizes, place);
            let order = by.order(self.counts, self.order_within(place));
            let Some(size) = write_order(out, bytes, order) else {
                return Written {
                    bytes,
                    orders: next - at,
                    next,
                };
            };
            bytes += size;
            place.before += 1;
        }
        Written {
            bytes,
            orders: total - at,
            next: total,
        }
    }
}
