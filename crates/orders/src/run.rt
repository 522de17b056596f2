// The plan run by nested loops over its phases: no position is divided.
#![tactic(auto, using(crate::specs::Runs::ran_none, crate::specs::Runs::ran_one, crate::specs::Runs::step_one, crate::specs::Runs::block_ran))]

ghost use Rattle.std.specs.Prelude.{◌≡◌, ◌<◌};
ghost use Rattle.machine.specs.Step.{stepped_all};
ghost use Rattle.plan.specs.Phased.{row_of};
ghost use Rattle.plan.specs.Table.{phase_count};
ghost use Rattle.orders.specs.Shaped.{IsShape};
ghost use Rattle.orders.specs.Plans.{plan_of, phase_of, ran_by};

use crate::shape::{Shape, Spot};
use crate::tables::{PHASES, Tables};
use machine::step;

impl Tables {
    // A row of phase k.
    fn run_row(&self, k: usize, shape: &Shape, row: usize, sheet: &mut [u32])
        requires k_lt_phase_count { k < phase_count }
        requires shape { IsShape (phase_of self.now k) shape.now }
        requires row_bound { row < (phase_of self.now k).rows }
        ensures { sheet.new ≡ ran_by self.now (row_of (phase_of self.now k) row) sheet.old }
    {
        for (part, columns) in shape.parts.iter().enumerate() {
            for column in 0..columns.count {
                for turn in 0..columns.turn {
                    let s = Spot {
                        row,
                        part,
                        column,
                        turn,
                    };
                    step(sheet, self.order(k, s));
                }
            }
        }
    }

    // All phases.
    pub fn run(&self, sheet: &mut [u32])
        ensures { sheet.new ≡ stepped_all (plan_of self.now) sheet.old }
    {
        for k in 0..PHASES {
            let shape = self.shape(k);
            for row in 0..shape.rows {
                self.run_row(k, &shape, row, sheet);
            }
        }
    }
}
