// Settle's texts and plans as bytes, sound and damaged, each with what the unit answers.
#![tactic(auto)]

use std::io;

mod plans;
mod texts;

fn main(rt: HostRuntime) -> io::Result<()> {
    texts::show_all(&rt)?;
    plans::show_all(&rt)
}
