// Questions in ANSI to every public call that takes an edition, by topic, and questions where the two editions
// answer otherwise. The answers stand in the file stdout. A function that stands in samples too, or differs only in the
// edition, stands here for the reason that show.rt gives.

#![tactic(auto)]

mod interface;
mod judging;
mod parted;
mod reading;
mod records;
mod serving;
mod show;
mod table;
mod texts;
mod walks;
mod writing;

use std::io;

fn main(rt: HostRuntime) -> io::Result<()> {
    texts::texts(&rt)?;
    reading::reading(&rt)?;
    judging::judging(&rt)?;
    parted::parted(&rt)?;
    walks::walking(&rt)?;
    writing::writing(&rt)?;
    serving::serving(&rt)?;
    interface::interface(&rt)
}
