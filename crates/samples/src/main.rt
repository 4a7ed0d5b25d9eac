// Questions to the public calls, by topic: what is asked, and what is answered. The answers stand in the file
// stdout. They are worked samples of the specification that are run and not proved, and a wrong program of
// must-fail/ answers some question otherwise, here or in samples_ansi and samples_types. `fixed::is_length` and
// `delivery::deliver` are asked here only through the calls above them; samples_ansi asks the latter itself.
// A function that stands in samples_ansi too, or differs only in the edition, stands there for the reason that show.rt gives.

#![tactic(auto)]

mod appending;
mod interface;
mod listings;
mod published;
mod reading;
mod records;
mod serving;
mod show;
mod table;
mod values;
mod walks;
mod writing;

use std::io;

fn main(rt: HostRuntime) -> io::Result<()> {
    values::values(&rt)?;
    reading::reading(&rt)?;
    walks::walking(&rt)?;
    writing::writing(&rt)?;
    appending::appending(&rt)?;
    serving::serving(&rt)?;
    listings::listings(&rt)?;
    interface::interface(&rt)
}
