// Appending one record to a log (section 7), for programs in C and Rust: what the call below it answers.
// The numbers and the parts are arguments one by one, the log with how much of it is used: so C hands them over.

#![tactic(auto)]

ghost use Rattle.std.specs.Prelude.{◌≡◌};
ghost use Rattle.format.specs.Writing.{given};
ghost use Rattle.format.specs.Appending.{log_outcome, with_number, appending};
ghost use Rattle.edition.specs.Editions.{unit_of};

use edition::edition_of;
use event::Event;
use format::{Appended, Unnumbered};

pub fn eventlog_append(
    edition: u32,
    log: &mut [u8],
    used: usize,
    f: Unnumbered,
    source: &[u8],
    computer: &[u8],
    sid: &[u8],
    strings: &[u8],
    bytes: &[u8],
) -> Appended
    ensures { log_outcome result log.new ≡ appending (unit_of edition) (λ k. given (with_number k f) source.now computer.now sid.now strings.now bytes.now) log.old used }
{
    let e = edition_of(edition);
    let event = Event {
        fields: f,
        source_name: source,
        computer_name: computer,
        sid,
        strings,
        event_data: bytes,
    };
    append::append(e, log, used, &event)
}
