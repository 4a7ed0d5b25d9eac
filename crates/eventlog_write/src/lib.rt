// Writing one record (section 6), for programs in C and Rust: what the call below it answers.
// The numbers and the parts are arguments one by one: so C hands them over.

#![tactic(auto)]

ghost use Rattle.std.specs.Prelude.{◌≡◌};
ghost use Rattle.format.specs.Writing.{given, outcome, writing};
ghost use Rattle.edition.specs.Editions.{unit_of};

use edition::edition_of;
use event::Event;
use format::{Fields, Written};

// Over the start of the output.
pub fn eventlog_write(
    edition: u32,
    f: Fields,
    source: &[u8],
    computer: &[u8],
    sid: &[u8],
    strings: &[u8],
    bytes: &[u8],
    out: &mut [u8],
) -> Written
    ensures { outcome result out.new ≡ writing (unit_of edition) (given f source.now computer.now sid.now strings.now bytes.now) out.old }
{
    let e = edition_of(edition);
    let event = Event {
        fields: f,
        source_name: source,
        computer_name: computer,
        sid,
        strings,
        event_data: bytes,
    };
    writer::write(e, &event, out)
}
