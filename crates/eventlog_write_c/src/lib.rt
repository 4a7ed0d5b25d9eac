// Writing one record (section 6), for C. The export is the library's function of this name.

#![tactic(auto)]

ghost use Rattle.std.specs.Prelude.{◌≡◌};
ghost use Rattle.format.specs.Writing.{given, outcome, writing};
ghost use Rattle.edition.specs.Editions.{unit_of};

use format::{Fields, Written};

#[unsafe(no_mangle)]
pub extern "C" fn eventlog_write(
    edition: u32,
    f: Fields,
    source: &[u8],
    computer: &[u8],
    sid: &[u8],
    strings: &[u8],
    bytes: &[u8],
    out: &mut [u8],
) -> Written
    ensures { outcome result out.new ≡ writing (unit_of edition) (given f source.now computer.now sid.now strings.now bytes.now) out.old }
{
    eventlog_write::eventlog_write(edition, f, source, computer, sid, strings, bytes, out)
}
