// Appending one record to a log (section 7), for C. The export is the library's function of this name.

#![tactic(auto)]

ghost use Rattle.std.specs.Prelude.{◌≡◌};
ghost use Rattle.format.specs.Writing.{given};
ghost use Rattle.format.specs.Appending.{log_outcome, with_number, appending};
ghost use Rattle.edition.specs.Editions.{unit_of};

use format::{Appended, Unnumbered};

#[unsafe(no_mangle)]
pub extern "C" fn eventlog_append(
    edition: u32,
    log: &mut [u8],
    used: usize,
    f: Unnumbered,
    source: &[u8],
    computer: &[u8],
    sid: &[u8],
    strings: &[u8],
    bytes: &[u8],
) -> Appended
    ensures { log_outcome result log.new ≡ appending (unit_of edition) (λ k. given (with_number k f) source.now computer.now sid.now strings.now bytes.now) log.old used }
{
    eventlog_append::eventlog_append(edition, log, used, f, source, computer, sid, strings, bytes)
}
