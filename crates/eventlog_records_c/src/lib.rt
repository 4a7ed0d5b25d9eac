// The calls on one record, for C: refusals and strings (section 4). A slice crosses as its pointer and its length, a
// struct by value. Each export is the library's function of this name.

#![tactic(auto)]

ghost use Rattle.std.specs.Prelude.{◌≡◌};
ghost use Rattle.format.specs.declared.Direction.TheVariants.{Forwards};
ghost use Rattle.format.specs.Judge.{refusal_at};
ghost use Rattle.format.specs.Parts.{string_part, string_refusal};
ghost use Rattle.edition.specs.Editions.{unit_of};
ghost use Rattle.strings.specs.Next.{next_string};

use format::{Part, Refusal};
use strings::NextString;

#[unsafe(no_mangle)]
pub extern "C" fn eventlog_refusal(edition: u32, s: &[u8], at: usize) -> Refusal
    ensures { result ≡ refusal_at Forwards (unit_of edition) s.now at }
{
    eventlog_records::eventlog_refusal(edition, s, at)
}

#[unsafe(no_mangle)]
pub extern "C" fn eventlog_string(edition: u32, s: &[u8], at: usize, k: u32) -> Part
    ensures { result ≡ string_part (unit_of edition) s.now at k }
{
    eventlog_records::eventlog_string(edition, s, at, k)
}

#[unsafe(no_mangle)]
pub extern "C" fn eventlog_string_refusal(edition: u32, s: &[u8], at: usize, k: u32) -> Refusal
    ensures { result ≡ string_refusal (unit_of edition) s.now at k }
{
    eventlog_records::eventlog_string_refusal(edition, s, at, k)
}

#[unsafe(no_mangle)]
pub extern "C" fn eventlog_next_string(
    edition: u32,
    s: &[u8],
    run: Part,
    place: usize,
) -> NextString
    ensures { result ≡ next_string (unit_of edition) s.now run place }
{
    eventlog_records::eventlog_next_string(edition, s, run, place)
}
