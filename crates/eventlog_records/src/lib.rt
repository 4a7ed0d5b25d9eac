// The calls for programs in C and Rust on one record: refusals and strings (section 4). Each function answers what the
// call below it answers.

#![tactic(auto)]

ghost use Rattle.std.specs.Prelude.{◌≡◌};
ghost use Rattle.format.specs.declared.Direction.TheVariants.{Forwards};
ghost use Rattle.format.specs.Judge.{refusal_at};
ghost use Rattle.format.specs.Parts.{string_part, string_refusal};
ghost use Rattle.edition.specs.Editions.{unit_of};
ghost use Rattle.strings.specs.Next.{next_string};

use edition::edition_of;
use format::{Part, Refusal};
use strings::NextString;

// The refusal of the record at a place; number and field are 0 where nothing is refused.
pub fn eventlog_refusal(edition: u32, s: &[u8], at: usize) -> Refusal
    ensures { result ≡ refusal_at Forwards (unit_of edition) s.now at }
{
    record::refusal(edition_of(edition), s, at)
}

// Where string k of the record at a place lies, counted from 0, without its zero unit. The other parts are
// in what a step answers.
pub fn eventlog_string(edition: u32, s: &[u8], at: usize, k: u32) -> Part
    ensures { result ≡ string_part (unit_of edition) s.now at k }
{
    parts::string_part(edition_of(edition), s, at, k)
}

// The refusal of string k of the record at a place; number and field are 0 where nothing is refused.
pub fn eventlog_string_refusal(edition: u32, s: &[u8], at: usize, k: u32) -> Refusal
    ensures { result ≡ string_refusal (unit_of edition) s.now at k }
{
    parts::string_refusal(edition_of(edition), s, at, k)
}

// The string that starts at a place of a run of strings, as a step showed the run, and the place after its
// zero unit.
pub fn eventlog_next_string(edition: u32, s: &[u8], run: Part, place: usize) -> NextString
    ensures { result ≡ next_string (unit_of edition) s.now run place }
{
    strings::next_string(edition_of(edition), s, run, place)
}
