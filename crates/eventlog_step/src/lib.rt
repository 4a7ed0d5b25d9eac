// The step at a place (section 4), for programs in C and Rust: what the call below it answers, as it crosses.
// It differs from `eventlog_step_back` in the direction: these are two names for C, each an object of its own (library.sh).

#![tactic(auto)]

ghost use Rattle.std.specs.Prelude.{◌≡◌};
ghost use Rattle.format.specs.declared.Direction.TheVariants.{Forwards};
ghost use Rattle.format.specs.Judge.{step_at};
ghost use Rattle.edition.specs.Editions.{unit_of};
ghost use Rattle.stepped.specs.Steps.{stepped};

use edition::edition_of;
use format::Direction;
use stepped::{Stepped, stepped_of};

// The record that starts at a place.
pub fn eventlog_step(edition: u32, s: &[u8], at: usize) -> Stepped
    ensures { result ≡ stepped (step_at Forwards (unit_of edition) s.now at) at }
{
    stepped_of(
        record::step(edition_of(edition), Direction::Forwards, s, at),
        at,
    )
}
