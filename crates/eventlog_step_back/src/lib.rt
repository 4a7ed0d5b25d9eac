// The step from the rear (section 4), for programs in C and Rust: what the call below it answers, as it crosses.
// It differs from `eventlog_step` in the direction: these are two names for C, each an object of its own (library.sh).

#![tactic(auto)]

ghost use Rattle.std.specs.Prelude.{◌≡◌};
ghost use Rattle.format.specs.declared.Direction.TheVariants.{Backwards};
ghost use Rattle.format.specs.Judge.{step_at};
ghost use Rattle.edition.specs.Editions.{unit_of};
ghost use Rattle.stepped.specs.Steps.{stepped};

use edition::edition_of;
use format::Direction;
use stepped::{Stepped, stepped_of};

// The record that ends at a place.
pub fn eventlog_step_back(edition: u32, s: &[u8], end: usize) -> Stepped
    ensures { result ≡ stepped (step_at Backwards (unit_of edition) s.now end) end }
{
    stepped_of(
        record::step(edition_of(edition), Direction::Backwards, s, end),
        end,
    )
}
