// The walk from the front (section 5), for programs in C and Rust: what the call below it answers.
// It differs from `eventlog_walk_back` in the direction: these are two names for C, each an object of its own (library.sh).

#![tactic(auto)]

ghost use Rattle.std.specs.Prelude.{◌≡◌};
ghost use Rattle.format.specs.declared.Direction.TheVariants.{Forwards};
ghost use Rattle.format.specs.Walk.{trace};
ghost use Rattle.edition.specs.Editions.{unit_of};
ghost use Rattle.walk.specs.Ended.{stop_of};

use edition::edition_of;
use format::Direction;
use walk::Stop;

pub fn eventlog_walk(edition: u32, s: &[u8]) -> Stop
    ensures { result ≡ stop_of (trace Forwards (unit_of edition) s.now) }
{
    walk::ended(edition_of(edition), Direction::Forwards, s)
}
