// The walk from the rear (section 5), for C. The export is the library's function of this name.

#![tactic(auto)]

ghost use Rattle.std.specs.Prelude.{◌≡◌};
ghost use Rattle.format.specs.declared.Direction.TheVariants.{Backwards};
ghost use Rattle.format.specs.Walk.{trace};
ghost use Rattle.edition.specs.Editions.{unit_of};
ghost use Rattle.walk.specs.Ended.{stop_of};

use walk::Stop;

#[unsafe(no_mangle)]
pub extern "C" fn eventlog_walk_back(edition: u32, s: &[u8]) -> Stop
    ensures { result ≡ stop_of (trace Backwards (unit_of edition) s.now) }
{
    eventlog_walk_back::eventlog_walk_back(edition, s)
}
