// The step at a place (section 4), for C. The export is the library's function of this name.

#![tactic(auto)]

ghost use Rattle.std.specs.Prelude.{◌≡◌};
ghost use Rattle.format.specs.declared.Direction.TheVariants.{Forwards};
ghost use Rattle.format.specs.Judge.{step_at};
ghost use Rattle.edition.specs.Editions.{unit_of};
ghost use Rattle.stepped.specs.Steps.{stepped};

use stepped::Stepped;

#[unsafe(no_mangle)]
pub extern "C" fn eventlog_step(edition: u32, s: &[u8], at: usize) -> Stepped
    ensures { result ≡ stepped (step_at Forwards (unit_of edition) s.now at) at }
{
    eventlog_step::eventlog_step(edition, s, at)
}
