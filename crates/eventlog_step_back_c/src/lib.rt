// The step from the rear (section 4), for C. The export is the library's function of this name.

#![tactic(auto)]

ghost use Rattle.std.specs.Prelude.{◌≡◌};
ghost use Rattle.format.specs.declared.Direction.TheVariants.{Backwards};
ghost use Rattle.format.specs.Judge.{step_at};
ghost use Rattle.edition.specs.Editions.{unit_of};
ghost use Rattle.stepped.specs.Steps.{stepped};

use stepped::Stepped;

#[unsafe(no_mangle)]
pub extern "C" fn eventlog_step_back(edition: u32, s: &[u8], end: usize) -> Stepped
    ensures { result ≡ stepped (step_at Backwards (unit_of edition) s.now end) end }
{
    eventlog_step_back::eventlog_step_back(edition, s, end)
}
