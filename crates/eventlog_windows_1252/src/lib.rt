// The calls for text on a screen (section 14). Each answers what the call below it answers.

#![tactic(auto)]

ghost use Rattle.std.specs.Prelude.{◌≡◌};
ghost use Rattle.format.specs.Writing.{outcome};
ghost use Rattle.windows_1252.specs.Calls.{writing_utf16, writing_bytes};

use format::Written;

// Writes bytes of windows-1252 as UTF-16 over the start of the output.
pub fn eventlog_windows_1252_to_utf16(bytes: &[u8], out: &mut [u8]) -> Written
    ensures { outcome result out.new ≡ writing_utf16 bytes.now out.old }
{
    windows_1252::to_utf16(bytes, out)
}

// Writes UTF-16 as bytes of windows-1252 over the start of the output.
pub fn eventlog_windows_1252_from_utf16(units: &[u8], out: &mut [u8]) -> Written
    ensures { outcome result out.new ≡ writing_bytes units.now out.old }
{
    windows_1252::from_utf16(units, out)
}
