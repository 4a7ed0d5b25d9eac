// The calls for text on a screen (section 14), for C. Each export is the library's function of this name.

#![tactic(auto)]

ghost use Rattle.std.specs.Prelude.{◌≡◌};
ghost use Rattle.format.specs.Writing.{outcome};
ghost use Rattle.windows_1252.specs.Calls.{writing_utf16, writing_bytes};

use format::Written;

#[unsafe(no_mangle)]
pub extern "C" fn eventlog_windows_1252_to_utf16(bytes: &[u8], out: &mut [u8]) -> Written
    ensures { outcome result out.new ≡ writing_utf16 bytes.now out.old }
{
    eventlog_windows_1252::eventlog_windows_1252_to_utf16(bytes, out)
}

#[unsafe(no_mangle)]
pub extern "C" fn eventlog_windows_1252_from_utf16(units: &[u8], out: &mut [u8]) -> Written
    ensures { outcome result out.new ≡ writing_bytes units.now out.old }
{
    eventlog_windows_1252::eventlog_windows_1252_from_utf16(units, out)
}
