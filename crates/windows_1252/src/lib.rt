// windows-1252 to UTF-16 and back (section 14), over the start of a lent output. Any bytes and any output may be given;
// a refusal leaves the output as it was.

#![tactic(auto)]

mod table;
mod units;

ghost use Rattle.std.specs.Prelude.{◌≡◌, ◌*◌, ◌≤◌, length};
ghost use Rattle.format.specs.Stores.{over};
ghost use Rattle.format.specs.Writing.{outcome};
ghost use Rattle.windows_1252_table.specs.Utf16.{to_utf16};
ghost use Rattle.windows_1252.specs.Calls.{writing_utf16, writing_bytes};
ghost use Rattle.windows_1252.specs.Faults.{fault_of, told};

use format::Written;
use units::Tables;

// Why units do not become bytes: a unit that the table does not have, or half a unit; and an output that is too short.
// The numbers are those of the refusals (Rule 14.8).
#[derive(Clone, Copy)]
enum Fault {
    Units = 18,
    Room = 15,
}

// The units of bytes over the start of the output.
fn put_units(out: &mut [u8], tables: &Tables, bytes: &[u8])
    requires { 2 * length bytes.now ≤ length out.old }
    ensures { out.new ≡ over out.old 0 (to_utf16 bytes.now) }
{
    for (i, b) in bytes.iter().enumerate() {
        let [low, high] = tables.unit_of(*b).to_le_bytes();
        out[2 * i] = low;
        out[2 * i + 1] = high;
    }
}

// Writes bytes of windows-1252 as UTF-16, and answers how many bytes that took, two for each. An output that is too
// short is refused with 15, as C gets it: 0 bytes are written.
pub fn to_utf16(bytes: &[u8], out: &mut [u8]) -> Written
    ensures { outcome result out.new ≡ writing_utf16 bytes.now out.old }
{
    if out.len() / 2 < bytes.len() {
        return Written {
            refusal: 15,
            length: 0,
        };
    }
    put_units(out, &Tables::new(), bytes);
    Written {
        refusal: 0,
        length: 2 * bytes.len(),
    }
}

// Rule 14.8: what is refused first.
fn judge(right: bool, fits: bool) -> Result<(), Fault>
    ensures { result ≡ fault_of right fits }
{
    match (right, fits) {
        (false, _) => Err(Fault::Units),
        (true, false) => Err(Fault::Room),
        (true, true) => Ok(()),
    }
}

// The bytes of units over the start of the output, and how many.
fn put(units: &[u8], out: &mut [u8]) -> Result<usize, Fault>
    ensures { outcome (told result) out.new ≡ writing_bytes units.now out.old }
{
    let tables = Tables::new();
    let n = units.len() / 2;
    let right = tables.accepts(units);
    let fits = n <= out.len();
    judge(right, fits)?;
    tables.put_bytes(out, units);
    Ok(n)
}

// Writes UTF-16 as bytes of windows-1252, and answers how many. Half a unit at the end, or a unit that the table does
// not have, is refused with 18, and then an output that is too short with 15: 0 bytes are written.
pub fn from_utf16(units: &[u8], out: &mut [u8]) -> Written
    ensures { outcome result out.new ≡ writing_bytes units.now out.old }
{
    match put(units, out) {
        Ok(length) => Written { refusal: 0, length },
        Err(fault) => Written {
            refusal: fault as u32,
            length: 0,
        },
    }
}
