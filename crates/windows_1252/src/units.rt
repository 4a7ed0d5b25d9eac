// Units of UTF-16: their bytes, and what is refused.

ghost use Rattle.std.specs.Prelude.{◌≡◌, ◌/◌, ◌<◌, ◌≤◌, length, get_or};
ghost use Rattle.format.specs.Stores.{over};
ghost use Rattle.windows_1252_table.specs.Table.{unit_of};
ghost use Rattle.windows_1252_table.specs.Utf16.{units_in, all_in_table, whole_test, utf16_refusal, from_utf16};
ghost use Rattle.windows_1252.specs.Code.{candidate_of, byte_in, TablesAre};

use crate::table::{CANDIDATES, UNITS};
use numbers::unit;

// The units below it are their own bytes.
const OWN: u16 = 128;

// The unit of each byte, and the byte that each unit can be.
#[derive(Drop)]
pub struct Tables {
    units: [u16; 256],
    candidates: [u8; 79],
    ghost tables: { TablesAre units candidates },
}

impl Tables {
    pub fn new() -> Self {
        Tables {
            units: UNITS,
            candidates: CANDIDATES,
        }
    }

    // Rule 14.2: the unit of a byte.
    pub fn unit_of(&self, b: u8) -> u16
        ensures { result ≡ unit_of b }
    {
        self.units[usize::from(b)]
    }

    // The one byte that a unit can be, as an index: as a narrower number it made judging and writing a text take up to half
    // as long again.
    fn candidate(&self, u: u16) -> usize
        ensures { (result ≡ candidate_of u) × (result < 256) }
    {
        if u < 256 {
            return usize::from(u);
        }
        usize::from(self.candidates[usize::from(u % 79)])
    }

    // Rule 14.3: the byte of a unit, where the table has it.
    fn byte_of(&self, u: u16) -> Option<u8>
        ensures { result ≡ byte_in u }
    {
        if u < OWN {
            return Some(u as u8);
        }
        let b = self.candidate(u);
        if self.units[b] == u {
            return Some(b as u8);
        }
        None
    }

    // Whether every whole unit is in the table.
    fn all_in_table(&self, s: &[u8]) -> bool
        ensures { result ≡ all_in_table (units_in s.now) }
    {
        for i in 0..s.len() / 2 {
            if self.byte_of(unit_in(s, i)).is_none() {
                return false;
            }
        }
        true
    }

    // Rule 14.6: whether there are only whole units, all in the table.
    pub fn accepts(&self, s: &[u8]) -> bool
        ensures { result ≡ whole_test s.now }
    {
        s.len() % 2 == 0 && self.all_in_table(s)
    }

    // Writes the bytes of units that are in the table over the start of the output.
    pub fn put_bytes(&self, out: &mut [u8], s: &[u8])
        requires { (utf16_refusal s.now ≡ 0) × (length s.now / 2 ≤ length out.old) }
        ensures { out.new ≡ over out.old 0 (from_utf16 s.now) }
    {
        for i in 0..s.len() / 2 {
            out[i] = self.byte_of(unit_in(s, i)).unwrap();
        }
    }
}

// Unit number i.
fn unit_in(s: &[u8], i: usize) -> u16
    requires { i < length s.now / 2 }
    ensures { result ≡ get_or (units_in s.now) i 0 }
{
    unit(s[2 * i], s[2 * i + 1])
}
