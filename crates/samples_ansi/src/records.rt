// The records that the questions are about, written out by the specification's table of offsets: the number, up to 12; the
// plain numbers, up to 36; lengths and offsets, up to 56; and the parts.

use crate::table::Question;
use format::Edition;
use stores::put;

// S: both names empty, no SID, strings or data, number 7. It is the same in both editions.
pub fn s() -> [u8; 64] {
    *b"\x40\0\0\0LfLe\x07\0\0\0\
      \0\0\0\0\0\0\0\0\0\0\0\0\0\0\0\0\0\0\0\0\0\0\0\0\
      \0\0\0\0\0\0\0\0\0\0\0\0\0\0\0\0\0\0\0\0\
      \0\0\0\0\x40\0\0\0"
}

// T in ANSI: source "Scale", computer "T1", a SID of 12 bytes, one string "OK", 3 data bytes, number 8.
pub fn t() -> [u8; 92] {
    *b"\x5c\0\0\0LfLe\x08\0\0\0\
      \0\0\0\0\0\0\0\0\0\0\0\0\
      \0\0\x01\0\0\0\0\0\0\0\0\0\
      \x50\0\0\0\x0c\0\0\0\x44\0\0\0\x03\0\0\0\x53\0\0\0\
      Scale\0T1\0\0\0\0\
      \x01\x01\0\0\0\0\0\0\0\0\0\0\
      OK\0\0\0\0\0\0\x5c\0\0\0"
}

// T in Unicode.
pub fn unicode_t() -> [u8; 104] {
    *b"\x68\0\0\0LfLe\x08\0\0\0\
      \0\0\0\0\0\0\0\0\0\0\0\0\
      \0\0\x01\0\0\0\0\0\0\0\0\0\
      \x58\0\0\0\x0c\0\0\0\x4c\0\0\0\x03\0\0\0\x5e\0\0\0\
      S\0c\0a\0l\0e\0\0\0T\x001\0\0\0\0\0\
      \x01\x01\0\0\0\0\0\0\0\0\0\0\
      O\0K\0\0\0\0\0\0\0\0\0\x68\0\0\0"
}

// U in ANSI: every number another, source "Pans", computer "K", a SID of 16 bytes, the strings "A", "" and "Tare",
// 5 data bytes, and ignored bytes that are not zero.
pub fn u() -> [u8; 100] {
    *b"\x64\0\0\0LfLe\x09\0\0\0\
      \xe9\x03\0\0\xea\x03\0\0\xeb\x03\0\0\
      \x04\0\x03\0\x07\0\0\x80\x4d\0\0\0\
      \x50\0\0\0\x10\0\0\0\x40\0\0\0\x05\0\0\0\x58\0\0\0\
      Pans\0K\0\xee\
      \x01\x02\0\0\0\0\0\x05\x15\0\0\0\x20\x02\0\0\
      A\0\0Tare\0\
      \xd1\xd2\xd3\xd4\xd5\xfe\xfe\xfe\x64\0\0\0"
}

// The log S, T, U in ANSI.
pub fn log() -> [u8; 256] {
    let mut r = [0u8; 256];
    put(&mut r, 0, &s());
    put(&mut r, 64, &t());
    put(&mut r, 156, &u());
    r
}

// The log with bytes put over it, from the question's field k on.
pub fn log_with(q: Question<'_>, k: usize) -> [u8; 256] {
    let mut r = log();
    q.patch(&mut r, k);
    r
}

// The log S, T in Unicode.
pub fn unicode_log() -> [u8; 168] {
    let mut r = [0u8; 168];
    put(&mut r, 0, &s());
    put(&mut r, 64, &unicode_t());
    r
}

// The edition that field k names; ANSI where it is empty.
pub fn edition(q: Question<'_>, k: usize) -> Edition {
    if q.field(k).is_empty() {
        Edition::Ansi
    } else {
        Edition::Unicode
    }
}
