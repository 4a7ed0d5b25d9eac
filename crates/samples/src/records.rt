// The records that the questions are about, written out by the specification's table of offsets: the number, up to 12; the
// plain numbers, up to 36; lengths and offsets, up to 56; and the parts.

use crate::table::Question;
use stores::put;

// S: both names empty, no SID, strings or data, number 7.
pub fn s() -> [u8; 64] {
    *b"\x40\0\0\0LfLe\x07\0\0\0\
      \0\0\0\0\0\0\0\0\0\0\0\0\0\0\0\0\0\0\0\0\0\0\0\0\
      \0\0\0\0\0\0\0\0\0\0\0\0\0\0\0\0\0\0\0\0\
      \0\0\0\0\x40\0\0\0"
}

// T: source "Scale", computer "T1", a SID of 12 bytes, one string "OK", 3 data bytes, number 8.
pub fn t() -> [u8; 104] {
    *b"\x68\0\0\0LfLe\x08\0\0\0\
      \0\0\0\0\0\0\0\0\0\0\0\0\
      \0\0\x01\0\0\0\0\0\0\0\0\0\
      \x58\0\0\0\x0c\0\0\0\x4c\0\0\0\x03\0\0\0\x5e\0\0\0\
      S\0c\0a\0l\0e\0\0\0T\x001\0\0\0\0\0\
      \x01\x01\0\0\0\0\0\0\0\0\0\0\
      O\0K\0\0\0\
      \0\0\0\0\0\0\x68\0\0\0"
}

// U: every number another, source "Pans", computer "K", a SID of 16 bytes, the strings "A", "" and "Tare",
// 5 data bytes, and ignored bytes that are not zero.
pub fn u() -> [u8; 116] {
    *b"\x74\0\0\0LfLe\x09\0\0\0\
      \xe9\x03\0\0\xea\x03\0\0\xeb\x03\0\0\
      \x04\0\x03\0\x07\0\0\x80\x4d\0\0\0\
      \x58\0\0\0\x10\0\0\0\x48\0\0\0\x05\0\0\0\x68\0\0\0\
      P\0a\0n\0s\0\0\0K\0\0\0\xee\xee\
      \x01\x02\0\0\0\0\0\x05\x15\0\0\0\x20\x02\0\0\
      A\0\0\0\0\0T\0a\0r\0e\0\0\0\
      \xd1\xd2\xd3\xd4\xd5\xfe\xfe\xfe\x74\0\0\0"
}

// The log S, T, U.
pub fn log() -> [u8; 284] {
    let mut r = [0u8; 284];
    put(&mut r, 0, &s());
    put(&mut r, 64, &t());
    put(&mut r, 168, &u());
    r
}

// The log with bytes put over it, from the question's field k on.
pub fn log_with(q: Question<'_>, k: usize) -> [u8; 284] {
    let mut r = log();
    q.patch(&mut r, k);
    r
}
