// Appending: the refusal, its field, how much of the log is used then, and the log.

use crate::records::s;
use crate::show::{Hex, line, topic};
use crate::table::{Question, ask};
use format::{Direction, Edition};
use std::io;
use stores::put;

// The fields: how much of the log is used; the numbers, source, computer, SID, strings and data; the place where the
// last record ends then, if it is shown; and what is put over the log before.
fn append_one(rt: &impl Print, q: Question<'_>, log: &mut [u8]) -> io::Result<()> {
    q.patch(log, 9);
    let a = append::append(Edition::Unicode, log, q.number(1), &q.unnumbered(2));
    line(rt, q.what(), a)?;
    match q.number(8) {
        0 => Ok(()),
        end => last(rt, log, end),
    }
}

// The number and the start of the record that ends at a place.
fn last(rt: &impl Print, log: &[u8], end: usize) -> io::Result<()> {
    match record::step(Edition::Unicode, Direction::Backwards, log, end) {
        Ok(a) => line(
            rt,
            b"  the last record's number and start",
            (a.fields.record_number, a.start),
        ),
        Err(x) => line(rt, b"  refused", (x.refusal.number, x.at)),
    }
}

// Each line of a table, to one log.
fn append_all(rt: &impl Print, table: &[u8], log: &mut [u8]) -> io::Result<()> {
    ask(rt, |rt, q| append_one(rt, q, log), table)
}

// U, an event with no parts, and U again.
fn grow(rt: &impl Print, log: &mut [u8]) -> io::Result<()> {
    append_all(
        rt,
        b"\
U to an empty log|0|,4,3,32768,1001,1002,1003,7|P\0a\0n\0s\0|K\0\
|\x01\x02\0\0\0\0\0\x05\x15\0\0\0\x20\x02\0\0|A\0\0\0\0\0T\0a\0r\0e\0\0\0|\xd1\xd2\xd3\xd4\xd5|116
a record after it|116|||||||180
U after both|180|,4,3,32768,1001,1002,1003,7|P\0a\0n\0s\0|K\0\
|\x01\x02\0\0\0\0\0\x05\x15\0\0\0\x20\x02\0\0|A\0\0\0\0\0T\0a\0r\0e\0\0\0|\xd1\xd2\xd3\xd4\xd5|296
",
        log,
    )?;
    line(rt, b"  the log", Hex(log))
}

// To a log whose first record is S.
fn append_behind_s(rt: &impl Print, table: &[u8], log: &mut [u8]) -> io::Result<()> {
    put(log, 0, &s());
    append_all(rt, table, log)
}

fn refusals(rt: &impl Print, log: &mut [u8]) -> io::Result<()> {
    append_behind_s(
        rt,
        b"\
a type of 3|64|,3
flags 0x8000 without a string|64|,0,0,32768
behind a part of a record|63
behind bytes that are no record|128
used past the buffer|131
116 bytes where 66 are left|64|,4,3,32768,1001,1002,1003,7|P\0a\0n\0s\0|K\0\
|\x01\x02\0\0\0\0\0\x05\x15\0\0\0\x20\x02\0\0|A\0\0\0\0\0T\0a\0r\0e\0\0\0|\xd1\xd2\xd3\xd4\xd5
a type of 3 in an empty log|0|,3
",
        log,
    )?;
    append_one(rt, Question(b"into a buffer of no bytes|0"), &mut [])?;
    line(rt, b"  the log", Hex(log))
}

// 14 has the field of the last record that failed.
fn broken_ends(rt: &impl Print, log: &mut [u8]) -> io::Result<()> {
    append_behind_s(
        rt,
        b"\
behind a type of 3|64||||||||24|\x03
behind a computer name that has no end|64||||||||24|\0|58|\x01
",
        log,
    )?;
    line(rt, b"  the log", Hex(log))
}

pub fn appending(rt: &impl Print) -> io::Result<()> {
    topic(rt, b"appending")?;
    grow(rt, &mut [0xaau8; 300])?;
    refusals(rt, &mut [0xaau8; 130])?;
    broken_ends(rt, &mut [0xaau8; 130])?;
    append_behind_s(
        rt,
        b"after number 4294967295|64|||||||128|8|\xff\xff\xff\xff\n",
        &mut [0xaau8; 128],
    )
}
