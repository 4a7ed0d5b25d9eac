// Judging: the Length or the refusal of the record at a place, and the refusal of bytes as one whole record.

use crate::records::{edition, log, t, unicode_t};
use crate::show::{line, topic};
use crate::table::{Question, ask, part};
use format::{Direction, Edition, Refusal};
use rules::Measured;
use std::io;
use stores::put;

// A place of the log, and the edition.
fn judged(rt: &impl Print, d: Direction, q: Question<'_>) -> io::Result<()> {
    line(
        rt,
        q.what(),
        judge::judge(edition(q, 2), d, &log(), q.number(1)),
    )
}

fn verdicts(rt: &impl Print) -> io::Result<()> {
    ask(
        rt,
        |rt, q| judged(rt, Direction::Forwards, q),
        b"\
judged at 64|64
judged at 64 in Unicode|64|Unicode
judged at 65|65
judged at 193|193
",
    )?;
    ask(
        rt,
        |rt, q| judged(rt, Direction::Backwards, q),
        b"\
judged back at 156|156
judged back at 156 in Unicode|156|Unicode
judged back at 64|64
judged back at 155|155
",
    )
}

// What judging finds: the refusal and its field; the Length; and where the computer name starts, the names end
// and the strings end.
fn found(rt: &impl Print, what: &[u8], m: Result<Measured, Refusal>) -> io::Result<()> {
    let nothing = ((0u32, 0u32), (0u32, 0u32));
    match m {
        Ok(m) => line(
            rt,
            what,
            ((0u32, 0u32), (m.length, m.computer), (m.names, m.strings)),
        ),
        Err(k) => line(rt, what, (k, nothing)),
    }
}

// A place of the log.
fn measured(rt: &impl Print, d: Direction, q: Question<'_>) -> io::Result<()> {
    found(
        rt,
        q.what(),
        judge::measure(Edition::Ansi, d, &log(), q.number(1)),
    )
}

fn measures(rt: &impl Print) -> io::Result<()> {
    ask(
        rt,
        |rt, q| measured(rt, Direction::Forwards, q),
        b"\
measured at 64|64
measured at 65|65
",
    )?;
    ask(
        rt,
        |rt, q| measured(rt, Direction::Backwards, q),
        b"\
measured back at 156|156
measured back at 155|155
",
    )?;
    found(
        rt,
        b"T measured",
        rules::measure(Edition::Ansi, Direction::Forwards, &t()),
    )?;
    let mut flagged = t();
    put(&mut flagged, 30, b"\x01");
    found(
        rt,
        b"refused",
        rules::measure(Edition::Ansi, Direction::Forwards, &flagged),
    )
}

// Bytes as one whole record, met forwards and backwards.
fn whole(rt: &impl Print, what: &[u8], e: Edition, r: &[u8]) -> io::Result<()> {
    line(
        rt,
        what,
        (
            rules::refusal(e, Direction::Forwards, r),
            rules::refusal(e, Direction::Backwards, r),
        ),
    )
}

// The log's bytes from one place up to another.
fn whole_part(rt: &impl Print, q: Question<'_>) -> io::Result<()> {
    whole(
        rt,
        q.what(),
        Edition::Ansi,
        part(&log(), q.number(1), q.number(2)),
    )
}

fn unequal(rt: &impl Print, r: &mut [u8]) -> io::Result<()> {
    whole(rt, b"T in Unicode", Edition::Unicode, r)?;
    put(r, 0, b"\x58");
    whole(rt, b"T with Length 88", Edition::Ansi, r)
}

pub fn judging(rt: &impl Print) -> io::Result<()> {
    topic(rt, b"verdicts")?;
    verdicts(rt)?;
    measures(rt)?;
    ask(
        rt,
        whole_part,
        b"\
as a whole record: S|0|64
T|64|156
U|156|256
U and a byte|155|256
T and four bytes|64|160
",
    )?;
    unequal(rt, &mut t())?;
    whole(rt, b"T of Unicode in ANSI", Edition::Ansi, &unicode_t())
}
