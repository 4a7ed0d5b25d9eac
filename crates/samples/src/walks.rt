// Walks: how many records, the refusal that ended the walk with its field, and where it stopped.

use crate::records::{log, log_with, t};
use crate::show::{line, topic};
use crate::table::{Question, ask, each, nth, part};
use format::{Direction, Edition};
use std::io;
use stores::put;

// The log's bytes from one place up to another, with bytes put over the log.
fn walks(rt: &impl Print, q: Question<'_>) -> io::Result<()> {
    let log = log_with(q, 3);
    walks_of(rt, q.what(), part(&log, q.number(1), q.number(2)))
}

fn walks_of(rt: &impl Print, what: &[u8], s: &[u8]) -> io::Result<()> {
    line(
        rt,
        what,
        walk::walk(Edition::Unicode, Direction::Forwards, s),
    )?;
    line(
        rt,
        b"  the front's stop",
        walk::ended(Edition::Unicode, Direction::Forwards, s),
    )?;
    line(
        rt,
        b"  back",
        walk::walk(Edition::Unicode, Direction::Backwards, s),
    )?;
    line(
        rt,
        b"  the rear's stop",
        walk::ended(Edition::Unicode, Direction::Backwards, s),
    )
}

// The record that is met at a place of the log.
fn judged(rt: &impl Print, d: Direction, q: Question<'_>) -> io::Result<()> {
    line(
        rt,
        q.what(),
        judge::judge(Edition::Unicode, d, &log(), q.number(1)),
    )
}

// The refusal of the log's bytes from one place up to another as one whole record.
fn whole(t: &[u8]) -> u32 {
    let log = log();
    let r = part(&log, nth(t, 0), nth(t, 1));
    rules::refusal(Edition::Unicode, Direction::Forwards, r).number
}

fn verdicts(rt: &impl Print) -> io::Result<()> {
    ask(
        rt,
        |rt, q| judged(rt, Direction::Forwards, q),
        b"\
judged at 64|64
judged at 65|65
judged at 221|221
",
    )?;
    ask(
        rt,
        |rt, q| judged(rt, Direction::Backwards, q),
        b"\
judged back at 168|168
judged back at 64|64
judged back at 167|167
",
    )?;
    each(
        rt,
        whole,
        b"as a whole record: U, U and a byte, T in U's place, all|168,284|167,284|64,180|0,284\n",
    )
}

fn directions(rt: &impl Print, what: &[u8], s: &[u8]) -> io::Result<()> {
    line(
        rt,
        what,
        (
            rules::refusal(Edition::Unicode, Direction::Forwards, s),
            rules::refusal(Edition::Unicode, Direction::Backwards, s),
        ),
    )
}

// The field of 5 goes by the direction.
fn unequal(rt: &impl Print, s: &mut [u8]) -> io::Result<()> {
    put(s, 0, b"\x64");
    directions(
        rt,
        b"T with Length 100 as a whole record, met forwards and backwards",
        s,
    )?;
    line(
        rt,
        b"judged back",
        judge::judge(Edition::Unicode, Direction::Backwards, s, 104),
    )
}

pub fn walking(rt: &impl Print) -> io::Result<()> {
    topic(rt, b"walks")?;
    ask(
        rt,
        walks,
        b"\
no bytes|0|0
S, T, U|0|284
S, T|0|168
S|0|64
S, T and a part of U|0|283
T, U|64|284
a part of S, and T, U|1|284
S, T, U with another signature in T|0|284|68|\0
S, T, U with another type in S|0|284|24|\x03
S, T, U with another type in U|0|284|192|\x03
",
    )?;
    verdicts(rt)?;
    unequal(rt, &mut t())
}
