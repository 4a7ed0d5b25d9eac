// Reads of the log S, T, U: the status, how much was read and how much is needed, the handle, and the output; and
// deliveries of its records.

use crate::records::{edition, log, unicode_log};
use crate::show::{line, output_start, show_read, topic};
use crate::table::{Question, ask};
use delivered::{Delivered, Undelivered};
use format::{Direction, Edition};
use serve::Handle;
use std::io;

// The fields: flags, number, size and edition. The flags are 5 and 9 for reads forwards and backwards, 6 and 10 for
// seeks. The output has room for 270 bytes.
fn read(rt: &impl Print, h: Handle, q: Question<'_>, log: &[u8]) -> io::Result<Handle> {
    let mut out = [0xaa; 270];
    let a = h.read(
        edition(q, 4),
        log,
        q.number(1),
        q.number(2),
        q.number(3),
        &mut out,
    );
    show_read(rt, Edition::Ansi, q.what(), a, &out)?;
    Ok(a.handle)
}

// Reads with one handle after another.
fn sequence(rt: &impl Print, table: &[u8], log: &[u8]) -> io::Result<()> {
    let mut h = Handle::fresh(0x3F);
    ask(
        rt,
        |rt, q| {
            h = read(rt, h, q, log)?;
            Ok(())
        },
        table,
    )
}

// Each with a fresh handle.
fn read_fresh(rt: &impl Print, table: &[u8], log: &[u8]) -> io::Result<()> {
    ask(
        rt,
        |rt, q| {
            read(rt, Handle::fresh(0x3F), q, log)?;
            Ok(())
        },
        table,
    )
}

fn sequences(rt: &impl Print) -> io::Result<()> {
    sequence(
        rt,
        b"\
forwards, 64|5|9|64
then 91|5|0|91
then 192|5|0|192
then backwards, 192|9|0|192
then backwards again|9|0|270
then forwards, 270|5|0|270
then forwards again|5|0|270
",
        &log(),
    )
}

fn reads(rt: &impl Print) -> io::Result<()> {
    read_fresh(
        rt,
        b"\
backwards, 191|9|0|191
seek 8 forwards|6|8|270
seek 8 backwards|10|8|270
seek 8, 91|6|8|91
seek 6|6|6|270
flags 7|7|0|270
forwards in Unicode|5|0|270|Unicode
backwards in Unicode|9|0|270|Unicode
seek 7 in Unicode|6|7|270|Unicode
seek 8 in Unicode|6|8|270|Unicode
",
        &log(),
    )?;
    read_fresh(
        rt,
        b"\
forwards, S, T of Unicode|5|0|270
backwards, S, T of Unicode|9|0|270
seek 8, S, T of Unicode|10|8|270
",
        &unicode_log(),
    )
}

// What was delivered: 1, how much and the place after it; 2 for the end, 3 for a record that is refused, 4 and the
// Length of one that is too long.
fn show_delivered(
    rt: &impl Print,
    what: &[u8],
    x: Result<Delivered, Undelivered>,
) -> io::Result<()> {
    match x {
        Ok(x) => line(rt, what, (1u32, x.read, x.place)),
        Err(Undelivered::End) => line(rt, what, 2u32),
        Err(Undelivered::Corrupt) => line(rt, what, 3u32),
        Err(Undelivered::TooLong(n)) => line(rt, what, (4u32, n)),
    }
}

// A place of the log, the room, and the edition.
fn deliver(rt: &impl Print, d: Direction, q: Question<'_>) -> io::Result<()> {
    if let Some(out) = [0xaa; 256].get_mut(..q.number(2)) {
        let x = delivery::deliver(edition(q, 3), d, &log(), 0x3F, q.number(1), out);
        show_delivered(rt, q.what(), x)?;
        output_start(rt, out)?;
    }
    Ok(())
}

fn deliveries(rt: &impl Print) -> io::Result<()> {
    ask(
        rt,
        |rt, q| deliver(rt, Direction::Forwards, q),
        b"\
delivered from 0|0|256
from 64 into 191|64|191
from 64 into 91|64|91
from 64 in Unicode|64|256|Unicode
from 256|256|256
from 257|257|256
",
    )?;
    ask(
        rt,
        |rt, q| deliver(rt, Direction::Backwards, q),
        b"\
delivered back from 256|256|256
back from 156 into 155|156|155
back from 156 into 91|156|91
back from 156 in Unicode|156|256|Unicode
back from 0|0|256
back from 257|257|256
",
    )
}

pub fn serving(rt: &impl Print) -> io::Result<()> {
    topic(rt, b"reads")?;
    sequences(rt)?;
    reads(rt)?;
    topic(rt, b"deliveries")?;
    deliveries(rt)
}
