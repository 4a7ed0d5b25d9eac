// Reads of the log S, T, U: the status, how much was read and how much is needed, the handle, and the records
// in the output.

use crate::records::{log, log_with};
use crate::show::{output, show_read, topic};
use crate::table::{Question, ask, part};
use format::Edition;
use serve::{Handle, Place};
use std::io;

// The fields: where the handle stands, flags, number and size, and what is put over the log. The flags are 5 and 9 for
// reads forwards and backwards, 6 and 10 for seeks. The output has room for 300 bytes.
fn read(rt: &impl Print, h: Handle, q: Question<'_>) -> io::Result<Handle> {
    let mut out = [0xaa; 300];
    let a = h.read(
        Edition::Unicode,
        &log_with(q, 5),
        q.number(2),
        q.number(3),
        q.number(4),
        &mut out,
    );
    show_read(rt, Edition::Unicode, q.what(), a, &out)?;
    Ok(a.handle)
}

// Reads with one handle after another.
fn sequence(rt: &impl Print, table: &[u8]) -> io::Result<()> {
    let mut h = Handle::fresh(0x3F);
    ask(
        rt,
        |rt, q| {
            h = read(rt, h, q)?;
            Ok(())
        },
        table,
    )
}

// A handle at a boundary, or a fresh one.
fn read_at(rt: &impl Print, q: Question<'_>) -> io::Result<()> {
    let mut h = Handle::fresh(0x3F);
    if !q.field(1).is_empty() {
        h.place = Place::Boundary(q.number(1));
    }
    read(rt, h, q)?;
    Ok(())
}

fn sequences(rt: &impl Print) -> io::Result<()> {
    sequence(
        rt,
        b"\
forwards, 64||5|9|64
then 103||5|0|103
then 219||5|0|219
then backwards, 300||9|0|300
then backwards again||9|0|300
then forwards, 300||5|0|300
then forwards again||5|0|300
",
    )
}

fn reads(rt: &impl Print) -> io::Result<()> {
    ask(
        rt,
        read_at,
        b"\
forwards, 167||5|0|167
backwards, 220||9|0|220
backwards, 219||9|0|219
size 0||5|0|0
size over the output||5|0|301
flags 7||7|0|300
flags 21||21|0|300
flags 13||13|0|300
flags 0||0|0|300
seek 8 forwards||6|8|300
seek 8 backwards||10|8|300
seek 8, 103||6|8|103
seek 6||6|6|300
seek 7 from 284|284|6|7|64
seek 7 from 285|285|6|7|64
forwards from 284|284|5|0|300
forwards from 285|285|5|0|300
size over the output, from 285|285|5|0|301
forwards from 1|1|5|0|300
backwards from 283|283|9|0|300
backwards from 64|64|9|0|300
",
    )
}

// Another signature in T; the numbers of S and U made equal.
fn damaged(rt: &impl Print) -> io::Result<()> {
    ask(
        rt,
        read_at,
        b"\
forwards, T damaged||5|0|300|68|M
forwards from 64, T damaged|64|5|0|300|68|M
backwards, T damaged||9|0|300|68|M
seek 7, T damaged||6|7|300|68|M
seek 9, T damaged||6|9|300|68|M
seek 9, two of it, forwards||6|9|64|8|\x09
seek 9, two of it, backwards||10|9|300|8|\x09
",
    )
}

// An empty log: flags, number and size.
fn read_into(rt: &impl Print, q: Question<'_>, out: &mut [u8]) -> io::Result<()> {
    let h = Handle::fresh(0x3F);
    let a = h.read(
        Edition::Unicode,
        b"",
        q.number(1),
        q.number(2),
        q.number(3),
        out,
    );
    show_read(rt, Edition::Unicode, q.what(), a, out)
}

// A buffer that is longer than the largest size.
fn large() -> [u8; 524289] {
    [0xaa; 524289]
}

fn empty_log(rt: &impl Print) -> io::Result<()> {
    ask(
        rt,
        |rt, q| read_into(rt, q, &mut []),
        b"\
forwards, empty log|5|0|0
backwards, empty log|9|0|0
seek, empty log|10|7|0
",
    )?;
    ask(
        rt,
        |rt, q| read_into(rt, q, &mut large()),
        b"\
size 524287|5|0|524287
size 524288|5|0|524288
",
    )
}

// The whole output of a read, each way.
fn outputs(rt: &impl Print, log: &[u8; 284]) -> io::Result<()> {
    let mut out = [0xaa; 170];
    let h = Handle::fresh(0x3F);
    let a = h.read(Edition::Unicode, part(log, 0, 168), 9, 0, 170, &mut out);
    show_read(rt, Edition::Unicode, b"S and T backwards", a, &out)?;
    output(rt, &out)
}

pub fn serving(rt: &impl Print) -> io::Result<()> {
    topic(rt, b"reads")?;
    sequences(rt)?;
    reads(rt)?;
    damaged(rt)?;
    empty_log(rt)?;
    outputs(rt, &log())
}
