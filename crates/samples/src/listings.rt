// The listing of a batch: the refusal, how long the text is, and the output.

use crate::records::log;
use crate::show::{Hex, line, output, topic};
use crate::table::{Question, ask, each, nth, part};
use format::{Edition, Written};
use std::io;

// The first bytes of the log, into so much room.
fn list(rt: &impl Print, q: Question<'_>) -> io::Result<()> {
    if let Some(out) = [0xaa; 40].get_mut(..q.number(2)) {
        list_into(rt, q.what(), part(&log(), 0, q.number(1)), out)?;
    }
    Ok(())
}

fn list_into(rt: &impl Print, what: &[u8], batch: &[u8], out: &mut [u8]) -> io::Result<()> {
    let w = listing::listing(Edition::Unicode, batch, out);
    show_text(rt, what, w, out)?;
    line(rt, b"  after it", Hex(part(out, w.length, out.len())))
}

fn show_text(rt: &impl Print, what: &[u8], w: Written, out: &[u8]) -> io::Result<()> {
    line(rt, what, w)?;
    rt.write_all(part(out, 0, w.length))
}

// What the listing program writes for these bytes, with more after them or not.
fn input(rt: &impl Print, what: &[u8], batch: &[u8], more: bool) -> io::Result<()> {
    let mut out = [0xaau8; 40];
    let w = listing::input_listing(batch, more, &mut out);
    show_text(rt, what, w, &out)
}

fn inputs(rt: &impl Print, log: &[u8; 284]) -> io::Result<()> {
    input(rt, b"input S, T, U", log, false)?;
    input(rt, b"input S, T, U and more", log, true)
}

fn long_inputs(rt: &impl Print, zeros: &[u8; 65537]) -> io::Result<()> {
    input(rt, b"input of 65536 zeros", part(zeros, 0, 65536), false)?;
    input(rt, b"input of 65537 zeros", zeros, false)
}

// A number into so much room, at a place.
fn decimal(rt: &impl Print, q: Question<'_>) -> io::Result<()> {
    if let Some(out) = [0xaa; 8].get_mut(..q.number(3)) {
        line(
            rt,
            q.what(),
            decimal::put_field(out, q.number(1), q.number(2), b';'),
        )?;
        output(rt, out)?;
    }
    Ok(())
}

pub fn listings(rt: &impl Print) -> io::Result<()> {
    topic(rt, b"listings")?;
    ask(
        rt,
        list,
        b"\
S, T, U|284|40
S, T, U, just enough room|284|36
S, T, U, a byte too little|284|35
S, T and a part of U|283|20
no records|0|12
no records, no room|0|9
",
    )?;
    inputs(rt, &log())?;
    long_inputs(rt, &[0u8; 65537])?;
    each(
        rt,
        |t| decimal::count_digits(nth(t, 0)),
        b"digits of 0, 9, 10, 99, 100 and the last number|0|9|10|99|100|18446744073709551615\n",
    )?;
    ask(
        rt,
        decimal,
        b"\
1070 at 1|1|1070|8
1070 at 1 of 4 bytes|1|1070|4
",
    )
}
