// Walks, and listings.

use crate::records::{edition, log, log_with, unicode_log};
use crate::show::{Hex, line, topic};
use crate::table::{Question, ask, part};
use format::{Direction, Edition, Written};
use std::io;

fn walks_of(rt: &impl Print, what: &[u8], e: Edition, s: &[u8]) -> io::Result<()> {
    line(rt, what, walk::walk(e, Direction::Forwards, s))?;
    line(
        rt,
        b"  the front's stop",
        walk::ended(e, Direction::Forwards, s),
    )?;
    line(rt, b"  back", walk::walk(e, Direction::Backwards, s))?;
    line(
        rt,
        b"  the rear's stop",
        walk::ended(e, Direction::Backwards, s),
    )
}

// The log's bytes from one place up to another, the edition, and what is put over the log.
fn walks(rt: &impl Print, q: Question<'_>) -> io::Result<()> {
    let log = log_with(q, 4);
    walks_of(
        rt,
        q.what(),
        edition(q, 3),
        part(&log, q.number(1), q.number(2)),
    )
}

fn parts_of_log(rt: &impl Print) -> io::Result<()> {
    ask(
        rt,
        walks,
        b"\
no bytes|0|0
S, T, U|0|256
S, T|0|156
S, T and a part of U|0|255
a part of S, and T, U|1|256
S, T, U with a source name without an end in S|0|256||56|ABCD
S, T, U with another type in T|0|256||88|\x03
S, T, U with another string offset in U|0|256||192|\x51
S, T, U in Unicode|0|256|Unicode
",
    )?;
    walks_of(rt, b"S, T of Unicode", Edition::Ansi, &unicode_log())
}

fn list_into(
    rt: &impl Print,
    what: &[u8],
    e: Edition,
    batch: &[u8],
    out: &mut [u8],
) -> io::Result<()> {
    let w = listing::listing(e, batch, out);
    show_text(rt, what, w, out)?;
    line(rt, b"  after it", Hex(part(out, w.length, out.len())))
}

fn show_text(rt: &impl Print, what: &[u8], w: Written, out: &[u8]) -> io::Result<()> {
    line(rt, what, w)?;
    rt.write_all(part(out, 0, w.length))
}

// The first bytes of the log, the room, and the edition.
fn list(rt: &impl Print, q: Question<'_>) -> io::Result<()> {
    if let Some(out) = [0xaa; 40].get_mut(..q.number(2)) {
        list_into(
            rt,
            q.what(),
            edition(q, 3),
            part(&log(), 0, q.number(1)),
            out,
        )?;
    }
    Ok(())
}

fn listings(rt: &impl Print) -> io::Result<()> {
    ask(
        rt,
        list,
        b"\
S, T, U|256|40
S, T, U, just enough room|256|35
S, T, U, a byte too little|256|34
S, T and a part of U|255|40
S, T, U in Unicode|256|40|Unicode
",
    )
}

fn listings_of_unicode(rt: &impl Print, log: &[u8; 168]) -> io::Result<()> {
    list_into(rt, b"S, T of Unicode", Edition::Ansi, log, &mut [0xaa; 40])?;
    list_into(
        rt,
        b"S, T of Unicode in Unicode",
        Edition::Unicode,
        log,
        &mut [0xaa; 40],
    )
}

// What the listing program writes for these bytes: it reads Unicode.
fn input(rt: &impl Print, what: &[u8], batch: &[u8]) -> io::Result<()> {
    let mut out = [0xaa; 40];
    let w = listing::input_listing(batch, false, &mut out);
    show_text(rt, what, w, &out)
}

pub fn walking(rt: &impl Print) -> io::Result<()> {
    topic(rt, b"walks")?;
    parts_of_log(rt)?;
    topic(rt, b"listings")?;
    listings(rt)?;
    listings_of_unicode(rt, &unicode_log())?;
    input(rt, b"input S, T of Unicode", &unicode_log())?;
    input(rt, b"input S, T, U", &log())
}
