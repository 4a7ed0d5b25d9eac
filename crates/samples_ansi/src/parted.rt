// Parts and strings: by place, by number, and in turn.

use crate::records::{edition, log, unicode_log};
use crate::show::{Hex, line, topic};
use crate::table::{Question, ask};
use format::{Edition, Part};
use std::io;

// The parts of the record at a place of the log.
fn show_parts(rt: &impl Print, q: Question<'_>) -> io::Result<()> {
    let log = log();
    show_names(rt, q.what(), &log, q.number(1))?;
    show_others(rt, &log, q.number(1))
}

fn show_names(rt: &impl Print, what: &[u8], log: &[u8], at: usize) -> io::Result<()> {
    line(rt, what, Hex(parts::source_name(Edition::Ansi, log, at)))?;
    line(
        rt,
        b"  computer name",
        Hex(parts::computer_name(Edition::Ansi, log, at)),
    )
}

fn show_others(rt: &impl Print, log: &[u8], at: usize) -> io::Result<()> {
    line(rt, b"  SID", Hex(parts::sid(Edition::Ansi, log, at)))?;
    line(
        rt,
        b"  data",
        Hex(parts::event_data(Edition::Ansi, log, at)),
    )
}

// The refusal of string k of the record at a place, where it lies, and its bytes.
fn show_string(
    rt: &impl Print,
    what: &[u8],
    e: Edition,
    log: &[u8],
    at: usize,
    k: u32,
) -> io::Result<()> {
    line(
        rt,
        what,
        (
            parts::string_refusal(e, log, at, k),
            parts::string_part(e, log, at, k),
        ),
    )?;
    line(rt, b"  its bytes", Hex(parts::string(e, log, at, k)))
}

// A place of the log, the string's number, and the edition.
fn string(rt: &impl Print, q: Question<'_>) -> io::Result<()> {
    show_string(
        rt,
        q.what(),
        edition(q, 3),
        &log(),
        q.number(1),
        q.number(2),
    )
}

// Where the run starts, its length, a place, and the edition: the refusal of the string that starts there, where it lies,
// and the place after it.
fn next_string(rt: &impl Print, q: Question<'_>) -> io::Result<()> {
    let run = Part {
        at: q.number(1),
        len: q.number(2),
    };
    line(
        rt,
        q.what(),
        strings::next_string(edition(q, 4), &log(), run, q.number(3)),
    )
}

// U's run lies from 236 to 244; a step shows no other one.
fn strings_in_turn(rt: &impl Print) -> io::Result<()> {
    ask(
        rt,
        next_string,
        b"\
next string at 236|236|8|236
next string at 238|236|8|238
next string at 239|236|8|239
next string at 244|236|8|244
next string at 235|236|8|235
next string at 237|236|8|237
next string at 240|236|8|240
next string at 243|236|8|243
next string at the last number|236|8|18446744073709551615
a run that ends before the zero byte|236|7|239
a run that ends after it|239|5|239
a run to the buffer's end|236|20|244
a run past the buffer's end|236|21|236
a run of no bytes|60|0|60
a run at the last number|18446744073709551615|1|18446744073709551615
next string at 239 in Unicode|236|8|239|Unicode
",
    )
}

pub fn parted(rt: &impl Print) -> io::Result<()> {
    topic(rt, b"parts and strings")?;
    ask(
        rt,
        show_parts,
        b"\
source name of S|0
source name of T|64
source name of U|156
source name at 1|1
",
    )?;
    ask(
        rt,
        string,
        b"\
string 0 of T|64|0
string 1 of T|64|1
string 0 of U|156|0
string 1 of U|156|1
string 2 of U|156|2
string 3 of U|156|3
string 4294967295 of U|156|4294967295
string 0 at 1|1|0
string 0 of T in Unicode|64|0|Unicode
",
    )?;
    show_string(
        rt,
        b"string 0 of T of Unicode",
        Edition::Ansi,
        &unicode_log(),
        64,
        0,
    )?;
    strings_in_turn(rt)
}
