// Reading: records at a place and from the rear, and their refusals.

use crate::records::{edition, log, s, t, unicode_t};
use crate::show::{line, show_step, topic};
use crate::table::{Question, ask, part};
use format::{Direction, Edition, NO_REFUSAL, Refusal};
use std::io;
use stores::put;

// The record that is met at a place of the log.
fn step(rt: &impl Print, d: Direction, q: Question<'_>) -> io::Result<()> {
    show_step(
        rt,
        q.what(),
        record::step(Edition::Ansi, d, &log(), q.number(1)),
    )
}

// The record that fills the buffer, from both ends.
fn steps_of(rt: &impl Print, what: &[u8], r: &[u8]) -> io::Result<()> {
    show_step(
        rt,
        what,
        record::step(Edition::Ansi, Direction::Forwards, r, 0),
    )?;
    show_step(
        rt,
        b"  back",
        record::step(Edition::Ansi, Direction::Backwards, r, r.len()),
    )
}

// The refusal of the record that ends at a place.
fn refusal_back(e: Edition, r: &[u8], end: usize) -> Refusal {
    match record::step(e, Direction::Backwards, r, end) {
        Ok(_) => NO_REFUSAL,
        Err(x) => x.refusal,
    }
}

// The refusals of the record that fills the buffer, each with its field: of the step at its start, and of the
// step from its end.
fn refusals_in(rt: &impl Print, e: Edition, what: &[u8], r: &[u8]) -> io::Result<()> {
    line(
        rt,
        what,
        (record::refusal(e, r, 0), refusal_back(e, r, r.len())),
    )
}

fn steps(rt: &impl Print) -> io::Result<()> {
    ask(
        rt,
        |rt, q| step(rt, Direction::Forwards, q),
        b"\
step at 0|0
step at 64|64
step at 156|156
step at 1|1
step at 256|256
step at the last number|18446744073709551615
",
    )?;
    ask(
        rt,
        |rt, q| step(rt, Direction::Backwards, q),
        b"\
step back at 256|256
step back at 156|156
step back at 64|64
step back at 255|255
step back at 63|63
step back at 257|257
",
    )
}

// A record with bytes put over it, from field k on.
fn changed(rt: &impl Print, q: Question<'_>, k: usize, r: &mut [u8]) -> io::Result<()> {
    q.patch(r, k);
    refusals_in(rt, Edition::Ansi, q.what(), r)
}

fn changed_t(rt: &impl Print, q: Question<'_>) -> io::Result<()> {
    changed(rt, q, 1, &mut t())
}

// 2 to 8.
fn fixed_fields(rt: &impl Print) -> io::Result<()> {
    ask(
        rt,
        changed_t,
        b"\
T|0|
T with Length 60|0|\x3c
T with Length 96|0|\x60
T with another signature|4|M
T with Length2 88|88|\x58
T with Length2 96|88|\x60
T with type 3|24|\x03
T with flags 1|30|\x01
T with flags 0x8000|30|\0\x80
T with 257 strings|26|\x01\x01
",
    )
}

// 10 to 13.
fn parts(rt: &impl Print) -> io::Result<()> {
    ask(
        rt,
        changed_t,
        b"\
T with SID offset 64|44|\x40
T with SID offset 65|44|\x41
T with SID offset 69|44|\x45
T with SID offset 89|44|\x59
T with a SID of 16 bytes|40|\x10
T with a SID of 24 bytes|40|\x18
T with SID revision 2|68|\x02
T with no SID|40|\0
T with string offset 79|36|\x4f
T with string offset 81|36|\x51
T with no strings|26|\0
T with 2 strings|26|\x02
T with 6 strings|26|\x06
T with 7 strings|26|\x07
T with data offset 82|52|\x52
T with data offset 84|52|\x54
T with no data|48|\0
T with 1 byte of data|48|\x01
T with 2 bytes of data|48|\x02
T with 5 bytes of data|48|\x05
T with 6 bytes of data|48|\x06
",
    )
}

// S with bytes put over it.
fn steps_of_s(rt: &impl Print, q: Question<'_>) -> io::Result<()> {
    let mut r = s();
    q.patch(&mut r, 1);
    steps_of(rt, q.what(), &r)
}

// 9: of S, whose names lie in the four bytes at 56.
fn names(rt: &impl Print) -> io::Result<()> {
    ask(
        rt,
        steps_of_s,
        b"\
S with names of 0 and 0 bytes, and a gap of two|56|\0\0AB
S with names of 1 and 0 bytes|56|A\0\0B
S with names of 0 and 1 bytes|56|\0A\0B
S with names of 2 and 0 bytes|56|AB\0\0
S with names of 1 and 1 bytes|56|A\0B\0
S with names of 0 and 2 bytes|56|\0AB\0
S with a source name that has no end|56|ABCD
S with a computer name of no bytes that has no end|56|ABC\0
S with a computer name of one byte that has no end|56|AB\0C
S with a computer name of three bytes that has no end|56|\0ABC
",
    )
}

// The number of strings, their offset, and the bytes from 58 on, where the names of S end.
fn strings_after_names(rt: &impl Print) -> io::Result<()> {
    ask(
        rt,
        steps_of_s,
        b"\
S with an empty string at 58|26|\x01|36|\x3a|58|\0\0
S with a string of 1 byte at 58|26|\x01|36|\x3a|58|A\0
S with a string that has no end at 58|26|\x01|36|\x3a|58|AB
S with 2 strings at 58|26|\x02|36|\x3a|58|\0\0
S with 3 strings at 58|26|\x03|36|\x3a|58|\0\0
S with a string at 57, in its names|26|\x01|36|\x39|58|\0\0
S with a string at 59, behind a gap|26|\x01|36|\x3b|58|A\0
S with a string at Length2|26|\x01|36|\x3c|58|\0\0
S with a string at 61|26|\x01|36|\x3d|58|\0\0
",
    )
}

// T with a gap of seven bytes after its names.
fn gapped() -> [u8; 96] {
    let t = t();
    let mut r = [0xeeu8; 96];
    put(&mut r, 0, part(&t, 0, 65));
    put(&mut r, 72, part(&t, 68, 86));
    Question(b"|0|\x60|36|\x54|44|\x48|52|\x57|92|\x60\0\0\0").patch(&mut r, 1);
    r
}

// T with no gap there.
fn gapless() -> [u8; 88] {
    let t = t();
    let mut r = [0xeeu8; 88];
    put(&mut r, 0, part(&t, 0, 65));
    put(&mut r, 65, part(&t, 68, 86));
    Question(b"|0|\x58|36|\x4d|44|\x41|52|\x50|84|\x58\0\0\0").patch(&mut r, 1);
    r
}

fn gaps(rt: &impl Print) -> io::Result<()> {
    steps_of(rt, b"T with a gap of seven bytes", &gapped())?;
    steps_of(rt, b"T with no gap", &gapless())?;
    ask(
        rt,
        |rt, q| changed(rt, q, 1, &mut gapped()),
        b"T with a gap of seven bytes and one before its string|36|\x55\n",
    )
}

// 320 bytes that are all 0, or 256 that are all 1, with bytes put over them.
fn filled(rt: &impl Print, q: Question<'_>) -> io::Result<()> {
    match q.number::<u32>(1) {
        0 => changed(rt, q, 2, &mut [0; 320]),
        _ => changed(rt, q, 2, &mut [1; 256]),
    }
}

// So many empty strings at 58; and a record of 256 bytes, whose Length2 begins with a zero byte: a name and a string up to
// it have no end.
fn long_records(rt: &impl Print) -> io::Result<()> {
    ask(
        rt,
        filled,
        b"\
256 strings|0|0|\x40\x01\0\0LfLe|26|\0\x01|36|\x3a|316|\x40\x01
257 strings|0|0|\x40\x01\0\0LfLe|26|\x01\x01|36|\x3a|316|\x40\x01
a name up to Length2 256|1|0|\0\x01\0\0LfLe\
\0\0\0\0\0\0\0\0\0\0\0\0\0\0\0\0\0\0\0\0\0\0\0\0\0\0\0\0\0\0\0\0\0\0\0\0\0\0\0\0\0\0\0\0\0\0\0\0|252|\0\x01\0\0
a string up to Length2 256|1|0|\0\x01\0\0LfLe\
\0\0\0\0\0\0\0\0\0\0\0\0\0\0\0\0\0\0\x01\0\0\0\0\0\0\0\0\0\x3a\0\0\0\0\0\0\0\0\0\0\0\0\0\0\0\0\0\0\0\0\0|252|\0\x01\0\0
a string up to a zero byte before it|1|0|\0\x01\0\0LfLe\
\0\0\0\0\0\0\0\0\0\0\0\0\0\0\0\0\0\0\x01\0\0\0\0\0\0\0\0\0\x3a\0\0\0\0\0\0\0\0\0\0\0\0\0\0\0\0\0\0\0\0\0|251|\0\0\x01\0\0
",
    )
}

// S, or T in one of both editions; and the edition that it is read in.
fn in_edition(rt: &impl Print, q: Question<'_>) -> io::Result<()> {
    let e = edition(q, 2);
    match q.number::<u32>(1) {
        0 => refusals_in(rt, e, q.what(), &s()),
        1 => refusals_in(rt, e, q.what(), &t()),
        _ => refusals_in(rt, e, q.what(), &unicode_t()),
    }
}

// 0 is S, 1 is T in ANSI, 2 is T in Unicode.
fn editions(rt: &impl Print) -> io::Result<()> {
    ask(
        rt,
        in_edition,
        b"\
T in Unicode, read in ANSI|2
T in Unicode, read in Unicode|2|Unicode
T in ANSI, read in Unicode|1|Unicode
T in ANSI, read in ANSI|1
S in Unicode|0|Unicode
S in ANSI|0
",
    )
}

pub fn reading(rt: &impl Print) -> io::Result<()> {
    topic(rt, b"steps, from the front and from the rear")?;
    steps(rt)?;
    topic(rt, b"refusals, from the front and from the rear")?;
    fixed_fields(rt)?;
    parts(rt)?;
    long_records(rt)?;
    editions(rt)?;
    topic(rt, b"names, strings and gaps")?;
    names(rt)?;
    strings_after_names(rt)?;
    gaps(rt)
}
