// Reading: records at a place and from the rear, their refusals, their parts and their strings.

use crate::published::published;
use crate::records::{log, log_with, s, t};
use crate::show::{Hex, line, show_record, show_step, topic};
use crate::table::{Question, ask, part};
use format::{Direction, Edition, NO_REFUSAL, Part, Refusal};
use std::io;
use stores::put;

// The record that is met at a place of the log.
fn step(rt: &impl Print, d: Direction, q: Question<'_>) -> io::Result<()> {
    show_step(
        rt,
        q.what(),
        record::step(Edition::Unicode, d, &log(), q.number(1)),
    )
}

// The refusal of the record that ends at a place.
pub fn refusal_back(r: &[u8], end: usize) -> Refusal {
    match record::step(Edition::Unicode, Direction::Backwards, r, end) {
        Ok(_) => NO_REFUSAL,
        Err(x) => x.refusal,
    }
}

// The refusals of the record that fills the buffer, each with its field: of the step at its start, and of the
// step from its end.
fn refusals(rt: &impl Print, what: &[u8], r: &[u8]) -> io::Result<()> {
    line(
        rt,
        what,
        (
            record::refusal(Edition::Unicode, r, 0),
            refusal_back(r, r.len()),
        ),
    )
}

// The first bytes of S.
fn start_of_s(rt: &impl Print, q: Question<'_>) -> io::Result<()> {
    refusals(rt, q.what(), part(&s(), 0, q.number(1)))
}

// A record with bytes put over it.
fn changed(rt: &impl Print, q: Question<'_>, r: &mut [u8]) -> io::Result<()> {
    q.patch(r, 1);
    refusals(rt, q.what(), r)
}

fn changed_s(rt: &impl Print, q: Question<'_>) -> io::Result<()> {
    changed(rt, q, &mut s())
}

fn changed_t(rt: &impl Print, q: Question<'_>) -> io::Result<()> {
    changed(rt, q, &mut t())
}

// 2 to 5.
fn lengths(rt: &impl Print) -> io::Result<()> {
    ask(
        rt,
        changed_t,
        b"\
T|0|
T with Length 60|0|\x3c
T with Length 102|0|\x66
T with Length 108|0|\x6c
T with Length 65536|0|\0\0\x01
T with Length 262144|0|\0\0\x04
T with another signature|4|M
T with Length2 100|100|\x64
T with Length2 65536|100|\0\0\x01
T with Length2 262144|100|\0\0\x04
T with Length2 108|100|\x6c
",
    )
}

// 6 to 8.
fn numbers(rt: &impl Print) -> io::Result<()> {
    ask(
        rt,
        changed_t,
        b"\
T with type 3|24|\x03
T with type 16|24|\x10
T with type 32|24|\x20
T with type 256|24|\0\x01
T with flags 1|30|\x01
T with flags 0x4000|30|\0\x40
T with flags 0x8000|30|\0\x80
T with flags 0x8000 and no strings|26|\0\0\0\0\0\x80
T with flags 0x8000 and 300 strings|26|\x2c\x01\0\0\0\x80
T with flags 0x4000 and no strings|26|\0\0\0\0\0\x40
T with flags 0x4000 and 300 strings|26|\x2c\x01\0\0\0\x40
T with 257 strings|26|\x01\x01
T with type 3 and flags 1|24|\x03\0\x01\0\0\0\x01
T with flags 1 and 257 strings|26|\x01\x01\0\0\x01
",
    )
}

// 9 and 10.
fn names_and_sids(rt: &impl Print) -> io::Result<()> {
    ask(
        rt,
        changed_s,
        b"\
S with a computer name that has no end|57|\x01
S with a source name that has no end|57|\x01|59|\x01
",
    )?;
    ask(
        rt,
        changed_t,
        b"\
T with SID offset 77|44|\x4d
T with SID offset 74|44|\x4a
T with a SID of 16 bytes|40|\x10
T with a SID of 28 bytes|40|\x1c
T with a SID of 4294967292 bytes|40|\xfc\xff\xff\xff
T with SID revision 2|76|\x02
T with SID count 2|77|\x02
T with no SID|40|\0
",
    )
}

// 11 to 13, and the offsets of absent parts.
fn strings_and_data(rt: &impl Print) -> io::Result<()> {
    ask(
        rt,
        changed_s,
        b"\
S with string offset 5|36|\x05
S with SID offset 5|44|\x05
S with data offset 5|52|\x05
",
    )?;
    ask(
        rt,
        changed_t,
        b"\
T with string offset 90|36|\x5a
T with 2 strings|26|\x02
T with 5 strings|26|\x05
T with no strings|26|\0
T with data offset 95|52|\x5f
T with data offset 4294967295|52|\xff\xff\xff\xff
T with 7 bytes of data|48|\x07
T with 6 bytes of data|48|\x06
T with 2 bytes of data|48|\x02
T with no data|48|\0
T with 4294967295 bytes of data|48|\xff\xff\xff\xff
",
    )
}

// S made 68 bytes long.
fn longer_s() -> [u8; 68] {
    let mut r = [0u8; 68];
    put(&mut r, 0, &s());
    Question(b"|0|\x44|60|\0\0\0\0\x44").patch(&mut r, 1);
    r
}

// The second has one string, "AB" without a zero unit before Length2.
fn sizes(rt: &impl Print) -> io::Result<()> {
    ask(
        rt,
        |rt, q| changed(rt, q, &mut longer_s()),
        b"\
S with 68 bytes|0|\x44
S with a string that has no end|26|\x01|36|\x3c|60|A\0B\0
S with a string|26|\x01|36|\x3c|60|A\0\0\0
",
    )
}

// T with a gap of eight bytes after its names (Rule 2.12).
fn gapped() -> [u8; 108] {
    let t = t();
    let mut r = [0xeeu8; 108];
    put(&mut r, 0, part(&t, 0, 74));
    put(&mut r, 82, part(&t, 76, 97));
    Question(b"|0|\x6c|36|\x5e|44|\x52|52|\x64|104|\x6c\0\0\0").patch(&mut r, 1);
    r
}

// T with no gap there.
fn gapless() -> [u8; 100] {
    let t = t();
    let mut r = [0u8; 100];
    put(&mut r, 0, part(&t, 0, 74));
    put(&mut r, 74, part(&t, 76, 97));
    Question(b"|0|\x64|36|\x56|44|\x4a|52|\x5c|96|\x64").patch(&mut r, 1);
    r
}

fn step_of(rt: &impl Print, what: &[u8], r: &[u8]) -> io::Result<()> {
    show_step(
        rt,
        what,
        record::step(Edition::Unicode, Direction::Forwards, r, 0),
    )
}

fn gaps(rt: &impl Print) -> io::Result<()> {
    let mut r = gapped();
    step_of(rt, b"T with a gap of eight bytes", &r)?;
    show_step(
        rt,
        b"the same from the rear",
        record::step(Edition::Unicode, Direction::Backwards, &r, 108),
    )?;
    put(&mut r, 36, b"\x5f");
    refusals(rt, b"the same with a string offset of 95", &r)?;
    step_of(rt, b"T with no gap", &gapless())?;
    ask(
        rt,
        changed_s,
        b"\
S with a string inside its names|26|\x01|36|\x38
S with a string past its end|26|\x01|36|\xff
",
    )
}

// The first bytes of these, with bytes put over them.
fn changed_part(rt: &impl Print, q: Question<'_>, r: &mut [u8]) -> io::Result<()> {
    q.patch(r, 2);
    refusals(rt, q.what(), part(r, 0, q.number(1)))
}

// So many empty strings.
fn many_strings(rt: &impl Print) -> io::Result<()> {
    ask(
        rt,
        |rt, q| changed_part(rt, q, &mut [0; 580]),
        b"\
256 strings|576|0|\x40\x02\0\0LfLe|26|\0\x01|36|\x3c|572|\x40\x02
257 strings|580|0|\x44\x02\0\0LfLe|26|\x01\x01|36|\x3c|576|\x44\x02
",
    )
}

// Empty names: 61,440 bytes of data make 61,504 bytes, and 61,441 make 61,508.
fn most_data(rt: &impl Print) -> io::Result<()> {
    ask(
        rt,
        |rt, q| changed_part(rt, q, &mut [0; 61508]),
        b"\
61440 bytes of data|61504|0|\x40\xf0\0\0LfLe|48|\0\xf0\0\0\x3c|61500|\x40\xf0
61441 bytes of data|61508|0|\x44\xf0\0\0LfLe|48|\x01\xf0\0\0\x3c|61504|\x44\xf0
",
    )
}

// String k of the record at a place of the log, with bytes put over the log: its refusal, where it lies, and its bytes.
fn string(rt: &impl Print, q: Question<'_>) -> io::Result<()> {
    let log = log_with(q, 3);
    show_string(rt, q.what(), &log, q.number(1), q.number(2))
}

fn show_string(rt: &impl Print, what: &[u8], log: &[u8], at: usize, k: u32) -> io::Result<()> {
    line(
        rt,
        what,
        (
            parts::string_refusal(Edition::Unicode, log, at, k),
            parts::string_part(Edition::Unicode, log, at, k),
        ),
    )?;
    line(
        rt,
        b"  its bytes",
        Hex(parts::string(Edition::Unicode, log, at, k)),
    )
}

fn strings_by_number(rt: &impl Print) -> io::Result<()> {
    ask(
        rt,
        string,
        b"\
string 0 of T|64|0
string 1 of T|64|1
string 0 of U|168|0
string 1 of U|168|1
string 2 of U|168|2
string 3 of U|168|3
string 4294967295 of U|168|4294967295
string 0 at 1|1|0
string 0 of T with type 3|64|0|88|\x03
",
    )
}

// A run of the log and a place in it: the refusal of the string that starts there, where it lies, and the place after it.
fn next_string(rt: &impl Print, q: Question<'_>) -> io::Result<()> {
    let run = Part {
        at: q.number(1),
        len: q.number(2),
    };
    line(
        rt,
        q.what(),
        strings::next_string(Edition::Unicode, &log(), run, q.number(3)),
    )
}

// U's run lies from 256 to 272; a step shows no other one.
fn strings_in_turn(rt: &impl Print) -> io::Result<()> {
    ask(
        rt,
        next_string,
        b"\
next string at 256|256|16|256
next string at 260|256|16|260
next string at 262|256|16|262
next string at 272|256|16|272
next string at 255|256|16|255
next string at 257|256|16|257
next string at 263|256|16|263
next string at 271|256|16|271
next string at the last number|256|16|18446744073709551615
a run that ends in a zero unit|256|15|262
a run to the buffer's end|256|28|272
a run past the buffer's end|256|29|256
a run of no bytes|60|0|60
a run at the last number|18446744073709551615|1|18446744073709551615
a run as long as the last number|256|18446744073709551615|256
",
    )
}

// The parts of the record at a place of the log.
fn show_parts(rt: &impl Print, q: Question<'_>) -> io::Result<()> {
    let log = log();
    show_names(rt, q.what(), &log, q.number(1))?;
    show_others(rt, &log, q.number(1))
}

fn show_names(rt: &impl Print, what: &[u8], log: &[u8], at: usize) -> io::Result<()> {
    line(rt, what, Hex(parts::source_name(Edition::Unicode, log, at)))?;
    line(
        rt,
        b"  computer name",
        Hex(parts::computer_name(Edition::Unicode, log, at)),
    )
}

fn show_others(rt: &impl Print, log: &[u8], at: usize) -> io::Result<()> {
    line(rt, b"  SID", Hex(parts::sid(Edition::Unicode, log, at)))?;
    line(
        rt,
        b"  data",
        Hex(parts::event_data(Edition::Unicode, log, at)),
    )
}

fn shown_parts(rt: &impl Print) -> io::Result<()> {
    ask(
        rt,
        show_parts,
        b"\
source name of S|0
source name of T|64
source name of U|168
source name at 1|1
",
    )?;
    show_record(rt, b"no record", parts::nothing())
}

fn steps(rt: &impl Print) -> io::Result<()> {
    ask(
        rt,
        |rt, q| step(rt, Direction::Forwards, q),
        b"\
step at 0|0
step at 64|64
step at 168|168
step at 1|1
step at 284|284
step at 285|285
step at the last number|18446744073709551615
",
    )?;
    ask(
        rt,
        |rt, q| step(rt, Direction::Backwards, q),
        b"\
step back at 284|284
step back at 168|168
step back at 64|64
step back at 283|283
step back at 63|63
step back at 0|0
step back at 285|285
",
    )
}

pub fn reading(rt: &impl Print) -> io::Result<()> {
    topic(rt, b"steps, from the front and from the rear")?;
    steps(rt)?;
    topic(rt, b"refusals, from the front and from the rear")?;
    ask(
        rt,
        start_of_s,
        b"\
S without its last byte|63
S|64
no bytes|0
",
    )?;
    lengths(rt)?;
    numbers(rt)?;
    names_and_sids(rt)?;
    strings_and_data(rt)?;
    sizes(rt)?;
    gaps(rt)?;
    many_strings(rt)?;
    most_data(rt)?;
    ask(
        rt,
        |rt, q| changed(rt, q, &mut published()),
        b"\
the record of MS-EVEN 4.2
the same with a well-formed SID|106|\x01\x01
",
    )?;
    topic(rt, b"parts and strings")?;
    shown_parts(rt)?;
    strings_by_number(rt)?;
    strings_in_turn(rt)
}
