// Writing: the refusal, how much was written, and the output.

use crate::reading::refusal_back;
use crate::show::{Hex, line, output, topic};
use crate::table::{Question, ask, each, nth, part};
use event::Event;
use format::{Edition, Written};
use places::{Lengths, measure};
use std::io;

// The number of the refusal of a question's event, 0 for none.
fn refusal(q: Question<'_>) -> u32 {
    match event::check(Edition::Unicode, &q.event(1)) {
        Ok(_) => 0,
        Err(x) => x.refusal.number(),
    }
}

// Into a buffer of 120 bytes.
fn record(rt: &impl Print, q: Question<'_>) -> io::Result<()> {
    let mut out = [0xaa; 120];
    let w = writer::write(Edition::Unicode, &q.event(1), &mut out);
    line(rt, q.what(), (w, refusal(q)))?;
    output(rt, &out)
}

// Into a buffer of 80 bytes.
fn event(rt: &impl Print, q: Question<'_>) -> io::Result<()> {
    let mut out = [0xaa; 80];
    line(
        rt,
        q.what(),
        writer::write(Edition::Unicode, &q.event(1), &mut out),
    )?;
    line(rt, b"  the output's start", Hex(part(&out, 0, 4)))
}

fn records(rt: &impl Print) -> io::Result<()> {
    ask(
        rt,
        record,
        b"\
S|7
T|8,0,1|S\0c\0a\0l\0e\0|T\x001\0|\x01\x01\0\0\0\0\0\0\0\0\0\0|O\0K\0\0\0|\0\0\0
U|9,4,3,32768,1001,1002,1003,7|P\0a\0n\0s\0|K\0|\x01\x02\0\0\0\0\0\x05\x15\0\0\0\x20\x02\0\0\
|A\0\0\0\0\0T\0a\0r\0e\0\0\0|\xd1\xd2\xd3\xd4\xd5
",
    )
}

fn events(rt: &impl Print) -> io::Result<()> {
    ask(
        rt,
        event,
        b"\
type 3|7,3
type 16|7,16
type 32|7,32
flags 0x4000|7,0,0,16384
flags 0x8000 without a string|7,0,0,32768
flags 0x8000 with a string|7,0,1,32768||||\0\0
type 3, flags 1|7,3,0,1
257 strings|7,0,257
flags 1, 257 strings|7,0,257,1
a source name of 3 bytes|7|A\0B
a source name with a zero unit|7|A\0\0\0B\0
a source name with a zero unit in its first word|7|A\0B\0\0\0C\0D\0
a source name with a zero unit after its first word|7|A\0B\0C\0D\0\0\0
a source name that ends in a zero unit|7|A\0\0\0
a computer name of 1 byte|7||A
a computer name that is a zero unit|7||\0\0
a SID of 7 bytes|7|||\x01\0\0\0\0\0\0
a SID of 8 bytes|7|||\x01\0\0\0\0\0\0\0
a SID with revision 2|7|||\x02\0\0\0\0\0\0\0
2 strings|7,0,2||||A\0\0\0\0\0
2 strings, 1 given|7,0,2||||A\0\0\0
2 strings, 3 given|7,0,2||||A\0\0\0\0\0\0\0
2 strings, one not ended|7,0,2||||A\0\0\0B\0
2 strings and a byte|7,0,2||||A\0\0\0\0\0B
no strings, 1 given|7||||\0\0
",
    )
}

// A source name and data of these lengths, into so much room.
fn long(rt: &impl Print, q: Question<'_>) -> io::Result<()> {
    if let Some(out) = [0; 65540].get_mut(..q.number(3)) {
        long_into(rt, q, &[0; 262100], out)?;
    }
    Ok(())
}

fn long_into(
    rt: &impl Print,
    q: Question<'_>,
    zeros: &[u8; 262100],
    out: &mut [u8],
) -> io::Result<()> {
    let event = Event {
        source_name: part(&[1; 4032], 0, q.number(1)),
        event_data: part(zeros, 0, q.number(2)),
        ..Question(b"7").event(0)
    };
    let w = writer::write(Edition::Unicode, &event, out);
    line(rt, q.what(), w)?;
    read_again(rt, w, out)
}

fn read_again(rt: &impl Print, w: Written, out: &[u8]) -> io::Result<()> {
    if w.refusal == 0 {
        line(
            rt,
            b"  read again, and from the rear",
            (
                record::refusal(Edition::Unicode, out, 0).number,
                refusal_back(out, w.length).number,
            ),
        )?;
    }
    Ok(())
}

fn lengths_refused(rt: &impl Print) -> io::Result<()> {
    ask(
        rt,
        long,
        b"\
Length 24096|4032|20000|65540
61441 bytes of data|0|61441|65540
262100 bytes of data, Length over the limit|0|262100|65540
68 bytes into 68|4|0|68
68 bytes into 67|4|0|67
64 bytes into none|0|0|0
",
    )
}

// The Length of a record with parts of these lengths, 0 where it would be too long.
fn length_of(t: &[u8]) -> u32 {
    let lengths = Lengths {
        source_name: nth(t, 0),
        computer_name: nth(t, 1),
        sid: nth(t, 2),
        strings: nth(t, 3),
        event_data: nth(t, 4),
    };
    match measure(Edition::Unicode, lengths) {
        Some(p) => p.length,
        None => 0,
    }
}

fn lengths(rt: &impl Print) -> io::Result<()> {
    each(
        rt,
        length_of,
        b"\
Lengths 65536, 262140, 262144|4032,0,0,0,61440|200636,0,0,0,61440|200640,0,0,0,61440
Lengths of parts as long as a number can be|18446744073709551615|0,18446744073709551614,2\
|0,0,18446744073709551600,18446744073709551600,18446744073709551600
",
    )
}

pub fn writing(rt: &impl Print) -> io::Result<()> {
    topic(rt, b"writing")?;
    records(rt)?;
    events(rt)?;
    lengths_refused(rt)?;
    lengths(rt)
}
