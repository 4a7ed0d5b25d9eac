// Writing and appending: the refusal, how much was written or is used, and the output.

use crate::records::{edition, log, s, unicode_t};
use crate::show::{Answer, Hex, line, output, topic};
use crate::table::{Question, ask};
use event::{Event, Unwritten};
use format::{Direction, Edition, Fields};
use places::{Lengths, Places, measure};
use std::io;
use stores::put;

// The number of an event's refusal, 0 for none.
fn refusal(e: Edition, event: &Event<'_, Fields>) -> u32 {
    match event::check(e, event) {
        Ok(_) => 0,
        Err(x) => x.refusal.number(),
    }
}

// Into a buffer of 104 bytes.
fn record(rt: &impl Print, q: Question<'_>) -> io::Result<()> {
    let mut out = [0xaa; 104];
    let event = q.event(1);
    let w = writer::write(Edition::Ansi, &event, &mut out);
    line(rt, q.what(), (w, refusal(Edition::Ansi, &event)))?;
    output(rt, &out)
}

fn records(rt: &impl Print) -> io::Result<()> {
    ask(
        rt,
        record,
        b"\
S|7
T|8,0,1|Scale|T1|\x01\x01\0\0\0\0\0\0\0\0\0\0|OK\0|\0\0\0
U|9,4,3,32768,1001,1002,1003,7|Pans|K|\x01\x02\0\0\0\0\0\x05\x15\0\0\0\x20\x02\0\0|A\0\0Tare\0|\xd1\xd2\xd3\xd4\xd5
",
    )
}

// The refusals of an event in ANSI and in Unicode.
fn refusals(rt: &impl Print, q: Question<'_>) -> io::Result<()> {
    in_both(rt, q.what(), &q.event(1))
}

fn in_both(rt: &impl Print, what: &[u8], event: &Event<'_, Fields>) -> io::Result<()> {
    line(
        rt,
        what,
        (
            refusal(Edition::Ansi, event),
            refusal(Edition::Unicode, event),
        ),
    )
}

fn events(rt: &impl Print) -> io::Result<()> {
    ask(
        rt,
        refusals,
        b"\
names of no bytes|7
names of 1 and 3 bytes|7|A|ABC
names of 2 and 4 bytes|7|AB|ABCD
a source name with a zero byte second|7|A\0B
a source name with a zero byte third|7|AB\0C
a source name with a zero byte first|7|\0ABC
a source name that ends in a zero byte|7|ABC\0
a source name that is a zero byte|7|\0
a computer name with a zero byte second|7||A\0BC
a computer name that ends in a zero byte|7||ABCDE\0
a source name with a zero byte in its second block|7|ABCDEFGHIJKLMNOPQR\0T
2 strings|7,0,2||||A\0\0
2 strings, 1 given|7,0,2||||AB\0
2 strings, 3 given|7,0,2||||A\0\0\0
2 strings, one not ended|7,0,2||||A\0B
1 string and a byte|7,0,1||||A\0B
1 string, none given|7,0,1
no strings, 1 given|7||||\0
2 strings of Unicode|7,0,2||||A\0\0\0\0\0
1 string of 16 bytes|7,0,1||||ABCDEFGHIJKLMNOP\0
type 3|7,3|A\0B
flags 1|7,0,0,1|A\0B
257 strings|7,0,257|A\0B
a SID of 7 bytes|7,0,1|||\x01\0\0\0\0\0\0
",
    )
}

// An event with no parts but data.
fn most_data(rt: &impl Print, event_data: &[u8; 61441]) -> io::Result<()> {
    let event = Event {
        event_data,
        ..Question(b"7").event(0)
    };
    in_both(rt, b"61441 bytes of data", &event)?;
    refused_places(rt, b"  its places", Edition::Ansi, &event)?;
    refused_places(rt, b"  its places in Unicode", Edition::Unicode, &event)
}

// The places that a refusal tells; 0 where the event is accepted, or its record would be too long.
fn refused_places(
    rt: &impl Print,
    what: &[u8],
    e: Edition,
    event: &Event<'_, Fields>,
) -> io::Result<()> {
    match event::check(e, event) {
        Err(
            Unwritten {
                refusal: _,
                places: Some(p),
            },
        ) => line(rt, what, p),
        _ => line(rt, what, 0u32),
    }
}

// An event into so much room, which its last field says.
fn room(rt: &impl Print, q: Question<'_>) -> io::Result<()> {
    if let Some(out) = [0xaa; 70].get_mut(..q.number(7)) {
        line(rt, q.what(), writer::write(Edition::Ansi, &q.event(1), out))?;
        output(rt, out)?;
    }
    Ok(())
}

impl Answer for Places {
    fn show(&self, rt: &impl Print) -> io::Result<()> {
        (self.gap, self.sid, self.strings).show(rt)?;
        (self.event_data, self.end_gap, self.length).show(rt)
    }
}

// The edition and five lengths: the gap after the names, the places of SID, strings and data, the gap before Length2, and
// the Length; zeros where a record would be too long.
fn places(rt: &impl Print, q: Question<'_>) -> io::Result<()> {
    let lengths = Lengths {
        source_name: q.number(2),
        computer_name: q.number(3),
        sid: q.number(4),
        strings: q.number(5),
        event_data: q.number(6),
    };
    match measure(edition(q, 1), lengths) {
        Some(p) => line(rt, q.what(), p),
        None => line(rt, q.what(), ((0u32, 0u32, 0u32), (0u32, 0u32, 0u32))),
    }
}

fn measures(rt: &impl Print) -> io::Result<()> {
    ask(
        rt,
        room,
        b"\
64 bytes into 64|7|AB|||||64
64 bytes into 63|7|AB|||||63
68 bytes into 70|7|ABC|||||70
",
    )?;
    ask(
        rt,
        places,
        b"\
places of S||0|0|0|0|0
places of S in Unicode|Unicode|0|0|0|0|0
places of T||5|2|12|3|3
places of T's lengths in Unicode|Unicode|5|2|12|3|3
places of U||4|1|16|8|5
Length 65536||4034|0|0|0|61440
Length 262140||200638|0|0|0|61440
Length 262144||200639|0|0|0|61440
a name as long as a number can be||18446744073709551615|0|0|0|0
",
    )
}

// The fields: how much of the log is used; the numbers, source, computer, SID, strings and data; the edition; the place
// where the last record ends then, if it is shown.
fn append_one(rt: &impl Print, q: Question<'_>, log: &mut [u8]) -> io::Result<()> {
    let a = append::append(edition(q, 8), log, q.number(1), &q.unnumbered(2));
    line(rt, q.what(), a)?;
    match q.number(9) {
        0 => Ok(()),
        end => last(rt, log, end),
    }
}

// The number and the start of the record that ends at a place.
fn last(rt: &impl Print, log: &[u8], end: usize) -> io::Result<()> {
    match record::step(Edition::Ansi, Direction::Backwards, log, end) {
        Ok(a) => line(
            rt,
            b"  the last record's number and start",
            (a.fields.record_number, a.start),
        ),
        Err(x) => line(rt, b"  refused", (x.refusal.number, x.at)),
    }
}

// Each line of a table, to one log, which begins with a record.
fn append_all(rt: &impl Print, first: &[u8], table: &[u8], log: &mut [u8]) -> io::Result<()> {
    put(log, 0, first);
    ask(rt, |rt, q| append_one(rt, q, log), table)
}

fn grow(rt: &impl Print, log: &mut [u8]) -> io::Result<()> {
    append_all(
        rt,
        &s(),
        b"\
T after S|64|,0,1|Scale|T1|\x01\x01\0\0\0\0\0\0\0\0\0\0|OK\0|\0\0\0||156
a record with a name of 3 bytes after it|156||ABC||||||224
",
        log,
    )?;
    line(rt, b"  the log", Hex(log))
}

fn first_record(rt: &impl Print, log: &mut [u8]) -> io::Result<()> {
    append_one(
        rt,
        Question(b"T to an empty log|0|,0,1|Scale|T1|\x01\x01\0\0\0\0\0\0\0\0\0\0|OK\0|\0\0\0"),
        log,
    )?;
    line(rt, b"  the log", Hex(log))
}

fn no_room(rt: &impl Print, log: &mut [u8]) -> io::Result<()> {
    append_all(
        rt,
        &s(),
        b"\
T after S, a byte too little|64|,0,1|Scale|T1|\x01\x01\0\0\0\0\0\0\0\0\0\0|OK\0|\0\0\0
T after S in Unicode|64|,0,1|Scale|T1|\x01\x01\0\0\0\0\0\0\0\0\0\0|OK\0|\0\0\0|Unicode
a name with a zero byte|64||A\0B
behind a part of S|63|,0,1|Scale|T1|\x01\x01\0\0\0\0\0\0\0\0\0\0|OK\0|\0\0\0
used past the buffer|156|,0,1|Scale|T1|\x01\x01\0\0\0\0\0\0\0\0\0\0|OK\0|\0\0\0||64
",
        log,
    )?;
    line(rt, b"  the log", Hex(log))
}

// Behind a record of the other edition.
fn other_edition(rt: &impl Print) -> io::Result<()> {
    append_all(
        rt,
        &unicode_t(),
        b"\
behind T of Unicode, in ANSI|104
behind T of Unicode, in Unicode|104|||||||Unicode
",
        &mut [0xaa; 200],
    )?;
    append_all(
        rt,
        &log(),
        b"\
behind U of ANSI, in Unicode|256|||||||Unicode
behind U of ANSI, in ANSI|256||||||||320
",
        &mut [0xaa; 320],
    )
}

pub fn writing(rt: &impl Print) -> io::Result<()> {
    topic(rt, b"writing")?;
    records(rt)?;
    events(rt)?;
    most_data(rt, &[0; 61441])?;
    measures(rt)?;
    topic(rt, b"appending")?;
    grow(rt, &mut [0xaa; 230])?;
    first_record(rt, &mut [0xaa; 96])?;
    no_room(rt, &mut [0xaa; 155])?;
    other_edition(rt)
}
