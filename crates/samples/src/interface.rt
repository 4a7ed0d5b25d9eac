// The calls for C, asked where their answers differ from each other's.

use crate::records::{log, log_with};
use crate::show::{Hex, line, output, output_start, show_record, topic};
use crate::table::{Question, ask, part};
use eventlog_append::eventlog_append;
use eventlog_listing::eventlog_listing;
use eventlog_records::{
    eventlog_next_string, eventlog_refusal, eventlog_string, eventlog_string_refusal,
};
use eventlog_serving::{ReadHandle, eventlog_fresh, eventlog_read};
use eventlog_step::eventlog_step;
use eventlog_step_back::eventlog_step_back;
use eventlog_walk::eventlog_walk;
use eventlog_walk_back::eventlog_walk_back;
use eventlog_write::eventlog_write;
use format::Part;
use std::io;
use stepped::Stepped;
use stores::put;

fn stepped(rt: &impl Print, what: &[u8], x: Stepped) -> io::Result<()> {
    line(rt, what, (x.refusal, x.at))?;
    show_record(rt, b"  found", x.found)
}

fn step(rt: &impl Print, q: Question<'_>) -> io::Result<()> {
    stepped(rt, q.what(), eventlog_step(0, &log(), q.number(1)))
}

fn step_back(rt: &impl Print, q: Question<'_>) -> io::Result<()> {
    stepped(rt, q.what(), eventlog_step_back(0, &log(), q.number(1)))
}

fn refusal(rt: &impl Print, q: Question<'_>) -> io::Result<()> {
    line(rt, q.what(), eventlog_refusal(0, &log(), q.number(1)))
}

fn steps(rt: &impl Print) -> io::Result<()> {
    ask(
        rt,
        step,
        b"\
step at 168|168
step at 65|65
step at 60|60
",
    )?;
    ask(
        rt,
        step_back,
        b"\
step back at 168|168
step back at 65|65
",
    )?;
    ask(
        rt,
        refusal,
        b"\
refusal at 64|64
refusal at 65|65
refusal at 284|284
",
    )
}

// A record's place and the string's number.
fn string(rt: &impl Print, q: Question<'_>) -> io::Result<()> {
    let log = log();
    line(
        rt,
        q.what(),
        (
            eventlog_string_refusal(0, &log, q.number(1), q.number(2)),
            eventlog_string(0, &log, q.number(1), q.number(2)),
        ),
    )
}

// A place in the run from 256 to 262.
fn next_string(rt: &impl Print, q: Question<'_>) -> io::Result<()> {
    let run = Part { at: 256, len: 6 };
    line(
        rt,
        q.what(),
        eventlog_next_string(0, &log(), run, q.number(1)),
    )
}

fn strings(rt: &impl Print) -> io::Result<()> {
    ask(
        rt,
        string,
        b"\
string 2 of U|168|2
string 3 of U|168|3
string 0 of U|168|0
string 0 of S|0|0
string 0 at 1|1|0
",
    )?;
    ask(
        rt,
        next_string,
        b"\
next string at 260|260
next string at 262|262
",
    )
}

// The first bytes of the log, with bytes put over it.
fn walks(rt: &impl Print, q: Question<'_>) -> io::Result<()> {
    let log = log_with(q, 2);
    show_walks(rt, q.what(), part(&log, 0, q.number(1)))
}

fn show_walks(rt: &impl Print, what: &[u8], s: &[u8]) -> io::Result<()> {
    line(rt, what, (eventlog_walk(0, s), eventlog_walk_back(0, s)))
}

// An event: its numbers, source, computer, SID, strings and data.
fn write(rt: &impl Print, q: Question<'_>, out: &mut [u8]) -> io::Result<()> {
    let x = q.event(1);
    let w = eventlog_write(
        0,
        x.fields,
        x.source_name,
        x.computer_name,
        x.sid,
        x.strings,
        x.event_data,
        out,
    );
    line(rt, q.what(), w)?;
    output(rt, out)
}

fn append(rt: &impl Print, q: Question<'_>, log: &mut [u8]) -> io::Result<()> {
    let x = q.unnumbered(1);
    let a = eventlog_append(
        0,
        log,
        88,
        x.fields,
        x.source_name,
        x.computer_name,
        x.sid,
        x.strings,
        x.event_data,
    );
    line(rt, q.what(), a)?;
    line(rt, b"  the log", Hex(log))
}

// The source name "P", the computer name "KK", a SID, one string, one data byte; then with U's numbers behind it.
fn writes(rt: &impl Print) -> io::Result<()> {
    let mut out = [0xaa; 100];
    write(
        rt,
        Question(b"write|5,0,1|P\0|K\0K\0|\x01\0\0\0\0\0\0\x05|A\0\0\0|\xd1"),
        &mut out,
    )?;
    let mut log = [0xaa; 300];
    put(&mut log, 0, &out);
    append(
        rt,
        Question(
            b"append|,4,3,32768,1001,1002,1003,7|P\0|K\0K\0|\x01\0\0\0\0\0\0\x05|A\0\0\0\0\0\0\0|\xd1",
        ),
        &mut log,
    )
}

// The fields: flags, number and size.
fn read(rt: &impl Print, h: ReadHandle, q: Question<'_>) -> io::Result<ReadHandle> {
    let mut out = [0xaa; 300];
    let a = eventlog_read(
        0,
        h,
        &log(),
        q.number(1),
        q.number(2),
        q.number(3),
        &mut out,
    );
    line(rt, q.what(), (a.status, a.read, a.needed))?;
    show_handle(rt, b"  the handle", a.handle)?;
    output_start(rt, &out)?;
    Ok(a.handle)
}

fn show_handle(rt: &impl Print, what: &[u8], h: ReadHandle) -> io::Result<()> {
    line(rt, what, (h.kind, h.boundary))
}

// Reads with one handle after another, from this one on.
fn sequence(rt: &impl Print, mut h: ReadHandle, table: &[u8]) -> io::Result<()> {
    ask(
        rt,
        |rt, q| {
            h = read(rt, h, q)?;
            Ok(())
        },
        table,
    )
}

fn reads(rt: &impl Print) -> io::Result<()> {
    let h = eventlog_fresh(63);
    show_handle(rt, b"fresh", h)?;
    sequence(
        rt,
        h,
        b"\
backwards, 116|9|0|116
forwards, 115|5|0|115
forwards, 116|5|0|116
forwards again|5|0|116
",
    )?;
    sequence(rt, h, b"seek 8|6|8|104\n")
}

fn odd_handles(rt: &impl Print) -> io::Result<()> {
    let odd = ReadHandle {
        kind: 7,
        types: 63,
        boundary: 284,
    };
    sequence(rt, odd, b"a handle of kind 7, forwards|5|0|300\n")?;
    let odd = ReadHandle {
        kind: 0,
        types: 63,
        boundary: 99,
    };
    sequence(
        rt,
        odd,
        b"a handle of kind 0 with a boundary, size 0|5|0|0\n",
    )
}

// Into so much room.
fn listing(rt: &impl Print, q: Question<'_>) -> io::Result<()> {
    if let Some(out) = [0xaa; 40].get_mut(..q.number(1)) {
        line(rt, q.what(), eventlog_listing(0, &log(), out))?;
        output(rt, out)?;
    }
    Ok(())
}

pub fn interface(rt: &impl Print) -> io::Result<()> {
    topic(rt, b"the calls for C")?;
    steps(rt)?;
    strings(rt)?;
    ask(
        rt,
        walks,
        b"\
walks|284
walks without the last byte|283
walks of the log with type 3 in T|284|88|\x03
",
    )?;
    writes(rt)?;
    reads(rt)?;
    odd_handles(rt)?;
    ask(
        rt,
        listing,
        b"\
listing into 35 bytes|35
listing into 40 bytes|40
",
    )
}
