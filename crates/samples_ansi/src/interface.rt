// The calls for C in the editions 0, 1, 2 and 4294967295: 0 is Unicode, and every other number ANSI.

use crate::records::log;
use crate::show::{Hex, line, output, output_start, show_record, topic};
use crate::table::{Question, ask, part};
use eventlog_append::eventlog_append;
use eventlog_listing::eventlog_listing;
use eventlog_records::{
    eventlog_next_string, eventlog_refusal, eventlog_string, eventlog_string_refusal,
};
use eventlog_serving::{ReadHandle, eventlog_fresh, eventlog_read};
use eventlog_step::eventlog_step;
use eventlog_step_back::eventlog_step_back;
use eventlog_walk::eventlog_walk;
use eventlog_walk_back::eventlog_walk_back;
use eventlog_write::eventlog_write;
use format::Part;
use std::io;
use stepped::Stepped;
use stores::put;

fn stepped(rt: &impl Print, what: &[u8], x: Stepped) -> io::Result<()> {
    line(rt, what, (x.refusal, x.at))?;
    show_record(rt, b"  found", x.found)
}

// T, in the middle of the log.
fn steps(rt: &impl Print, e: u32, log: &[u8; 256]) -> io::Result<()> {
    stepped(rt, b"step at 64", eventlog_step(e, log, 64))?;
    stepped(rt, b"step back at 156", eventlog_step_back(e, log, 156))?;
    line(rt, b"refusal at 64", eventlog_refusal(e, log, 64))
}

// String 2 of U, by number, and the same in turn.
fn strings(rt: &impl Print, e: u32, log: &[u8; 256]) -> io::Result<()> {
    line(
        rt,
        b"string 2 of U",
        (
            eventlog_string_refusal(e, log, 156, 2),
            eventlog_string(e, log, 156, 2),
        ),
    )?;
    line(
        rt,
        b"next string at 239",
        eventlog_next_string(e, log, Part { at: 236, len: 8 }, 239),
    )
}

fn walks(rt: &impl Print, e: u32, log: &[u8; 256]) -> io::Result<()> {
    line(rt, b"walk", eventlog_walk(e, log))?;
    line(rt, b"walk back", eventlog_walk_back(e, log))
}

// The edition, and an event: its numbers, source, computer, SID, strings and data.
fn write(rt: &impl Print, e: u32, q: Question<'_>, out: &mut [u8]) -> io::Result<()> {
    let x = q.event(1);
    let w = eventlog_write(
        e,
        x.fields,
        x.source_name,
        x.computer_name,
        x.sid,
        x.strings,
        x.event_data,
        out,
    );
    line(rt, q.what(), w)?;
    output(rt, out)
}

// An event with no parts, behind U.
fn append(rt: &impl Print, e: u32, log: &mut [u8]) -> io::Result<()> {
    let x = Question(b",1").unnumbered(0);
    let a = eventlog_append(
        e,
        log,
        256,
        x.fields,
        x.source_name,
        x.computer_name,
        x.sid,
        x.strings,
        x.event_data,
    );
    line(rt, b"append", a)
}

fn appends(rt: &impl Print, e: u32, log: &mut [u8], s: &[u8]) -> io::Result<()> {
    put(log, 0, s);
    append(rt, e, log)?;
    line(rt, b"  the log's end", Hex(part(log, 256, 320)))
}

fn read(
    rt: &impl Print,
    what: &[u8],
    e: u32,
    h: ReadHandle,
    log: &[u8; 256],
    flags: u32,
) -> io::Result<ReadHandle> {
    let mut out = [0xaa; 256];
    let a = eventlog_read(e, h, log, flags, 8, 256, &mut out);
    line(rt, what, (a.status, a.read, a.needed))?;
    line(rt, b"  the handle", (a.handle.kind, a.handle.boundary))?;
    output_start(rt, &out)?;
    Ok(a.handle)
}

fn reads(rt: &impl Print, e: u32, log: &[u8; 256]) -> io::Result<()> {
    let h = eventlog_fresh(63);
    let h = read(rt, b"forwards", e, h, log, 5)?;
    read(rt, b"then backwards", e, h, log, 9)?;
    read(rt, b"seek 8 backwards", e, h, log, 10)?;
    Ok(())
}

fn listing(rt: &impl Print, e: u32, log: &[u8; 256], out: &mut [u8]) -> io::Result<()> {
    line(rt, b"listing", eventlog_listing(e, log, out))?;
    output(rt, out)
}

// A topic, and the edition.
fn calls(rt: &impl Print, q: Question<'_>) -> io::Result<()> {
    let log = log();
    let e = q.number(1);
    topic(rt, q.what())?;
    asks(rt, e, &log)?;
    write(
        rt,
        e,
        Question(b"write|5,0,1|ABC|K||D\0|\xd1\xd2\xd3"),
        &mut [0xaa; 76],
    )?;
    appends(rt, e, &mut [0xaa; 320], &log)?;
    reads(rt, e, &log)?;
    listing(rt, e, &log, &mut [0xaa; 36])
}

fn asks(rt: &impl Print, e: u32, log: &[u8; 256]) -> io::Result<()> {
    steps(rt, e, log)?;
    strings(rt, e, log)?;
    walks(rt, e, log)
}

pub fn interface(rt: &impl Print) -> io::Result<()> {
    ask(
        rt,
        calls,
        b"\
the calls for C in edition 0|0
the calls for C in edition 1|1
the calls for C in edition 2|2
the calls for C in edition 4294967295|4294967295
",
    )
}
