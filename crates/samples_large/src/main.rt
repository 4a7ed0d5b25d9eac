// Large records: texts that run up to a Length2 whose first unit is zero; and a record of the largest Length,
// written, read, appended, walked and served. They stand beside the program samples because `rt try` gives a
// program twenty million steps, and these take more.

#![tactic(auto)]

ghost use Rattle.std.specs.Prelude.{◌^◌, ◌<◌, ◌≤◌};

use event::Event;
use format::{Direction, Edition, Fields, Unnumbered};
use serve::Handle;
use std::io;
use stores::put;

// The number of the refusal of the record that starts at a place, and of the one that ends there.
fn refusal(s: &[u8], at: usize) -> u32 {
    record::refusal(Edition::Unicode, s, at).number
}

fn refusal_back(s: &[u8], end: usize) -> u32 {
    match record::step(Edition::Unicode, Direction::Backwards, s, end) {
        Ok(_) => 0,
        Err(x) => x.refusal.number,
    }
}

// The start of a record that has a source name, and of one that has a string after two empty names.
fn name_head() -> [u8; 56] {
    let mut h = [0; 56];
    put(&mut h, 4, b"LfLe");
    h
}

fn string_head() -> [u8; 60] {
    let mut h = [0; 60];
    put(&mut h, 4, b"LfLe");
    put(&mut h, 26, b"\x01");
    put(&mut h, 36, b"\x3c");
    h
}

// A record of N ones with this start: its only text runs up to Length2.
fn unended<const N: usize>(rt: &impl Print, text: &str, head: &[u8]) -> io::Result<()>
    requires room { 4 ≤ N }
    requires limit { N < 2 ^ 63 }
{
    let mut r = [1; N];
    let length = N.to_le_bytes();
    put(&mut r, 0, head);
    put(&mut r, 0, &length[..4]);
    put(&mut r, N - 4, &length[..4]);
    let front = refusal(&r, 0);
    let rear = refusal_back(&r, N);
    println!(rt; "{text} up to Length2 {N}: {front} {rear}")
}

fn unended_texts(rt: &impl Print, text: &str, head: &[u8]) -> io::Result<()> {
    unended::<65536>(rt, text, head)?;
    unended::<131072>(rt, text, head)?;
    unended::<196608>(rt, text, head)
}

// The parts of a large event but its source name: 255 empty strings and a long one are 100,000 bytes.
#[derive(Drop)]
struct Parts {
    computer_name: [u8; 40624],
    strings: [u8; 100000],
    event_data: [u8; 61440],
}

fn large_parts() -> Parts {
    let mut strings = [1; 100000];
    put(&mut strings, 0, &[0; 510]);
    put(&mut strings, 99998, &[0; 2]);
    Parts {
        computer_name: [2; 40624],
        strings,
        event_data: [3; 61440],
    }
}

// Events with this source name, a computer name of 40,624 bytes, a SID, 256 strings and 61,440 bytes of data.
fn large_event<'a, F>(fields: F, source_name: &'a [u8], parts: &'a Parts) -> Event<'a, F> {
    Event {
        fields,
        source_name,
        computer_name: &parts.computer_name,
        sid: b"\x01\x01\0\0\0\0\0\0\0\0\0\0",
        strings: &parts.strings,
        event_data: &parts.event_data,
    }
}

fn write(
    rt: &impl Print,
    length: u32,
    source_name: &[u8],
    parts: &Parts,
    log: &mut [u8],
) -> io::Result<()> {
    let f = Fields {
        record_number: 41,
        time_generated: 0,
        time_written: 0,
        event_id: 0,
        event_type: 2,
        num_strings: 256,
        event_category: 0,
        reserved_flags: 0,
    };
    let w = writer::write(Edition::Unicode, &large_event(f, source_name, parts), log);
    println!(rt; "write {length} bytes: {} {}", w.refusal, w.length)
}

fn append(
    rt: &impl Print,
    length: u32,
    source_name: &[u8],
    parts: &Parts,
    log: &mut [u8],
) -> io::Result<()> {
    let f = Unnumbered {
        time_generated: 0,
        time_written: 0,
        event_id: 0,
        event_type: 2,
        num_strings: 256,
        event_category: 0,
        reserved_flags: 0,
    };
    let a = append::append(
        Edition::Unicode,
        log,
        262140,
        &large_event(f, source_name, parts),
    );
    println!(rt; "append {length} bytes: {} {}", a.refusal.number, a.used)
}

// A read of one record, and the number of the record at the output's start.
fn read(rt: &impl Print, what: &str, log: &[u8], flags: u32) -> io::Result<()> {
    let mut out = [0; 262140];
    let a = Handle::fresh(0x3F).read(Edition::Unicode, log, flags, 0, 262140, &mut out);
    println!(rt; "{what}: {} {}", a.status, a.read)?;
    let number = numbers::u32_at(&out, 8);
    let front = refusal(&out, 0);
    println!(rt; "  its number, and its refusal: {number} {front}")
}

fn answers(rt: &impl Print, log: &[u8]) -> io::Result<()> {
    let front = refusal(log, 0);
    let rear = refusal_back(log, 262140);
    println!(rt; "the first record, from its start and its end: {front} {rear}")?;
    let w = walk::walk(Edition::Unicode, Direction::Forwards, log);
    println!(rt; "walk: {} {}", w.count, w.refusal.number)?;
    let w = walk::walk(Edition::Unicode, Direction::Backwards, log);
    println!(rt; "walk back: {} {}", w.count, w.refusal.number)?;
    read(rt, "forwards", log, 5)?;
    read(rt, "backwards", log, 9)
}

// Room for two records of the largest Length.
fn empty() -> [u8; 524280] {
    [0; 524280]
}

fn main(rt: HostRuntime) -> io::Result<()> {
    let parts = large_parts();
    let mut log = empty();
    unended_texts(&rt, "a name", &name_head())?;
    unended_texts(&rt, "a string", &string_head())?;
    write(&rt, 262144, &[1; 60004], &parts, &mut log)?;
    write(&rt, 262140, &[1; 60000], &parts, &mut log)?;
    append(&rt, 262144, &[1; 60004], &parts, &mut log)?;
    append(&rt, 262140, &[1; 60000], &parts, &mut log)?;
    answers(&rt, &log)
}
