// windows-1252 and UTF-16 (section 14), asked by the calls for C: each answer, and every byte of the output.

#![tactic(auto)]

use eventlog_windows_1252::{eventlog_windows_1252_from_utf16, eventlog_windows_1252_to_utf16};
use format::Written;
use std::io;

// Bytes in hexadecimal.
fn show_byte(rt: &impl Print, x: u8) -> io::Result<()> {
    print!(rt; " {x:02x}")
}

fn show(rt: &impl Print, bytes: &[u8]) -> io::Result<()> {
    for x in bytes {
        show_byte(rt, *x)?;
    }
    Ok(())
}

// What was asked, the refusal and the bytes written, and the output.
fn answer(rt: &impl Print, what: &[u8], w: Written, out: &[u8]) -> io::Result<()> {
    rt.write_all(what)?;
    rt.write_all(b": ")?;
    print!(rt; "{} {}", w.refusal, w.length)?;
    show(rt, out)?;
    rt.write_all(b"\n")
}

// To an output of eight bytes of 7.
fn to(rt: &impl Print, what: &[u8], bytes: &[u8]) -> io::Result<()> {
    let mut out = [7u8; 8];
    let w = eventlog_windows_1252_to_utf16(bytes, &mut out);
    answer(rt, what, w, &out)
}

// To an output of four bytes of 7.
fn from(rt: &impl Print, what: &[u8], units: &[u8]) -> io::Result<()> {
    let mut out = [7u8; 4];
    let w = eventlog_windows_1252_from_utf16(units, &mut out);
    answer(rt, what, w, &out)
}

fn texts(rt: &impl Print) -> io::Result<()> {
    to(rt, b"no bytes", b"")?;
    to(rt, b"three bytes", b"A\xe9\xff")?;
    to(rt, b"four bytes", b"\x80\x8e\x9f\x7f")?;
    to(rt, b"five bytes", b"\x80\x8e\x9f\x7fz")?;
    from(rt, b"no units", b"")?;
    from(rt, b"three units", b"\xac\x20\x22\x21\x90\x00")?;
    from(rt, b"four units", b"\x7f\x00\xa0\x00\xff\x00\x92\x01")?;
    from(
        rt,
        b"five units",
        b"\x7f\x00\xa0\x00\xff\x00\x92\x01\x41\x00",
    )
}

fn refusals(rt: &impl Print) -> io::Result<()> {
    from(rt, b"half a unit", b"A\0B")?;
    from(rt, b"unit 0x0080", b"A\0\x80\x00")?;
    from(rt, b"unit 0x009F", b"A\0\x9f\x00")?;
    from(rt, b"unit 0x0100", b"A\0\x00\x01")?;
    from(rt, b"unit 0x20AD", b"A\0\xad\x20")?;
    from(rt, b"unit 0xFFFF", b"\xff\xffA\0")?;
    from(rt, b"five units, the last 0x0080", b"A\0B\0C\0D\0\x80\x00")?;
    from(rt, b"five units and a half", b"A\0B\0C\0D\0E\0F")
}

fn count_up(bytes: &mut [u8]) {
    for (i, x) in bytes.iter_mut().enumerate() {
        *x = (i % 256) as u8;
    }
}

// All bytes, and their units back.
fn whole_table(
    rt: &impl Print,
    bytes: &mut [u8],
    units: &mut [u8],
    back: &mut [u8],
) -> io::Result<()> {
    count_up(bytes);
    let w = eventlog_windows_1252_to_utf16(bytes, units);
    answer(rt, b"all bytes", w, units)?;
    let w = eventlog_windows_1252_from_utf16(units, back);
    answer(rt, b"all units", w, back)
}

// N bytes of one value.
fn filled<const N: usize>(x: u8) -> [u8; N] {
    [x; N]
}

fn main(rt: HostRuntime) -> io::Result<()> {
    texts(&rt)?;
    refusals(&rt)?;
    let mut bytes = filled::<256>(0);
    let mut units = filled::<512>(7);
    let mut back = filled::<256>(7);
    whole_table(&rt, &mut bytes, &mut units, &mut back)
}
