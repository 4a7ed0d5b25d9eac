// Questions about sets of event types: which types a set holds, and reads of the types of a set, of a log of four
// records of the types 4, 0, 16 and 4 and the numbers 7 to 10, with half a record behind them or not; and of a
// log of three with a long one between. A line has the question's numbers and then the answer's; a fresh handle is
// shown as boundary 1000.

#![tactic(auto)]

use eventlog_serving::{eventlog_fresh, eventlog_read, eventlog_types_count};
use format::Edition;
use serve::{Handle, Place};
use std::io;
use stores::put;

fn record(number: u8, kind: u8) -> [u8; 64] {
    let mut r = [0; 64];
    put(&mut r, 0, b"\x40\0\0\0LfLe");
    put(&mut r, 60, b"\x40");
    r[8] = number;
    r[24] = kind;
    r
}

fn log() -> [u8; 288] {
    let mut r = [0; 288];
    put(&mut r, 0, &record(7, 4));
    put(&mut r, 64, &record(8, 0));
    put(&mut r, 128, &record(9, 16));
    put(&mut r, 192, &record(10, 4));
    r
}

// Two records of type 4, and between them one of type 0 that is longer.
fn long_between() -> [u8; 196] {
    let mut r = [0; 196];
    put(&mut r, 0, &record(7, 4));
    put(&mut r, 64, b"\x44\0\0\0LfLe\x08");
    put(&mut r, 128, b"\x44");
    put(&mut r, 132, &record(9, 4));
    r
}

fn at_of(place: Place) -> usize {
    match place {
        Place::Fresh => 1000,
        Place::Boundary(b) => b,
    }
}

// Nine bytes of a read's output.
fn show_output(rt: &impl Print, out: &[u8]) -> io::Result<()> {
    print!(rt; "  output:")?;
    for at in [0, 8, 64, 72, 128, 136, 192, 200, 256] {
        if let Some(x) = out.get(at) {
            print!(rt; " {x:02x}")?;
        }
    }
    println!(rt)
}

// Where a handle stands, and what is asked of it: flags and number.
#[derive(Clone, Copy)]
struct Asked {
    place: Place,
    flags: u32,
    number: u32,
}

// A read, and then its output.
fn read(rt: &impl Print, log: &[u8], asked: Asked, types: u32, size: usize) -> io::Result<()> {
    let mut out = [0xaa; 300];
    let h = Handle {
        place: asked.place,
        types,
    };
    let a = h.read(
        Edition::Unicode,
        log,
        asked.flags,
        asked.number,
        size,
        &mut out,
    );
    print!(rt; "read: {} {} {types}", log.len(), at_of(asked.place))?;
    print!(rt; " {} {} {size}", asked.flags, asked.number)?;
    print!(rt; " {} {} {}", a.status, a.read, a.needed)?;
    println!(rt; " {} {}", at_of(a.handle.place), a.handle.types)?;
    show_output(rt, &out)
}

// Reads of the types of each set, of four sizes.
fn reads(rt: &impl Print, log: &[u8], asked: Asked, sets: &[u32]) -> io::Result<()> {
    for types in sets {
        for size in [63, 64, 128, 300] {
            read(rt, log, asked, *types, size)?;
        }
    }
    Ok(())
}

// All sets, with a fresh handle.
fn fresh(rt: &impl Print, log: &[u8]) -> io::Result<()> {
    for (flags, number) in [(5, 0), (9, 0), (6, 8), (10, 9), (6, 11), (7, 0)] {
        let asked = Asked {
            place: Place::Fresh,
            flags,
            number,
        };
        reads(rt, log, asked, &[63, 4, 32, 16, 0, 64, 68, 4294967295])?;
    }
    Ok(())
}

// Some, from a boundary.
fn onward(rt: &impl Print, log: &[u8], place: Place) -> io::Result<()> {
    for flags in [5, 9] {
        let asked = Asked {
            place,
            flags,
            number: 0,
        };
        reads(rt, log, asked, &[63, 4, 32])?;
    }
    let seek = Asked {
        place,
        flags: 6,
        number: 9,
    };
    reads(rt, log, seek, &[4, 64])
}

fn boundaries(rt: &impl Print, log: &[u8]) -> io::Result<()> {
    for at in [0, 64, 192, 256, 400] {
        onward(rt, log, Place::Boundary(at))?;
    }
    Ok(())
}

// Which of some types a set holds.
fn set(rt: &impl Print, set: u32) -> io::Result<()> {
    let c = eventlog_types_count(set);
    let is_set = u32::from(event_types::is_set(set));
    println!(rt; "set: {set} {} {c} {is_set}", event_types::count(set))?;
    for x in [0, 1, 2, 3, 4, 8, 16, 32, 64, 65535] {
        let wants = u32::from(event_types::wants(set, x));
        println!(rt; "wants: {set} {x} {wants}")?;
    }
    Ok(())
}

fn handles(rt: &impl Print) -> io::Result<()> {
    let h = Handle::fresh(4);
    println!(rt; "fresh: {} {}", at_of(h.place), h.types)?;
    let c = eventlog_fresh(70);
    println!(rt; "fresh: {} {} {}", c.kind, c.types, c.boundary)
}

// The same across the border to C: a read that succeeds, and one that is refused.
fn border(rt: &impl Print, log: &[u8], types: u32, size: usize) -> io::Result<()> {
    let mut out = [0xaa; 300];
    let a = eventlog_read(0, eventlog_fresh(types), log, 5, 0, size, &mut out);
    let next = a.handle;
    print!(rt;
        "border: {types} {size} {} {} {}",
        a.status, a.read, a.needed
    )?;
    println!(rt; " {} {} {}", next.kind, next.types, next.boundary)?;
    show_output(rt, &out)
}

// An unwanted record is skipped, also where it does not fit into what is left of the output.
fn skips(rt: &impl Print) -> io::Result<()> {
    let s = long_between();
    for (types, flags) in [(4, 5), (4, 9), (63, 5)] {
        let asked = Asked {
            place: Place::Fresh,
            flags,
            number: 0,
        };
        read(rt, &s, asked, types, 128)?;
    }
    Ok(())
}

// The log without and with the half record behind it.
fn both_logs(rt: &impl Print, log: &[u8; 288]) -> io::Result<()> {
    let records = &log[..256];
    fresh(rt, records)?;
    fresh(rt, log)?;
    boundaries(rt, records)?;
    border(rt, log, 4, 64)?;
    border(rt, log, 32, 63)
}

fn main(rt: HostRuntime) -> io::Result<()> {
    handles(&rt)?;
    for types in [0, 1, 32, 33, 63, 64, 4294967295] {
        set(&rt, types)?;
    }
    both_logs(&rt, &log())?;
    skips(&rt)
}
