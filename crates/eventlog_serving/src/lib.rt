// The calls for programs in C and Rust that serve a log: the read call, its handle, and the set of types in it (section
// 8). Each answers what the call below it answers.

#![tactic(auto)]

ghost use Rattle.std.specs.Prelude.{◌≡◌};
ghost use Rattle.edition.specs.Editions.{unit_of};
ghost use Rattle.event_types.specs.Types.{type_count};
ghost use Rattle.serve.specs.Serving.{serving};
ghost use Rattle.eventlog_serving.specs.Handles.{handle_of, read_handle, fresh_read, read_outcome, answered};

use edition::edition_of;
use serve::{Handle, Place};

// A read handle, as it crosses to C, which has no enums with values: 0 for a fresh one, else a boundary; the set of types that
// are wanted; and the boundary's byte position.
#[repr(C)]
#[derive(Clone, Copy)]
pub struct ReadHandle {
    pub kind: u32,
    pub types: u32,
    pub boundary: usize,
}

// What a read answers, as it crosses to C: a refusal has the handle that was given, and what the next record needs.
#[repr(C)]
#[derive(Clone, Copy)]
pub struct ReadAnswer {
    pub status: u32,
    pub read: usize,
    pub needed: usize,
    pub handle: ReadHandle,
}

// Rule 8.25: a handle that was given: every kind but 0 is a boundary.
impl From<ReadHandle> for Handle {
    ghost from_gives = { λ h x. x ≡ handle_of h };

    fn from(h: ReadHandle) -> Handle {
        if h.kind == 0 {
            return Handle {
                place: Place::Fresh,
                types: h.types,
            };
        }
        Handle {
            place: Place::Boundary(h.boundary),
            types: h.types,
        }
    }
}

// Rule 8.25: a handle that is answered.
impl From<Handle> for ReadHandle {
    ghost from_gives = { λ x h. h ≡ read_handle x.place x.types };

    fn from(x: Handle) -> ReadHandle {
        let place = x.place;
        match place {
            Place::Fresh => ReadHandle {
                kind: 0,
                types: x.types,
                boundary: 0,
            },
            Place::Boundary(b) => ReadHandle {
                kind: 1,
                types: x.types,
                boundary: b,
            },
        }
    }
}

// A handle that nothing was read with, for the records of these types.
pub fn eventlog_fresh(types: u32) -> ReadHandle
    ensures { result ≡ fresh_read types }
{
    ReadHandle::from(Handle::fresh(types))
}

// How many types a set holds.
pub fn eventlog_types_count(types: u32) -> u32
    ensures { result ≡ type_count types }
{
    event_types::count(types)
}

// Reads as many records of the log as fit into the size asked.
pub fn eventlog_read(
    edition: u32,
    h: ReadHandle,
    log: &[u8],
    flags: u32,
    number: u32,
    size: usize,
    out: &mut [u8],
) -> ReadAnswer
    ensures { read_outcome result out.new ≡ answered h (serving (unit_of edition) log.now (handle_of h) flags number size out.old) }
{
    let handle = Handle::from(h);
    let e = edition_of(edition);
    let a = handle.read(e, log, flags, number, size, out);
    if a.status == 0 {
        return ReadAnswer {
            status: 0,
            read: a.read,
            needed: a.needed,
            handle: ReadHandle::from(a.handle),
        };
    }
    ReadAnswer {
        status: a.status,
        read: a.read,
        needed: a.needed,
        handle: h,
    }
}
