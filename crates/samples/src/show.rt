// How a question and its answer are written: a line of text and numbers, or of bytes. The program samples_ansi has the
// same file: two programs share code by a library alone, and each public function of a library has an equation with a
// definition and wrong programs, of which printing has none.

use crate::table::part;
use format::{
    Appended, Direction, Edition, Fields, Part, Record, Refusal, Refused, Walked, Written,
};
use serve::{Handle, Place};
use std::io;
use strings::NextString;
use walk::Stop;

// What answers a question: numbers, each after a space. It is a trait of this program's own, as `Display` of a library's
// type is the library's to write.
pub trait Answer {
    fn show(&self, rt: &impl Print) -> io::Result<()>;
}

// One impl for each type of number: one for all that is `Display` would speak of pairs too, and conflict with theirs.
impl Answer for u16 {
    fn show(&self, rt: &impl Print) -> io::Result<()> {
        print!(rt; " {self}")
    }
}

impl Answer for u32 {
    fn show(&self, rt: &impl Print) -> io::Result<()> {
        print!(rt; " {self}")
    }
}

impl Answer for usize {
    fn show(&self, rt: &impl Print) -> io::Result<()> {
        print!(rt; " {self}")
    }
}

// 1 for yes.
impl Answer for bool {
    fn show(&self, rt: &impl Print) -> io::Result<()> {
        u16::from(*self).show(rt)
    }
}

impl<A: Answer, B: Answer> Answer for (A, B) {
    fn show(&self, rt: &impl Print) -> io::Result<()> {
        self.0.show(rt)?;
        self.1.show(rt)
    }
}

impl<A: Answer, B: Answer, C: Answer> Answer for (A, B, C) {
    fn show(&self, rt: &impl Print) -> io::Result<()> {
        self.0.show(rt)?;
        self.1.show(rt)?;
        self.2.show(rt)
    }
}

impl Answer for Refusal {
    fn show(&self, rt: &impl Print) -> io::Result<()> {
        (self.number, self.field).show(rt)
    }
}

impl Answer for Part {
    fn show(&self, rt: &impl Print) -> io::Result<()> {
        (self.at, self.len).show(rt)
    }
}

impl Answer for Fields {
    fn show(&self, rt: &impl Print) -> io::Result<()> {
        (self.record_number, self.time_generated, self.time_written).show(rt)?;
        (self.event_id, self.event_type, self.num_strings).show(rt)?;
        (self.event_category, self.reserved_flags).show(rt)
    }
}

impl Answer for NextString {
    fn show(&self, rt: &impl Print) -> io::Result<()> {
        (self.refusal, self.string, self.next).show(rt)
    }
}

impl Answer for Walked {
    fn show(&self, rt: &impl Print) -> io::Result<()> {
        (self.count, self.refusal).show(rt)
    }
}

impl Answer for Stop {
    fn show(&self, rt: &impl Print) -> io::Result<()> {
        (self.count, self.refusal, self.at).show(rt)
    }
}

impl Answer for Written {
    fn show(&self, rt: &impl Print) -> io::Result<()> {
        (self.refusal, self.length).show(rt)
    }
}

impl Answer for Appended {
    fn show(&self, rt: &impl Print) -> io::Result<()> {
        (self.refusal, self.used).show(rt)
    }
}

// The Length of an accepted record; of a refused one 0 and the refusal.
impl Answer for Result<usize, Refusal> {
    fn show(&self, rt: &impl Print) -> io::Result<()> {
        match self {
            Ok(length) => length.show(rt),
            Err(refusal) => (0u32, *refusal).show(rt),
        }
    }
}

// 0 for a fresh handle; 1 and its byte position for a boundary.
impl Answer for Handle {
    fn show(&self, rt: &impl Print) -> io::Result<()> {
        match self.place {
            Place::Fresh => 0u32.show(rt),
            Place::Boundary(b) => (1u32, b).show(rt),
        }
    }
}

// Bytes as an answer, in hexadecimal.
#[derive(Drop)]
pub struct Hex<'a>(pub &'a [u8]);

impl Answer for Hex<'_> {
    fn show(&self, rt: &impl Print) -> io::Result<()> {
        for x in self.0 {
            print!(rt; " {x:02x}")?;
        }
        Ok(())
    }
}

// The start and the end of a line.
pub fn start(rt: &impl Print, what: &[u8]) -> io::Result<()> {
    rt.write_all(what)?;
    rt.write_all(b":")
}

pub fn end(rt: &impl Print) -> io::Result<()> {
    rt.write_all(b"\n")
}

// A question and its answer.
pub fn line(rt: &impl Print, what: &[u8], answer: impl Answer + Drop) -> io::Result<()> {
    start(rt, what)?;
    answer.show(rt)?;
    end(rt)
}

// What was written.
pub fn output(rt: &impl Print, s: &[u8]) -> io::Result<()> {
    line(rt, b"  the output", Hex(s))
}

// A record's Length, signature and number.
pub fn output_start(rt: &impl Print, s: &[u8]) -> io::Result<()> {
    line(rt, b"  the output's start", Hex(part(s, 0, 12)))
}

// Start and Length, the numbers, and where the parts lie.
pub fn show_record(rt: &impl Print, what: &[u8], a: Record) -> io::Result<()> {
    line(rt, what, (0u32, a.start, a.length))?;
    line(
        rt,
        b"  number, times, event, type, strings, category, flags",
        a.fields,
    )?;
    line(rt, b"  names", (a.source_name, a.computer_name))?;
    line(
        rt,
        b"  SID, strings and data",
        (a.sid, a.strings, a.event_data),
    )
}

pub fn show_step(rt: &impl Print, what: &[u8], x: Result<Record, Refused>) -> io::Result<()> {
    match x {
        Ok(a) => show_record(rt, what, a),
        Err(x) => line(rt, what, (x.refusal, x.at)),
    }
}

// A read's answer, and the records in its output.
pub fn show_read(
    rt: &impl Print,
    e: Edition,
    what: &[u8],
    a: serve::Answer,
    out: &[u8],
) -> io::Result<()> {
    rt.write_all(what)?;
    print!(rt; ": status {:08x}", a.status)?;
    line(rt, b", read and needed", (a.read, a.needed))?;
    line(rt, b"  the handle", a.handle)?;
    let w = walk::ended(e, Direction::Forwards, part(out, 0, a.read));
    line(
        rt,
        b"  records in the output, and their refusal",
        (w.count, w.refusal.number),
    )?;
    output_start(rt, out)?;
    // the four bytes after those read
    line(
        rt,
        b"  after them",
        Hex(part(out, a.read, a.read.saturating_add(4))),
    )
}

// A heading.
pub fn topic(rt: &impl Print, name: &[u8]) -> io::Result<()> {
    rt.write_all(b"\n# ")?;
    rt.write_all(name)?;
    rt.write_all(b"\n")
}
