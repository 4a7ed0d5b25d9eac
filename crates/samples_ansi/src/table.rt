// Tables of questions. A line is a question: what is asked, and after each `|` a field, a number or bytes. A field of
// several numbers has a comma between them. So the prover meets the code of a question once, and not at each question.
// The program samples has the same file, as it has show.rt, whose head says why.

ghost use Rattle.std.specs.Prelude.{◌<◌};

use crate::show::{Answer, end, start};
use event::Event;
use format::{Fields, Unnumbered};
use std::io;
use std::str::{self, FromStr};
use stores::put;

// A line of a table.
#[derive(Clone, Copy)]
pub struct Question<'a>(pub &'a [u8]);

impl<'a> Question<'a> {
    // What is asked.
    pub fn what(self) -> &'a [u8] {
        self.field(0)
    }

    // Field k, the first being 1.
    pub fn field(self, k: usize) -> &'a [u8] {
        piece(self.0, b'|', k)
    }

    // The number that is field k.
    pub fn number<N: FromStr + Default + Drop>(self, k: usize) -> N
    where
        N::Err: Drop,
    {
        parsed(self.field(k))
    }

    // The event whose numbers stand in field k, and its source, computer, SID, strings and data in the fields after it. The
    // numbers are its own, type, strings and flags, and after them those that are mostly 0.
    pub(crate) fn event(self, k: usize) -> Event<'a, Fields>
        requires { k < 10 }
    {
        let t = self.field(k);
        Event {
            fields: Fields {
                record_number: nth(t, 0),
                event_type: nth(t, 1),
                num_strings: nth(t, 2),
                reserved_flags: nth(t, 3),
                time_generated: nth(t, 4),
                time_written: nth(t, 5),
                event_id: nth(t, 6),
                event_category: nth(t, 7),
            },
            source_name: self.field(k + 1),
            computer_name: self.field(k + 2),
            sid: self.field(k + 3),
            strings: self.field(k + 4),
            event_data: self.field(k + 5),
        }
    }

    // The same event, with no number of its own yet.
    pub(crate) fn unnumbered(self, k: usize) -> Event<'a, Unnumbered>
        requires { k < 10 }
    {
        let numbered = self.event(k);
        let f = numbered.fields;
        Event {
            fields: Unnumbered {
                time_generated: f.time_generated,
                time_written: f.time_written,
                event_id: f.event_id,
                event_type: f.event_type,
                num_strings: f.num_strings,
                event_category: f.event_category,
                reserved_flags: f.reserved_flags,
            },
            source_name: numbered.source_name,
            computer_name: numbered.computer_name,
            sid: numbered.sid,
            strings: numbered.strings,
            event_data: numbered.event_data,
        }
    }

    // Puts bytes over these: the fields from k on are places, and the bytes that belong there.
    pub fn patch(self, out: &mut [u8], k: usize) {
        let places = self.0.split(|x| *x == b'|').skip(k).step_by(2);
        let texts = self.0.split(|x| *x == b'|').skip(k).skip(1).step_by(2);
        for (at, t) in places.zip(texts) {
            put(out, parsed(at), t);
        }
    }
}

// The bytes from one place up to another, none where they are not there.
pub fn part(s: &[u8], at: usize, end: usize) -> &[u8] {
    s.get(at..end).unwrap_or(b"")
}

// Part k of these bytes, where x parts them; no bytes where there are not so many.
fn piece(t: &[u8], x: u8, k: usize) -> &[u8] {
    t.split(|y| *y == x).nth(k).unwrap_or(b"")
}

// The number that these digits write; 0 where they write none of its type.
fn parsed<N: FromStr + Default + Drop>(t: &[u8]) -> N
where
    N::Err: Drop,
{
    str::from_utf8(t)
        .ok()
        .and_then(|digits| digits.parse().ok())
        .unwrap_or_default()
}

// Number k of a field, the first being 0.
pub fn nth<N: FromStr + Default + Drop>(t: &[u8], k: usize) -> N
where
    N::Err: Drop,
{
    parsed(piece(t, b',', k))
}

// The bytes after a field's first comma.
pub fn second(t: &[u8]) -> &[u8] {
    piece(t, b',', 1)
}

// Each line of a table.
pub(crate) fn ask<R: Print, F: FnMut(&R, Question<'_>) -> io::Result<()>>(
    rt: &R,
    mut question: F,
    table: &[u8],
) -> io::Result<()>
    requires { F.IsAlwaysCallable question }
{
    for q in table.split(|x| *x == b'\n') {
        if !q.is_empty() {
            question(rt, Question(q))?;
        }
    }
    Ok(())
}

// Each field of each line of a table, and on one line what is answered to the fields of a line.
pub(crate) fn each<A: Answer + Drop, F: Fn(&[u8]) -> A>(
    rt: &impl Print,
    question: F,
    table: &[u8],
) -> io::Result<()>
    requires { F.IsAlwaysCallable question }
{
    for q in table.split(|x| *x == b'\n') {
        if !q.is_empty() {
            start(rt, Question(q).what())?;
            for t in q.split(|x| *x == b'|').skip(1) {
                question(t).show(rt)?;
            }
            end(rt)?;
        }
    }
    Ok(())
}
