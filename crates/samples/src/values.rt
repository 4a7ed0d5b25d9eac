// What records are made of: numbers, types, flags, SIDs, texts and strings; and bytes put into a buffer.

use crate::records::u;
use crate::show::{Hex, line, topic};
use crate::table::{Question, ask, each, nth, part, second};
use format::Edition;
use runs::strings_end;
use searches::{
    searches_strings_end, searches_strings_end_by_unit, searches_text_len,
    searches_text_len_by_unit,
};
use std::io;
use stores::put;
use text::text_len;

// The text of 128 units with a zero unit at a byte.
fn long_text(t: &[u8]) -> usize {
    let mut s = [1u8; 256];
    put(&mut s, nth(t, 0), b"\0\0");
    text_len(Edition::Unicode, &s)
}

// Where so many strings end; 99 where there are not so many.
fn end_of(t: &[u8]) -> usize {
    strings_end(Edition::Unicode, second(t), nth(t, 0)).unwrap_or(99)
}

// The calls of the benchmark: the text where 0 strings are asked for.
fn searched(t: &[u8]) -> usize {
    match nth(t, 0) {
        0 => searches_text_len(second(t)),
        count => searches_strings_end(second(t), count),
    }
}

fn searched_by_unit(t: &[u8]) -> usize {
    match nth(t, 0) {
        0 => searches_text_len_by_unit(second(t)),
        count => searches_strings_end_by_unit(second(t), count),
    }
}

fn plain_values(rt: &impl Print) -> io::Result<()> {
    each(
        rt,
        |t| numbers::unit(nth(t, 0), nth(t, 1)),
        b"units|1,0|0,1|255,255\n",
    )?;
    each(
        rt,
        |t| numbers::u16_at(b"\x01\x02\x03\x04\x05", nth(t, 0)),
        b"two bytes at 0, 3, 4, 5 and the last number|0|3|4|5|18446744073709551615\n",
    )?;
    each(
        rt,
        |t| numbers::u32_at(b"\x01\x02\x03\x04\x05", nth(t, 0)),
        b"four bytes at 0, 1, 2, 5 and the last number|0|1|2|5|18446744073709551615\n",
    )?;
    each(
        rt,
        |t| content::is_event_type(nth(t, 0)),
        b"\
types 0, 1, 2, 4, 8, 16|0|1|2|4|8|16
types 3, 5, 17, 32, 0x8000, 0xffff|3|5|17|32|32768|65535
",
    )?;
    each(
        rt,
        |t| content::is_reserved_flags(nth(t, 0), nth(t, 1)),
        b"\
flags 0, 0x8000, 1, 0x4000, 0xc000, 0x8001, with a string|0,1|32768,1|1,1|16384,1|49152,1|32769,1
flags 0, 0x8000, 0x4000, without a string; 0x8000 with 300|0,0|32768,0|16384,0|32768,300
",
    )
}

fn sids(rt: &impl Print) -> io::Result<()> {
    each(
        rt,
        content::is_sid,
        b"\
SIDs of 8 and 12 bytes, of none, 1 and 7|\x01\0\0\0\0\0\0\0|\x01\x01\0\0\0\0\0\0\0\0\0\0||\x01|\x01\0\0\0\0\0\0
SIDs with revision 2 and 0, a count too low, a count too high|\x02\0\0\0\0\0\0\0|\0\0\0\0\0\0\0\0\
|\x01\0\0\0\0\0\0\0\0\0\0\0|\x01\x01\0\0\0\0\0\0
SIDs of 68 and 72 bytes|\x01\x0f\0\0\0\0\0\0\0\0\0\0\0\0\0\0\0\0\0\0\0\0\0\0\0\0\0\0\0\0\0\0\0\0\0\0\0\0\0\0\0\0\0\0\
\0\0\0\0\0\0\0\0\0\0\0\0\0\0\0\0\0\0\0\0\0\0\0\0|\x01\x10\0\0\0\0\0\0\0\0\0\0\0\0\0\0\0\0\0\0\0\0\0\0\0\0\0\0\0\0\0\0\
\0\0\0\0\0\0\0\0\0\0\0\0\0\0\0\0\0\0\0\0\0\0\0\0\0\0\0\0\0\0\0\0\0\0\0\0\0\0\0\0
",
    )?;
    each(
        rt,
        |t| content::padding(nth(t, 0)),
        b"padding of 0, 1, 2, 3, 4, 5, 6, 8, and the last number|0|1|2|3|4|5|6|8|18446744073709551615\n",
    )
}

fn texts(rt: &impl Print) -> io::Result<()> {
    each(
        rt,
        |t| text_len(Edition::Unicode, t),
        b"\
texts of no bytes, one byte, a zero unit, two units, two units and a byte||A|\0\0|A\0B\0|A\0B\0C
texts with a zero unit after one, two and three units|A\0\0\0B\0C\0|A\0B\0\0\0C\0|\0A\0B\0C\0\0
texts with a zero unit last and first of four units, and after four|A\0B\0C\0\0\0|\0\0A\0B\0C\0|A\0B\0C\0D\0\0\0E\0F\0G\0
",
    )?;
    each(
        rt,
        long_text,
        b"texts of 128 units with a zero unit at bytes 80 and 200|80|200\n",
    )
}

fn strings(rt: &impl Print) -> io::Result<()> {
    each(
        rt,
        end_of,
        b"\
ends of 0 to 4 strings|0,A\0\0\0\0\0BB\0\0|1,A\0\0\0\0\0BB\0\0|2,A\0\0\0\0\0BB\0\0|3,A\0\0\0\0\0BB\0\0|4,A\0\0\0\0\0BB\0\0
a string whose zero unit is cut, or lies at an odd place|1,A\0\0|2,AA\0\0A\0\0|1,
a string of eight units, and two short ones|1,A\0B\0C\0D\0E\0F\0G\0H\0\0\0I\0J\0K\0L\0\0\0|2,A\0\0\0B\0\0\0
",
    )?;
    each(
        rt,
        searched,
        b"the search as a call: a text, two strings, three|0,A\0\0\0B\0\0\0|2,A\0\0\0B\0\0\0|3,A\0\0\0B\0\0\0\n",
    )?;
    each(
        rt,
        searched_by_unit,
        b"unit by unit: a text, a zero unit, one unit, two strings, an empty one\
|0,A\0\0\0B\0\0\0|0,\0\0|0,A\0|2,A\0\0\0B\0\0\0|1,\0\0\n",
    )
}

// Bytes of U put over a buffer from a place on.
fn put_u(rt: &impl Print, q: Question<'_>) -> io::Result<()> {
    put_into(rt, q, &mut [0xff; 72], part(&u(), q.number(2), q.number(3)))
}

// 300 bytes put over a longer buffer.
fn put_long(rt: &impl Print, q: Question<'_>) -> io::Result<()> {
    put_into(rt, q, &mut [0xff; 400], &[7; 300])
}

fn put_into(rt: &impl Print, q: Question<'_>, out: &mut [u8], t: &[u8]) -> io::Result<()> {
    line(rt, q.what(), put(out, q.number(1), t))?;
    line(rt, b"  the buffer", Hex(out))
}

fn puts(rt: &impl Print) -> io::Result<()> {
    ask(
        rt,
        put_u,
        b"\
3 bytes at 2|2|72|75
31 bytes at 1|1|72|103
32 bytes at 1|1|72|104
43 bytes at 1|1|72|115
72 bytes at 0|0|40|112
72 bytes at 1|1|40|112
no bytes at 72|72|0|0
no bytes at 73|73|0|0
3 bytes at the last number|18446744073709551615|72|75
",
    )?;
    ask(
        rt,
        put_long,
        b"\
300 bytes at 0|0
300 bytes at 31|31
300 bytes at 100|100
300 bytes at 101|101
",
    )
}

pub fn values(rt: &impl Print) -> io::Result<()> {
    topic(rt, b"numbers, types, flags, SIDs, texts and strings")?;
    plain_values(rt)?;
    sids(rt)?;
    texts(rt)?;
    strings(rt)?;
    topic(rt, b"bytes put into a buffer")?;
    puts(rt)
}
