// Units, texts and strings (Rules 3.2 to 3.8). In ANSI the search goes by words, by blocks of 32 bytes and byte by byte: a zero
// byte is asked for at each place around them. A run of strings is passed by blocks of 16, 64 and 128 bytes, and searched by
// words: ends are asked for before and after bytes 512 and 640.

use crate::show::{Answer, end, line, start, topic};
use crate::table::{Question, ask, each, nth, part, second};
use format::Edition;
use runs::strings_end;
use std::io;
use stores::put;
use text::{ansi_word_len, name_len, text_len, width};

// A text's length in ANSI and in Unicode, each by both calls.
fn lengths(rt: &impl Print, q: Question<'_>) -> io::Result<()> {
    let t = q.field(1);
    line(
        rt,
        q.what(),
        (
            (text_len(Edition::Ansi, t), name_len(Edition::Ansi, t)),
            (text_len(Edition::Unicode, t), name_len(Edition::Unicode, t)),
        ),
    )
}

fn short_texts(rt: &impl Print) -> io::Result<()> {
    line(
        rt,
        b"bytes of a unit in Unicode and in ANSI",
        (width(Edition::Unicode), width(Edition::Ansi)),
    )?;
    ask(
        rt,
        lengths,
        b"\
the text of no bytes|
of a zero byte|\0
of A|A
of A and a zero byte|A\0
of AB in Unicode|A\0B\0\0\0
of ABC, a zero byte, D|ABC\0D
of a zero byte before A|\0A\0
of eight bytes, the first 0x80, the third zero|\x80A\0AAAAA
of four units, the first 0x8000, the third zero|\0\x80A\0\0\0AA
",
    )
}

// The answers of a search to so many bytes with a zero byte at each place, and last to those with none.
fn zero_at_each_place<F: Fn(&[u8]) -> usize>(rt: &impl Print, search: F, n: usize) -> io::Result<()>
    requires { F.IsAlwaysCallable search }
{
    start(rt, b"  zero bytes at each place")?;
    for at in 0..=n {
        let mut s = [1; 40];
        put(&mut s, at, b"\0");
        search(part(&s, 0, n)).show(rt)?;
    }
    end(rt)
}

fn texts_of_each_length<F: Fn(&[u8]) -> usize>(rt: &impl Print, search: F) -> io::Result<()>
    requires { F.IsAlwaysCallable search }
{
    for n in 0..=40 {
        zero_at_each_place(rt, &search, n)?;
    }
    Ok(())
}

fn words(rt: &impl Print) -> io::Result<()> {
    start(rt, b"the first word of 0, 7, 8, 9 and 17 bytes")?;
    end(rt)?;
    for n in [0, 7, 8, 9, 17] {
        zero_at_each_place(rt, ansi_word_len, n)?;
    }
    Ok(())
}

// 300 bytes with a zero byte at a place, by both searches.
fn long_lengths(rt: &impl Print, q: Question<'_>) -> io::Result<()> {
    let mut s = [1; 300];
    put(&mut s, q.number(1), b"\0");
    line(
        rt,
        q.what(),
        (text_len(Edition::Ansi, &s), name_len(Edition::Ansi, &s)),
    )
}

fn long_texts(rt: &impl Print) -> io::Result<()> {
    texts_of_each_length(rt, |t| text_len(Edition::Ansi, t))?;
    texts_of_each_length(rt, |t| name_len(Edition::Ansi, t))?;
    ask(
        rt,
        long_lengths,
        b"\
300 bytes, zero at 30|30
at 55|55
at 56|56
at 63|63
at 88|88
at 159|159
at 160|160
at 161|161
at 287|287
at 288|288
at 299|299
nowhere|300
",
    )
}

// Where so many strings end; 99 where there are not so many.
fn end_in(s: &[u8], count: u32) -> usize {
    strings_end(Edition::Ansi, s, count).unwrap_or(99)
}

// A zero byte at a place of 40 bytes, and another one at each place; and a number of strings.
fn ends(rt: &impl Print, q: Question<'_>) -> io::Result<()> {
    let first = q.number(1);
    let count = q.number(2);
    start(rt, q.what())?;
    for at in 0..40 {
        let mut s = [1; 40];
        put(&mut s, first, b"\0");
        put(&mut s, at, b"\0");
        end_in(&s, count).show(rt)?;
    }
    end(rt)
}

// 700 bytes of these strings again and again, as often as there is room, and numbers of strings.
fn long_ends(rt: &impl Print, q: Question<'_>) -> io::Result<()> {
    let t = q.field(1);
    let mut s = [1; 700];
    for room in s.chunks_exact_mut(t.len().max(1)) {
        put(room, 0, t);
    }
    start(rt, q.what())?;
    for count in q.0.split(|x| *x == b'|').skip(2) {
        end_in(&s, nth(count, 0)).show(rt)?;
    }
    end(rt)
}

fn long_runs(rt: &impl Print) -> io::Result<()> {
    ask(
        rt,
        long_ends,
        b"\
strings of 1 in 700 bytes|A\0|256|257|320|321|350|351
strings of 8 in 700 bytes|ABCDEFGH\0|56|57|71|72|77|78
strings of 1 to 20 in 700 bytes|A\0AB\0ABC\0ABCD\0ABCDE\0ABCDEF\0ABCDEFG\0ABCDEFGH\0ABCDEFGHI\0ABCDEFGHIJ\0\
ABCDEFGHIJK\0ABCDEFGHIJKL\0ABCDEFGHIJKLM\0ABCDEFGHIJKLMN\0ABCDEFGHIJKLMNO\0\
ABCDEFGHIJKLMNOP\0ABCDEFGHIJKLMNOPQ\0ABCDEFGHIJKLMNOPQR\0ABCDEFGHIJKLMNOPQRS\0ABCDEFGHIJKLMNOPQRST\0|11|40|41|55|60|61
",
    )
}

fn strings(rt: &impl Print) -> io::Result<()> {
    // Each field is a number of strings, and bytes.
    each(
        rt,
        |t| end_in(second(t), nth(t, 0)),
        b"\
ends of 0 to 4 strings|0,A\0\0BB\0C|1,A\0\0BB\0C|2,A\0\0BB\0C|3,A\0\0BB\0C|4,A\0\0BB\0C
a string of no bytes, of one, and one that has no end|1,|1,\0|1,ABC
",
    )?;
    ask(
        rt,
        ends,
        b"\
one string, a zero byte at 39 and at each place|39|1
two strings, a zero byte at 0 and at each place|0|2
two strings, at 2|2|2
two strings, at 3|3|2
two strings, at 4|4|2
two strings, at 15|15|2
two strings, at 16|16|2
two strings, at 19|19|2
two strings, at 20|20|2
two strings, at 36|36|2
three strings, at 5|5|3
",
    )
}

pub fn texts(rt: &impl Print) -> io::Result<()> {
    topic(rt, b"texts and strings")?;
    short_texts(rt)?;
    long_texts(rt)?;
    words(rt)?;
    strings(rt)?;
    long_runs(rt)
}
