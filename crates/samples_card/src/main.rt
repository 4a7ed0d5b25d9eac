// The memory card (section 13) asked for small logs and images, by the calls for C where there are any. The largest
// log and image are asked from C and Rust (tests/card.c and host/compare): they are larger than a program's stack.

#![tactic(auto)]

ghost use Rattle.std.specs.Prelude.{◌^◌, ◌<◌};

use block::{blocks_in, last_mark};
use checksum::check;
use eventlog_card::{
    eventlog_card_blocks, eventlog_card_judge, eventlog_card_read, eventlog_card_write,
};
use std::io;
use stores::put;

// How many blocks logs of two lengths take.
fn counted(rt: &impl Print, what: &str, a: usize, b: usize) -> io::Result<()> {
    println!(rt;
        "blocks {what}: {} {}",
        eventlog_card_blocks(a),
        eventlog_card_blocks(b)
    )
}

fn counts(rt: &impl Print) -> io::Result<()> {
    counted(rt, "of 0 and 1 bytes", 0, 1)?;
    counted(rt, "of 499 and 500", 499, 500)?;
    counted(rt, "of 501 and 1000", 501, 1000)?;
    counted(rt, "of 16777500 and 16777501", 16777500, 16777501)?;
    counted(rt, "past every limit", usize::MAX - 1, usize::MAX)
}

fn marks(rt: &impl Print) -> io::Result<()> {
    println!(rt;
        "mark of blocks 1 and 2 of 3: {} {}",
        last_mark(3, 1),
        last_mark(3, 2)
    )?;
    println!(rt;
        "mark of block 3 of 3, and of none: {} {}",
        last_mark(3, 3),
        last_mark(0, 0)
    )
}

fn checks(rt: &impl Print) -> io::Result<()> {
    let a = [255; 512];
    println!(rt;
        "check of 508 bytes of 255, and of 507: {} {}",
        check(&a[..508]),
        check(&a[..507])
    )?;
    let b = [3; 512];
    println!(rt;
        "check of 512 bytes of 3, and of none: {} {}",
        check(&b),
        check(b"")
    )
}

// How many blocks the first n zeros are as an image, 0 where they are none.
fn blocks(zeros: &[u8; 1024], n: usize) -> usize {
    blocks_in(zeros.get(..n).unwrap_or(b"")).unwrap_or(0)
}

fn lengths(rt: &impl Print) -> io::Result<()> {
    let b = [0; 1024];
    println!(rt;
        "blocks in 512 and 1024 bytes: {} {}",
        blocks(&b, 512),
        blocks(&b, 1024)
    )?;
    println!(rt;
        "blocks in 513 and 0 bytes: {} {}",
        blocks(&b, 513),
        blocks(&b, 0)
    )
}

// The number of an image's refusal, 0 for none.
fn refusal(image: &[u8]) -> u32 {
    match card_read::refusal(image) {
        Ok(()) => 0,
        Err(refusal) => u32::from(refusal),
    }
}

// The image of a log, in an output of some length: the answer, and the check and the refusal of the output.
fn written(rt: &impl Print, what: &str, log: &[u8], out: &mut [u8]) -> io::Result<()> {
    let w = eventlog_card_write(log, out);
    println!(rt; "{what}: {} {}", w.refusal, w.length)?;
    println!(rt;
        "  its first check and refusal: {} {}",
        check(out),
        refusal(out)
    )
}

// The same, and the log that it is read as: the answer, the check of the output, and the second block's refusal.
fn carried(
    rt: &impl Print,
    what: &str,
    log: &[u8],
    image: &mut [u8],
    back: &mut [u8],
) -> io::Result<()> {
    written(rt, what, log, image)?;
    let r = eventlog_card_read(image, back);
    println!(rt; "  read back: {} {}", r.refusal, r.length)?;
    println!(rt;
        "  its check, and the second block: {} {}",
        check(back),
        eventlog_card_judge(image, 1)
    )
}

// A log that takes N bytes of an image.
fn log<const N: usize>(rt: &impl Print, what: &str, log: &[u8]) -> io::Result<()>
    requires { N < 2 ^ 63 }
{
    carried(rt, what, log, &mut [7; N], &mut [8; N])
}

fn logs(rt: &impl Print, bytes: &[u8; 1024]) -> io::Result<()> {
    log::<512>(rt, "empty log", &bytes[..0])?;
    log::<512>(rt, "1 byte", &bytes[..1])?;
    log::<512>(rt, "499 bytes", &bytes[..499])?;
    log::<512>(rt, "500 bytes", &bytes[..500])?;
    log::<1024>(rt, "501 bytes", &bytes[..501])?;
    log::<1024>(rt, "1000 bytes", &bytes[..1000])
}

fn short_outputs(rt: &impl Print, bytes: &[u8; 1024]) -> io::Result<()> {
    let mut image = [7; 512];
    written(rt, "500 bytes to 511", &bytes[..500], &mut image[..511])?;
    let mut back = [8; 512];
    carried(
        rt,
        "500 bytes, read to 499",
        &bytes[..500],
        &mut image,
        &mut back[..499],
    )?;
    let mut image = [7; 1024];
    let mut back = [8; 1024];
    carried(
        rt,
        "1000 bytes, read to 999",
        &bytes[..1000],
        &mut image,
        &mut back[..999],
    )
}

// A block with a right check: its number, used count and mark, and one byte of it set to a value.
fn sealed(number: u8, used: u16, mark: u8, at: usize, value: u8) -> [u8; 512] {
    let mut b = [0; 512];
    put(&mut b, 0, &[number]);
    put(&mut b, 4, &used.to_le_bytes());
    put(&mut b, 506, &[mark]);
    put(&mut b, at, &[value]);
    with_check(b)
}

fn with_check(block: [u8; 512]) -> [u8; 512] {
    let mut b = block;
    let c = check(&b);
    put(&mut b, 508, &c.to_le_bytes());
    b
}

// An image of two blocks: the refusal of each.
fn judged(rt: &impl Print, what: &str, first: &[u8; 512], second: &[u8; 512]) -> io::Result<()> {
    let mut image = [0; 1024];
    put(&mut image, 0, first);
    put(&mut image, 512, second);
    println!(rt;
        "{what}: {} {}",
        eventlog_card_judge(&image, 0),
        eventlog_card_judge(&image, 1)
    )?;
    refused(rt, &image)
}

fn refused(rt: &impl Print, image: &[u8]) -> io::Result<()> {
    println!(rt;
        "  the image, and a third block: {} {}",
        refusal(image),
        eventlog_card_judge(image, 2)
    )
}

fn numbers(rt: &impl Print, first: &[u8; 512], second: &[u8; 512]) -> io::Result<()> {
    judged(rt, "two blocks", first, second)?;
    judged(rt, "two blocks exchanged", second, first)?;
    judged(rt, "the first twice", first, first)?;
    judged(
        rt,
        "number 1 in the first",
        &sealed(1, 500, 1, 512, 0),
        second,
    )
}

fn fields(rt: &impl Print, first: &[u8; 512], second: &[u8; 512]) -> io::Result<()> {
    judged(
        rt,
        "499 used in the first",
        &sealed(0, 499, 0, 6, 1),
        second,
    )?;
    judged(rt, "none used in the last", first, &sealed(1, 0, 1, 6, 0))?;
    judged(rt, "501 used in the last", first, &sealed(1, 501, 1, 6, 1))?;
    judged(rt, "a rest that is not zero", first, &sealed(1, 3, 1, 9, 1))?;
    judged(rt, "the rest's last byte", first, &sealed(1, 3, 1, 505, 1))?;
    judged(rt, "mark 2 in the first", &sealed(0, 500, 2, 6, 1), second)?;
    judged(rt, "no mark in the last", first, &sealed(1, 3, 0, 6, 1))
}

// A byte changed, its check left: the block's refusal, and that of one whose number is wrong too.
fn changed(rt: &impl Print, at: usize, value: u8) -> io::Result<()> {
    let mut b = sealed(0, 3, 1, 6, 1);
    put(&mut b, at, &[value]);
    refused(rt, &b)?;
    let mut c = sealed(5, 3, 1, 6, 1);
    put(&mut c, at, &[value]);
    println!(rt;
        "a changed byte, and in a wrong number: {} {}",
        eventlog_card_judge(&b, 0),
        eventlog_card_judge(&c, 0)
    )
}

fn main(rt: HostRuntime) -> io::Result<()> {
    counts(&rt)?;
    marks(&rt)?;
    checks(&rt)?;
    lengths(&rt)?;
    let bytes = [255; 1024];
    logs(&rt, &bytes)?;
    short_outputs(&rt, &bytes)?;
    let first = sealed(0, 500, 0, 6, 1);
    let second = sealed(1, 3, 1, 6, 1);
    numbers(&rt, &first, &second)?;
    fields(&rt, &first, &second)?;
    for (at, value) in [(0, 5), (300, 5), (508, 9), (510, 5)] {
        changed(&rt, at, value)?;
    }
    Ok(())
}
