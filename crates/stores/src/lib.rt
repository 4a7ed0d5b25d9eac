// Bytes put into a lent buffer. Buffer, place and bytes go one by one from function to function: a struct of them would hold the
// buffer, lent anew, and be built for each call.

#![tactic(auto)]

ghost use Rattle.std.specs.Prelude.{◌≡◌, ◌+◌, ◌≤◌, ◌<◌, length};
ghost use Rattle.format.specs.Stores.{Stored};
ghost use Rattle.stores.specs.Putting.{placed, putting};
ghost use Rattle.stores.specs.Laws.{StoredPart};

// The bytes of t from a place on. It answers the place after them. (Tried with `copy_from_slice`: the compiler then calls
// `memmove` from 32 bytes on, which takes a sixth longer at 32 to 48 bytes.)
fn copy(out: &mut [u8], at: usize, t: &[u8]) -> usize
    requires { at + length t.now ≤ length out.old }
    ensures { Stored out.old at t.now result out.new }
{
    for (j, x) in t.iter().enumerate() {
        out[at + j] = *x;
    }
    at + t.len()
}

// How many bytes the compiler's copying loop moves at once.
const BLOCK: usize = 32;

// From so many bytes on the C library copies faster.
const LONG: usize = 512;

// How many bytes it is asked to copy at once, at most.
const PAGE: usize = 65536;

// The same by way of b. All bytes are read before the first is written, so that the compiler moves them at
// once: it need not ask whether the output lies over t.
fn copy_through(out: &mut [u8], at: usize, t: &[u8], b: &mut [u8]) -> usize
    requires { (at + length t.now ≤ length out.old) × (length t.now ≡ length b.old) }
    ensures { Stored out.old at t.now result out.new }
{
    copy(b, 0, t);
    copy(out, at, b)
}

// The n bytes of t from a place on, to where they belong.
fn copy_block(out: &mut [u8], at: usize, t: &[u8], from: usize, n: usize) -> usize
    requires { (n ≤ 32) × (from + n ≤ length t.now) × (at + length t.now ≤ length out.old) }
    ensures { StoredPart out.old at t.now from n result out.new }
{
    let mut b = [0u8; BLOCK];
    let to = from + n;
    copy_through(out, at + from, &t[from..to], &mut b[..n])
}

// All of t, as a block of n bytes at its start and one at its end, which may lie over the first.
fn copy_ends(out: &mut [u8], at: usize, t: &[u8], n: usize) -> usize
    requires { (n ≤ 32) × (n ≤ length t.now) × (length t.now ≤ n + n) × (at + length t.now ≤ length out.old) }
    ensures { Stored out.old at t.now result out.new }
{
    copy_block(out, at, t, 0, n);
    copy_block(out, at, t, t.len() - n, n)
}

// Fewer bytes than a block.
fn copy_short(out: &mut [u8], at: usize, t: &[u8]) -> usize
    requires { (length t.now < 32) × (at + length t.now ≤ length out.old) }
    ensures { Stored out.old at t.now result out.new }
{
    if 16 <= t.len() {
        return copy_ends(out, at, t, 16);
    }
    if 8 <= t.len() {
        return copy_ends(out, at, t, 8);
    }
    if 4 <= t.len() {
        return copy_ends(out, at, t, 4);
    }
    copy(out, at, t)
}

// A block or more, as whole blocks and then the last block again, up to the end: no rest goes byte by byte.
fn copy_whole(out: &mut [u8], at: usize, t: &[u8]) -> usize
    requires { (32 ≤ length t.now) × (at + length t.now ≤ length out.old) }
    ensures { Stored out.old at t.now result out.new }
{
    let n = t.len();
    let whole = n - n % BLOCK;
    copy(out, at, &t[..whole]);
    copy_block(out, at, t, n - BLOCK, BLOCK)
}

// The same of a page at most. The compiler makes one call of the C library's `memmove` of it, and no buffer.
fn copy_page(out: &mut [u8], at: usize, t: &[u8]) -> usize
    requires { (length t.now ≤ 65536) × (at + length t.now ≤ length out.old) }
    ensures { Stored out.old at t.now result out.new }
{
    let mut b = [0u8; PAGE];
    let n = t.len();
    copy_through(out, at, t, &mut b[..n])
}

// Many bytes, as whole pages and the rest.
fn copy_long(out: &mut [u8], at: usize, t: &[u8]) -> usize
    requires { at + length t.now ≤ length out.old }
    ensures { Stored out.old at t.now result out.new }
{
    let mut i = 0;
    while PAGE < t.len() - i {
        let to = i + PAGE;
        copy_page(out, at + i, &t[i..to]);
        i += PAGE;
    }
    copy_page(out, at + i, &t[i..])
}

// All of t.
fn copy_blocks(out: &mut [u8], at: usize, t: &[u8]) -> usize
    requires { at + length t.now ≤ length out.old }
    ensures { Stored out.old at t.now result out.new }
{
    if t.len() < BLOCK {
        return copy_short(out, at, t);
    }
    if t.len() < LONG {
        return copy_whole(out, at, t);
    }
    copy_long(out, at, t)
}

// Puts the bytes of t over the output from a place on, and answers the place after them. Where they do
// not fit, it leaves the output as it was and answers the place given.
pub fn put(out: &mut [u8], at: usize, t: &[u8]) -> usize
    ensures { placed result out.new ≡ putting out.old at t.now }
{
    if out.len() < at {
        return at;
    }
    if out.len() - at < t.len() {
        return at;
    }
    copy_blocks(out, at, t)
}
