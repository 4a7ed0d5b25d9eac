// Decimal numbers as text in a lent buffer. Any number, any place and any buffer may be given. Digits are put by hand and not by
// `Display`, here and in the crates above: promised is that as many bytes are put as fit into the buffer, and there is no heap.

#![tactic(auto)]

ghost use Rattle.std.specs.Prelude.{◌≡◌, ◌≤◌, length};
ghost use Rattle.stores.specs.Putting.{placed};
ghost use Rattle.decimal.specs.Decimal.{decimal, field, putting_each};

use stores::put;

// How many digits a number has.
pub fn count_digits(n: u64) -> usize
    ensures { (result ≡ length (decimal n)) × (result ≤ 20) }
{
    match n.checked_ilog(10) {
        Some(k) => k as usize + 1,
        None => 1,
    }
}

// The digits of a number from a place on, as many as fit. It answers the place after them.
fn put_decimal(out: &mut [u8], at: usize, n: u64) -> usize
    ensures { placed result out.new ≡ putting_each out.old at (decimal n) }
{
    let digit = [(48 + n % 10) as u8];
    if n < 10 {
        return put(out, at, &digit);
    }
    let p = put_decimal(out, at, n / 10);
    put(out, p, &digit)
}

// A number and the byte after it, as many bytes as fit.
pub fn put_field(out: &mut [u8], at: usize, n: u64, after: u8) -> usize
    ensures { placed result out.new ≡ putting_each out.old at (field n after) }
{
    let p = put_decimal(out, at, n);
    put(out, p, &[after])
}
