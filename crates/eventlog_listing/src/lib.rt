// The listing of a batch (section 10), for programs in C and Rust: what the call below it answers.

#![tactic(auto)]

ghost use Rattle.std.specs.Prelude.{◌≡◌};
ghost use Rattle.format.specs.Writing.{outcome};
ghost use Rattle.edition.specs.Editions.{unit_of};
ghost use Rattle.listing.specs.Listing.{listing};

use edition::edition_of;
use format::Written;

// Over the start of the output.
pub fn eventlog_listing(edition: u32, s: &[u8], out: &mut [u8]) -> Written
    ensures { outcome result out.new ≡ listing (unit_of edition) s.now out.old }
{
    listing::listing(edition_of(edition), s, out)
}
