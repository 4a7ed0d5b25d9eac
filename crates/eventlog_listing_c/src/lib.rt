// The listing of a batch (section 10), for C. The export is the library's function of this name.

#![tactic(auto)]

ghost use Rattle.std.specs.Prelude.{◌≡◌};
ghost use Rattle.format.specs.Writing.{outcome};
ghost use Rattle.edition.specs.Editions.{unit_of};
ghost use Rattle.listing.specs.Listing.{listing};

use format::Written;

#[unsafe(no_mangle)]
pub extern "C" fn eventlog_listing(edition: u32, s: &[u8], out: &mut [u8]) -> Written
    ensures { outcome result out.new ≡ listing (unit_of edition) s.now out.old }
{
    eventlog_listing::eventlog_listing(edition, s, out)
}
