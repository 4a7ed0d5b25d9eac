// The edition as C names it: a number.

#![tactic(auto)]

ghost use Rattle.std.specs.Prelude.{◌≡◌};
ghost use Rattle.edition.specs.Editions.{edition_of};

use format::Edition;

// Rule 3.2: 0 is Unicode, every other number ANSI. A function and no `From<u32>`: the enum is another crate's, and so is the
// trait, and only calls from C have such numbers.
pub fn edition_of(n: u32) -> Edition
    ensures { result ≡ edition_of n }
{
    if n == 0 {
        return Edition::Unicode;
    }
    Edition::Ansi
}
