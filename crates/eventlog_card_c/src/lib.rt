// The calls for a memory card (section 13), for C. Each export is the library's function of this name.

#![tactic(auto)]

ghost use Rattle.std.specs.Prelude.{◌≡◌};
ghost use Rattle.format.specs.Writing.{outcome};
ghost use Rattle.card.specs.Image.{block_count};
ghost use Rattle.card.specs.Judging.{block_refusal};
ghost use Rattle.card.specs.Calls.{writing_card, reading_card};

use format::Written;

#[unsafe(no_mangle)]
pub extern "C" fn eventlog_card_blocks(bytes: usize) -> usize
    ensures { result ≡ block_count bytes }
{
    eventlog_card::eventlog_card_blocks(bytes)
}

#[unsafe(no_mangle)]
pub extern "C" fn eventlog_card_write(log: &[u8], out: &mut [u8]) -> Written
    ensures { outcome result out.new ≡ writing_card log.now out.old }
{
    eventlog_card::eventlog_card_write(log, out)
}

#[unsafe(no_mangle)]
pub extern "C" fn eventlog_card_read(image: &[u8], out: &mut [u8]) -> Written
    ensures { outcome result out.new ≡ reading_card image.now out.old }
{
    eventlog_card::eventlog_card_read(image, out)
}

#[unsafe(no_mangle)]
pub extern "C" fn eventlog_card_judge(image: &[u8], place: usize) -> u32
    ensures { result ≡ block_refusal image.now place }
{
    eventlog_card::eventlog_card_judge(image, place)
}
