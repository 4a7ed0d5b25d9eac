// The calls for a memory card (section 13). Each answers what the call below it answers.

#![tactic(auto)]

ghost use Rattle.std.specs.Prelude.{◌≡◌};
ghost use Rattle.format.specs.Writing.{outcome};
ghost use Rattle.card.specs.Image.{block_count};
ghost use Rattle.card.specs.Judging.{block_refusal};
ghost use Rattle.card.specs.Calls.{writing_card, reading_card};

use format::Written;

// How many blocks a log of so many bytes takes.
pub fn eventlog_card_blocks(bytes: usize) -> usize
    ensures { result ≡ block_count bytes }
{
    card_write::block_count(bytes)
}

// Writes the image of a log over the start of the output.
pub fn eventlog_card_write(log: &[u8], out: &mut [u8]) -> Written
    ensures { outcome result out.new ≡ writing_card log.now out.old }
{
    card_write::write(log, out)
}

// Reads the log of an image over the start of the output.
pub fn eventlog_card_read(image: &[u8], out: &mut [u8]) -> Written
    ensures { outcome result out.new ≡ reading_card image.now out.old }
{
    card_read::read(image, out)
}

// The refusal of the block at a place of an image, counted from 0, for this place; 0 for none.
pub fn eventlog_card_judge(image: &[u8], place: usize) -> u32
    ensures { result ≡ block_refusal image.now place }
{
    match block::judge(image, place) {
        Ok(()) => 0,
        Err(refusal) => u32::from(refusal),
    }
}
