// The searches for the zero unit, for the benchmark. Each export is the library's function of this name.

#![tactic(auto)]

ghost use Rattle.std.specs.Prelude.{◌≡◌, ◌/◌, ◌*◌, length};
ghost use Rattle.format.specs.Text.{scan, run};
ghost use Rattle.runs.specs.Answers.{end_of};
ghost use Rattle.std.specs.Option.{unwrap_or};

#[unsafe(no_mangle)]
pub extern "C" fn searches_text_len(t: &[u8]) -> usize
    ensures { result ≡ scan 2 (length t.now / 2) t.now * 2 }
{
    searches::searches_text_len(t)
}

#[unsafe(no_mangle)]
pub extern "C" fn searches_strings_end(t: &[u8], count: u32) -> usize
    ensures { result ≡ unwrap_or (end_of 2 (run 2 count (length t.now / 2) t.now) (length t.now / 2)) 0 }
{
    searches::searches_strings_end(t, count)
}

#[unsafe(no_mangle)]
pub extern "C" fn searches_text_len_by_unit(t: &[u8]) -> usize
    ensures { result ≡ scan 2 (length t.now / 2) t.now * 2 }
{
    searches::searches_text_len_by_unit(t)
}

#[unsafe(no_mangle)]
pub extern "C" fn searches_strings_end_by_unit(t: &[u8], count: u32) -> usize
    ensures { result ≡ unwrap_or (end_of 2 (run 2 count (length t.now / 2) t.now) (length t.now / 2)) 0 }
{
    searches::searches_strings_end_by_unit(t, count)
}
