// The calls that serve a log, for C: the read call, its handle, and the set of types in it (section 8). Each export is
// the library's function of this name.

#![tactic(auto)]

ghost use Rattle.std.specs.Prelude.{◌≡◌};
ghost use Rattle.edition.specs.Editions.{unit_of};
ghost use Rattle.event_types.specs.Types.{type_count};
ghost use Rattle.serve.specs.Serving.{serving};
ghost use Rattle.eventlog_serving.specs.Handles.{handle_of, fresh_read, read_outcome, answered};

use eventlog_serving::{ReadAnswer, ReadHandle};

#[unsafe(no_mangle)]
pub extern "C" fn eventlog_fresh(types: u32) -> ReadHandle
    ensures { result ≡ fresh_read types }
{
    eventlog_serving::eventlog_fresh(types)
}

#[unsafe(no_mangle)]
pub extern "C" fn eventlog_types_count(types: u32) -> u32
    ensures { result ≡ type_count types }
{
    eventlog_serving::eventlog_types_count(types)
}

#[unsafe(no_mangle)]
pub extern "C" fn eventlog_read(
    edition: u32,
    h: ReadHandle,
    log: &[u8],
    flags: u32,
    number: u32,
    size: usize,
    out: &mut [u8],
) -> ReadAnswer
    ensures { read_outcome result out.new ≡ answered h (serving (unit_of edition) log.now (handle_of h) flags number size out.old) }
{
    eventlog_serving::eventlog_read(edition, h, log, flags, number, size, out)
}
