// A step's answer as it crosses to C: a struct in the place of an enum (Rule 4.22).

#![tactic(auto)]

ghost use Rattle.std.specs.Prelude.{◌≡◌};
ghost use Rattle.stepped.specs.Steps.{stepped};

use format::{NO_REFUSAL, Record, Refusal, Refused};

// What a step answers: the refusal, number and field 0 for none, and the place that was asked for; and the
// record, all 0 where it is refused.
#[repr(C)]
#[derive(Clone, Copy)]
pub struct Stepped {
    pub refusal: Refusal,
    pub at: usize,
    pub found: Record,
}

// It takes the place beside the answer, which has it only where it refuses: so this is a function and no From.
pub fn stepped_of(x: Result<Record, Refused>, at: usize) -> Stepped
    ensures { result ≡ stepped x at }
{
    match x {
        Ok(a) => Stepped {
            refusal: NO_REFUSAL,
            at: at,
            found: a,
        },
        Err(k) => Stepped {
            refusal: k.refusal,
            at: at,
            found: parts::nothing(),
        },
    }
}
