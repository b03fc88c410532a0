// The record of the calls that were made.
ghost use Rattle.std.specs.Prelude.{◌≡◌, ◌-◌, ◌<◌, ◌++◌, [], ◌∷◌, length, slice_set, OnOk, OnErr};

use crate::Made;
use std::alloc::AllocError;

/// Notes a call. Without memory it isn't noted.
pub(crate) fn note(made: &mut Vec<Made>, call: Made) -> Result<(), AllocError>
    ensures noted { OnOk result (made.new.items ≡ made.old.items ++ call ∷ []) }
    ensures refused { OnErr result (made.new.items ≡ made.old.items) }
{
    made.push(call)?;
    Ok(())
}

/// Notes the last call anew.
pub(crate) fn note_again(made: &mut [Made], call: Made)
    requires { 0 < length made.old }
    ensures { made.new ≡ slice_set made.old (length made.old - 1) call }
{
    let last = made.len() - 1;
    made[last] = call;
}
