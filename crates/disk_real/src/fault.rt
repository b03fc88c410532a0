// How often calls of the operating system have failed.
ghost use Rattle.std.specs.Prelude.{◌≡◌, is_ok, IfOk, IsOk, ◌↔◌};
ghost use Rattle.disk_face.specs.Faults.{Counts, one_more};

use disk_face::Failed;
use std::io;

/// Passes an answer on, and counts a fault where it is an error.
pub(crate) fn counted<T>(faults: &mut u64, answer: io::Result<T>) -> Result<T, Failed>
    ensures variant { is_ok result ≡ is_ok answer }
    ensures value { IfOk result (λ value. answer ≡ Ok value) }
    ensures counts { Counts (is_ok result) faults.old faults.new }
{
    match answer {
        Ok(value) => Ok(value),
        Err(_) => {
            *faults = faults.saturating_add(1);
            Err(Failed)
        }
    }
}
