// Calls that a signal may interrupt.
use std::io;
use std::io::ErrorKind;

/// Makes a call, and makes it again for as long as it is answered that it was interrupted.
pub(crate) fn uninterrupted<T, F: FnMut() -> io::Result<T> + Drop>(mut call: F) -> io::Result<T>
    requires { F.IsAlwaysCallable call }
{
    for _ in 0..u64::MAX {
        match call() {
            Err(error) if error.kind() == ErrorKind::Interrupted => {}
            answer => return answer,
        }
    }
    Err(io::Error::from(ErrorKind::Interrupted))
}
