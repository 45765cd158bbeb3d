// What a program makes of the operating system's answers.
ghost use Rattle.std.specs.Prelude.{◌≡◌, IsOk, is_ok};
ghost use Rattle.passes.specs.Turns.{answer, after_read, after_write, AtEnd};

use crate::Failure;
use std::io;

// How many bytes a read brought: none where the input has ended.
pub fn after_read(got: io::Result<usize>) -> Result<Option<usize>, Failure>
    ensures { result ≡ after_read (answer got) }
{
    match got {
        Ok(0) => Ok(None),
        Ok(count) => Ok(Some(count)),
        Err(_) => Err(Failure::Unreadable),
    }
}

// By whether all was written.
pub fn after_write(took: io::Result<()>) -> Result<(), Failure>
    ensures { result ≡ after_write (is_ok took) }
{
    took.map_err(|_| Failure::Unwritable)
}

// Where the input has ended, what the end prints is written; where reading has failed, nothing is.
pub fn at_end<F: FnOnce() -> io::Result<()>>(
    read: Result<(), Failure>,
    write: F,
) -> Result<(), Failure>
    requires { IsOk read → F.pre write }
    ensures { AtEnd (F.post write) read result }
{
    read?;
    after_write(write())
}
