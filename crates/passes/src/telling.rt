// What has failed, told on standard error.
ghost use Rattle.std.specs.Prelude.{◌≡◌};
ghost use Rattle.passes.specs.Turns.{sentence_of};

use crate::Failure;
use std::io::Stderr;

impl Failure {
    // No `Display`: no contract says what printing one writes, and `write_sentence` asks for the bytes.
    #[tactic(auto, unfolding(crate::specs::Turns::sentence_of, text::specs::Ascii::bytes))]
    fn sentence(self) -> &'static [u8]
        ensures { result.now ≡ sentence_of self }
    {
        match self {
            Failure::Unreadable => b": standard input cannot be read\n",
            Failure::Unwritable => b": standard output cannot be written\n",
            Failure::Endless => b": the input has too many pieces\n",
        }
    }
}

// Writes a program's name and the sentence of a failure, and no other.
fn write_sentence(name: &[u8], failure: Failure, sentence: &[u8], stderr: Stderr)
    requires { sentence.now ≡ sentence_of failure }
{
    let _ = stderr.write_all(name);
    let _ = stderr.write_all(sentence);
}

// Tells what has failed in the program of this name. Where nothing has, nothing is told.
pub fn tell(name: &[u8], end: Result<(), Failure>, stderr: Stderr) {
    if let Err(failure) = end {
        write_sentence(name, failure, failure.sentence(), stderr);
    }
}
