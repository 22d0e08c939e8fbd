ghost use Rattle.std.specs.Prelude.{◌≡◌, ◌≢◌, [], Ok, IsErr, IfErr, IfOk};
ghost use Rattle.std.specs.IoError.{error_kind};
ghost use Rattle.std.specs.Vec.Iter.{into_iter_items};
ghost use Rattle.pgs_world_streams.specs.ProgramWords.{words_behind};

use pgs_base::{Memory, Words};
use std::alloc::Global;
use std::env::Args;
use std::io::{self, ErrorKind};

// The words after the program's name.
#[tactic(auto, using(crate::proofs::ProgramWords::behind_name))]
fn words_in(alloc: Global, arguments: Args) -> Result<Words, Memory>
    ensures { IfOk result (λ words. words ≡ words_behind (into_iter_items arguments)) }
{
    let mut words = Words::new(alloc);
    let mut arguments = arguments;
    let Some(_) = arguments.next() else {
        return Ok(words);
    };
    for argument in arguments {
        words.push(argument.as_str())?;
    }
    Ok(words)
}

/// The words that a program was started with, behind its name. Arguments that aren't all UTF-8 give no words, which no program
/// takes for a command. `Memory` where there was none to keep or to read them.
pub fn program_words(alloc: Global, arguments: io::Result<Args>) -> Result<Words, Memory>
    ensures words { IfOk arguments (λ all. IfOk result (λ words. words ≡ words_behind (into_iter_items all))) }
    ensures no_words { IfErr arguments (λ error. error_kind error ≢ ErrorKind.OutOfMemory → result ≡ Ok []) }
    ensures memory { IfErr arguments (λ error. error_kind error ≡ ErrorKind.OutOfMemory → IsErr result) }
{
    match arguments {
        Ok(arguments) => words_in(alloc, arguments),
        Err(error) => {
            if error.kind() == ErrorKind::OutOfMemory {
                return Err(Memory);
            }
            Ok(Words::new(alloc))
        }
    }
}
