// Which doors the words ask for.
ghost use Rattle.std.specs.Prelude.{◌≡◌, IfOk};
ghost use Rattle.ty_words.specs.Words.{command_of};
ghost use Rattle.ty_top.specs.Needs.{needs_of};

use crate::wanted::Needs;
use std::alloc::Global;
use ty_base::{NoMemory, Text};
use ty_words::{Command, FollowWords, ServeWords, read_words};

/// Which doors `top` wants for these words, so that a program can make them.
pub fn needs(alloc: Global, words: &[Text]) -> Result<Needs, NoMemory>
    ensures { IfOk result (λ n. n ≡ needs_of (command_of words.now)) }
{
    match read_words(alloc, words)? {
        Some(Command::Serve(ServeWords { at, workers })) => Ok(Needs::Listen { at, workers }),
        Some(Command::FollowAt(FollowWords { at, .. })) => Ok(Needs::Dial { at }),
        _ => Ok(Needs::Nothing),
    }
}
