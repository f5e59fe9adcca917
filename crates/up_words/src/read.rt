ghost use Rattle.std.specs.Prelude.{◌≡◌};
ghost use Rattle.up_words.specs.Words.{is_positional, job_of, IsRead};

use crate::job::Job;
use std::alloc::Global;
use thiserror::Error;
use up_base::{Text, WordList};

/// Why the words of a command line are no job.
#[derive(Clone, Copy, Debug, PartialEq, Eq, Error)]
pub enum WordsRefused {
    #[error("the words are not taken")]
    Usage,
    #[error("out of memory")]
    NoMemory,
}

/// Whether a word is no flag.
fn is_positional(word: &str) -> bool
    ensures { result ≡ is_positional word.now }
{
    match word.as_bytes() {
        [first, _, ..] => *first != b'-',
        _ => true,
    }
}

/// The job of a command line's words, without the program's name.
pub fn read_words(alloc: Global, words: &WordList) -> Result<Job, WordsRefused>
    ensures read { IsRead (job_of words.now) result }
{
    match words.as_slice() {
        [first, path] => {
            let path = path.as_str();
            if first.as_str() != "run" || !is_positional(path) {
                return Err(WordsRefused::Usage);
            }
            match Text::from_str(alloc, path) {
                Ok(graph) => Ok(Job::Run { graph }),
                Err(_) => Err(WordsRefused::NoMemory),
            }
        }
        _ => Err(WordsRefused::Usage),
    }
}
