//! The program: runs a graph of pipes over the files of the system.
#![tactic(auto)]

ghost use Rattle.std.specs.Prelude.{◌≡◌, drop, map, string_bytes, IfOk};

use std::alloc::Global;
use std::process::ExitCode;
use std::{env, io};
use up_base::{NoMemory, Text, WordList};
use up_outside::{FileDepot, StdErr, StdOut};
use upipe_run::run;

/// The words of a command line, of which the first is the program's own name: all but that.
fn words_of(alloc: Global, given: &[String]) -> Result<WordList, NoMemory>
    ensures { IfOk result (λ words. words ≡ map string_bytes (drop 1 given.now)) }
{
    let mut words = WordList::new(alloc);
    let rest = match given {
        [_, rest @ ..] => rest,
        [] => given,
    };
    for word in rest {
        let word = Text::from_str(alloc, word.as_str())?;
        if words.push(word).is_err() {
            return Err(NoMemory);
        }
    }
    Ok(words)
}

fn main(rt: HostRuntime) -> ExitCode {
    let given = match env::args(&rt) {
        Ok(given) => given,
        Err(error) if error.kind() == io::ErrorKind::OutOfMemory => return ExitCode::from(7),
        Err(_) => return ExitCode::from(1),
    };
    let alloc = rt.alloc();
    let Ok(given) = given.collect::<Vec<String>>(alloc) else {
        return ExitCode::from(7);
    };
    let Ok(words) = words_of(alloc, &given) else {
        return ExitCode::from(7);
    };
    let mut depot = FileDepot::new(&rt);
    let mut out = StdOut::new(rt.stdout());
    let mut err = StdErr::new(rt.stderr());
    let status = run(&rt, alloc, &words, &mut depot, &mut out, &mut err);
    ExitCode::from(status)
}
