use crate::{Job, WordsRefused, read_words};
use std::test::Fail;
use up_base::{Text, WordList};

#[test]
fn only_run_and_one_path_are_a_job(rt: HostRuntime) -> Result<(), Fail> {
    let alloc = rt.alloc();
    let long: &[&'static str] = &[
        "run",
        "a path of more than sixty-four bytes, so that it lies in memory of its own",
    ];
    let cases: [(&[&'static str], bool); 12] = [
        (&[], false),
        (&["run"], false),
        (&["g.toml"], false),
        (&["run", "g.toml", "g.toml"], false),
        (&["RUN", "g.toml"], false),
        (&["check", "g.toml"], false),
        (&["run", "-x"], false),
        (&["run", "--single", "g.toml"], false),
        (&["run", "-"], true),
        (&["run", ""], true),
        (&["run", "g.toml"], true),
        (long, true),
    ];
    for (words, taken) in cases {
        let mut list = WordList::new(alloc);
        for word in words {
            list.push(Text::from_str(alloc, word)?)?;
        }
        let read = match read_words(alloc, &list) {
            Ok(Job::Run { graph }) => Some(graph),
            Err(WordsRefused::Usage) => None,
            Err(WordsRefused::NoMemory) => return Err("no memory".into()),
        };
        let wanted = if taken { words.last().copied() } else { None };
        assert_eq!(rt;
            read.as_ref().map(|graph| graph.as_str()),
            wanted,
            "{words:?}"
        );
    }
    Ok(())
}
