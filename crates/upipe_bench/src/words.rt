use std::num::NonZeroU32;

/// The most packets that are timed.
const MAX_PACKETS: u32 = 1_000_000;

/// How many packets are timed where no number is given.
const MANY: u32 = 20_000;

/// The most rounds of frames that are read.
const MAX_ROUNDS: u32 = 1_000;

/// What the words of the command line ask for.
#[derive(Clone, Copy, Debug, PartialEq, Eq)]
pub(crate) enum Asked {
    /// What comes through each chain.
    Bytes,
    /// How long each chain takes for so many packets.
    Times { packets: NonZeroU32 },
    /// How long frames take to be read in pieces of several sizes.
    Frames,
    /// What is read of so many rounds of frames.
    Rounds { rounds: u32 },
}

/// The times for so many packets, where they are 1 to 1,000,000.
fn timed(packets: u32) -> Option<Asked> {
    if MAX_PACKETS < packets {
        return None;
    }
    let packets = NonZeroU32::new(packets)?;
    Some(Asked::Times { packets })
}

/// So many rounds, where they are at most 1,000.
fn read_often(rounds: u32) -> Option<Asked> {
    if MAX_ROUNDS < rounds {
        return None;
    }
    Some(Asked::Rounds { rounds })
}

/// What the words ask for, of which the first is the program's own name; nothing, where they aren't taken.
pub(crate) fn asked_by(words: &[String]) -> Option<Asked> {
    match words {
        [] | [_] => Some(Asked::Bytes),
        [_, word] if word.as_str() == "slope" => timed(MANY),
        [_, word, count] if word.as_str() == "slope" => timed(count.parse::<u32>().ok()?),
        [_, word] if word.as_str() == "frames" => Some(Asked::Frames),
        [_, word, count] if word.as_str() == "frames" => read_often(count.parse::<u32>().ok()?),
        _ => None,
    }
}
