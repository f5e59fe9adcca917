use up_model::{OutcomeList, TallyList};

/// How a run of a graph ended.
#[derive(Debug, Drop)]
pub enum RunOutcome {
    /// By pipe, in the order of the file: how it ended, and what it counted.
    Ended {
        outcomes: OutcomeList,
        tallies: TallyList,
    },
    /// No memory was found.
    NoMemory,
}
