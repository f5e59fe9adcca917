use up_model::{Outcome, Tally};

/// How each pipe ended and what it counted, by its place.
#[derive(Debug, Drop)]
pub(crate) struct Results {
    pub outcomes: Vec<Outcome>,
    pub tallies: Vec<Tally>,
}
