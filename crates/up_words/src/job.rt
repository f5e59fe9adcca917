use up_base::Text;

/// What the words of a command line ask for.
#[derive(Debug, Drop)]
pub enum Job {
    /// The graph of the file at this path is run.
    Run { graph: Text },
}
