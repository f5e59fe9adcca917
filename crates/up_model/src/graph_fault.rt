/// What is wrong with a graph whose fields are right, with the place of the first pipe that has the fault.
#[derive(Clone, Copy, Debug, PartialEq, Eq)]
pub enum GraphFault {
    /// Its name stands on an earlier pipe.
    SameName { place: usize },
    /// Its input isn't there.
    UnknownInput { place: usize },
    /// Following inputs from it never reaches a source.
    Cycle { place: usize },
    /// It has two or more consumers, where its output can feed one.
    ManyOutputs { place: usize },
    /// It has an output and no consumer.
    NoOutput { place: usize },
    /// Its input has no output, or it selects of one that isn't split, or it doesn't of one that is.
    WrongFlow { place: usize },
    /// Its path stands on an earlier pipe, and they aren't both sources.
    SamePath { place: usize },
    /// There are more than 16 different workers.
    TooManyWorkers { count: usize },
}
