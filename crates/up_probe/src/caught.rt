/// Who caught an event: the number of probes that lie nearer to the pipe.
#[derive(Clone, Copy, Debug, PartialEq, Eq)]
pub struct Caught {
    pub depth: usize,
}
