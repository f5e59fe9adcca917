/// What is open for a pipe.
pub(crate) enum Object<S, K> {
    None,
    Source(S),
    Sink(K),
}
