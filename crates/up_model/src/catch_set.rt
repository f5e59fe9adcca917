/// Which kinds of event a probe catches.
#[derive(Clone, Copy, Debug, Default, PartialEq, Eq)]
pub struct CatchSet {
    pub drop: bool,
    pub cut: bool,
    pub sync: bool,
    pub lost: bool,
}
