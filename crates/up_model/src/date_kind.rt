ghost use Rattle.std.specs.Prelude.{◌≡◌, true};
ghost use Rattle.up_base.specs.Name.{is_name};
ghost use Rattle.up_model.specs.Dates.{date_name};

/// Which of a packet's dates, each of which is an attribute.
#[derive(Clone, Copy, Debug, PartialEq, Eq)]
pub enum DateKind {
    /// `date.sys`, by the clock of the machine.
    Sys,
    /// `date.prog`, by the clock of the programme.
    Prog,
    /// `date.orig`, by the clock of the flow as it came.
    Orig,
}

impl DateKind {
    /// The name of the attribute.
    pub fn name(self) -> &'static [u8]
        ensures name { result.now ≡ date_name self }
        ensures is_name { is_name result.now ≡ true }
    {
        match self {
            DateKind::Sys => b"date.sys",
            DateKind::Prog => b"date.prog",
            DateKind::Orig => b"date.orig",
        }
    }
}
