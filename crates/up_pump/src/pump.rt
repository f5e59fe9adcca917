ghost use Rattle.std.specs.Prelude.{◌≡◌};

/// What a loop knows of one pump.
#[derive(Clone, Copy, Debug, Default, PartialEq, Eq)]
pub struct Pump {
    /// It has work.
    pub ready: bool,
    /// How many hold it back.
    pub blockers: u32,
}

impl Pump {
    ghost use Rattle.up_pump.specs.Pump.{is_due};

    /// Whether the pump is ready and nothing holds it back.
    pub(crate) fn is_due(&self) -> bool
        ensures { result ≡ is_due self.now }
    {
        self.ready && self.blockers == 0
    }
}
