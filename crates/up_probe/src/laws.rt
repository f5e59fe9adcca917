// What follows from what a chain of probes tallies. A law is the contract of a function that does nothing.
ghost use Rattle.std.specs.Prelude.{◌≡◌, List, [], ◌∷◌};
ghost use Rattle.up_model.specs.Tallies.{nothing, stopped, uncaught};
ghost use Rattle.up_model.specs.declared.catch_set.CatchSet.{CatchSet as TheSet};
ghost use Rattle.up_probe.specs.Chain.{Chain, tally_at};
ghost use Rattle.up_probe.specs.Thrown.{AreThrown, events_sums};
ghost use Rattle.up_probe.specs.declared.event.Event.{Event as TheEvent};

/// Behind a pipe's one probe is tallied what the probe doesn't catch: a sum is 0 where its kind of event is caught.
pub fn a_probe_passes_what_it_does_not_catch()
    ensures { (set : TheSet) (events : List TheEvent) (old new : Chain)
        → old.sets ≡ set ∷ [] → tally_at old 1 ≡ nothing → AreThrown events old new
        → tally_at new 1 ≡ uncaught set (stopped (events_sums events)) }
{}
