// What follows of what a run does. A law is the contract of a function that does nothing.
ghost use Rattle.std.specs.Prelude.{◌≡◌, ◌⊎◌, ℕ, List, ◌++◌, IfSome, Some};
ghost use Rattle.up_model.specs.declared.outcome.Outcome.TheVariants as outcomes;
ghost use Rattle.up_outside.specs.Held.{Held};
ghost use Rattle.up_outside.specs.Told.{Then};
ghost use Rattle.up_outside.specs.declared.asked.Entry.{Entry as TheEntry};
ghost use Rattle.up_report.specs.declared.fault.Fault.TheVariants as faults;
ghost use Rattle.upipe_run.specs.FirstCauses.{IsAnswered, IsAnsweredFirst, TellsFirstAt};
ghost use Rattle.upipe_run.specs.Laws.{AsksAll, Completes, IsRunStatus, LeavesFirst, RanClean, SettlesStatus};
ghost use Rattle.upipe_run.specs.Runs.{Runs};
ghost use Rattle.upipe_run.specs.Seen.{Seen};

/// Where every source is whole and no count rose, a run is whole, or memory ran out.
pub fn runs_complete()
    ensures { (path : List ℕ) (old new : Seen) (status : ℕ) → Runs path old new status
        → IfSome old.depot.held (Completes path old new status) }
{}

/// The statuses of a run, and those of a text without a graph.
pub fn runs_have_statuses()
    ensures run { (path : List ℕ) (old new : Seen) (status : ℕ) → Runs path old new status
        → IsRunStatus status }
    ensures no_graph { (path : List ℕ) (old new : Seen) (status : ℕ) → Runs path old new status
        → IfSome old.depot.held (SettlesStatus path status) }
{}

/// A run that is whole, or whose source has a bad frame or is too long, has asked for every path of its graph.
pub fn runs_ask_all()
    ensures { (path : List ℕ) (old new : Seen) (status : ℕ) → Runs path old new status
        → (status ≡ 0) ⊎ ((status ≡ 6) ⊎ (status ≡ 8))
        → IfSome old.depot.held (λ before.
        Then (AsksAll path before) old.depot.asked new.depot.asked) }
{}

/// At 6 and 8 the bytes of a source are the cause that is told, all bytes at its path: of the first source in the order of
/// the file whose bytes aren't whole.
pub fn runs_tell_of_bytes()
    ensures bad_frame { (path : List ℕ) (old new : Seen) (status : ℕ) → Runs path old new status
        → status ≡ 6 → IfSome old.depot.held
        (TellsFirstAt outcomes.BadFrame faults.BadFrame old new path) }
    ensures too_long { (path : List ℕ) (old new : Seen) (status : ℕ) → Runs path old new status
        → status ≡ 8 → IfSome old.depot.held
        (TellsFirstAt outcomes.TooLong faults.TooLong old new path) }
{}

/// Where the first source in the order of the file whose bytes aren't whole has a bad frame, and no count rose, a run
/// answers 6, or memory ran out; where it is too long, 8. So it does where all paths were opened and no call failed up to
/// that source, whatever failed behind it.
pub fn first_causes_are_answered()
    ensures bad_frame { (path : List ℕ) (old new : Seen) (status : ℕ) → Runs path old new status
        → IfSome old.depot.held (IsAnswered outcomes.BadFrame 6 path old new status) }
    ensures too_long { (path : List ℕ) (old new : Seen) (status : ℕ) → Runs path old new status
        → IfSome old.depot.held (IsAnswered outcomes.TooLong 8 path old new status) }
    ensures bad_frame_first { (path : List ℕ) (old new : Seen) (status : ℕ)
        (asked after : List TheEntry) → Runs path old new status
        → old.depot.asked ≡ Some asked → new.depot.asked ≡ Some after → IfSome old.depot.held
        (IsAnsweredFirst outcomes.BadFrame 6 path asked after status) }
    ensures too_long_first { (path : List ℕ) (old new : Seen) (status : ℕ)
        (asked after : List TheEntry) → Runs path old new status
        → old.depot.asked ≡ Some asked → new.depot.asked ≡ Some after → IfSome old.depot.held
        (IsAnsweredFirst outcomes.TooLong 8 path asked after status) }
{}

/// Where a run answers 0, each pipe came to a whole end, every path was closed without a fault, the graph file's too, and
/// no count of faults rose.
pub fn whole_runs_are_clean()
    ensures { (path : List ℕ) (old new : Seen) (status : ℕ) → Runs path old new status
        → status ≡ 0 → RanClean path old.depot new.depot }
{}

/// Whatever a run answers, at the path of each sink whose close was Ok lie the first of the bytes that it is to hold, by
/// all that lay at the sources' paths.
pub fn closed_sinks_hold_first_parts()
    ensures { (path : List ℕ) (old new : Seen) (status : ℕ) (before after : Held)
        (asked added : List TheEntry) → Runs path old new status
        → old.depot.held ≡ Some before → new.depot.held ≡ Some after
        → old.depot.asked ≡ Some asked → new.depot.asked ≡ Some (asked ++ added)
        → LeavesFirst path before after added }
{}
