// Laws of the definitions. A law is the contract of a function that does nothing.
ghost use Rattle.std.specs.Prelude.{◌≡◌, ◌≢◌, ◌<◌, ◌+◌, ◌++◌, ◌↔◌, [], ℕ, ◌≤◌, ℤ, true, None, Option, List, All, length, map, option_map, slice_get, Some};
ghost use Rattle.std.specs.FinMap.{get};
ghost use Rattle.up_base.specs.Lists.{IsPrefix};
ghost use Rattle.up_base.specs.Number.{AreBytes};
ghost use Rattle.up_model.specs.Attrs.{Attrs};
ghost use Rattle.up_model.specs.Chain.{IsChain};
ghost use Rattle.up_model.specs.Cutting.{blocks};
ghost use Rattle.up_model.specs.Dates.{date_name};
ghost use Rattle.up_model.specs.Delay.{delayed, delayed_packet, moved_value};
ghost use Rattle.up_model.specs.Ends.{reads_frames};
ghost use Rattle.up_model.specs.FrameStreams.{cut_at};
ghost use Rattle.up_model.specs.KindMeaning.{Setting, admits};
ghost use Rattle.up_model.specs.Kinds.{IsWithinBounds, is_packetwise, keeps_bytes, output_of, settled_output, settled_work, work_of, setting_of, with_option, share_of, module_kind};
ghost use Rattle.up_model.specs.Meaning.{sink_bytes};
ghost use Rattle.up_model.specs.OptionValues.{IsSet};
ghost use Rattle.up_model.specs.Outcomes.{Shows, carried_as, shown_by, source_outcome};
ghost use Rattle.up_model.specs.Packet.{Flow, IsLegal, joined};
ghost use Rattle.up_model.specs.Tallies.{IsAtMost, nothing, plus, added, stopped};
ghost use Rattle.up_model.specs.Work.{no_work, Counts, CutsTheRest, PutsAll, PutsOrDrops};
ghost use Rattle.up_model.specs.declared.date_kind.DateKind.{DateKind as TheDate};
ghost use Rattle.up_model.specs.declared.form.SourceForm.{SourceForm as TheForm};
ghost use Rattle.up_model.specs.declared.form.SourceForm.TheVariants as forms;
ghost use Rattle.up_model.specs.declared.kind.Kind.{Kind as TheKind};
ghost use Rattle.up_model.specs.declared.kind.Kind.TheVariants as kinds;
ghost use Rattle.up_model.specs.declared.limits.TheConstants.{MAX_PID};
ghost use Rattle.up_model.specs.declared.opt.Opt.{Opt as TheOpt};
ghost use Rattle.up_model.specs.declared.outcome.Outcome.{Outcome as TheOutcome};
ghost use Rattle.up_model.specs.declared.outcome.Outcome.TheVariants as outcomes;
ghost use Rattle.up_model.specs.declared.pipe.Pipe.{Pipe as ThePipe};
ghost use Rattle.up_model.specs.declared.tally.Tally.{Tally as TheTally};
ghost use Rattle.up_model.specs.declared.value.Value.{Value as TheValue};

/// The bytes of a raw source are those of its blocks, one after the other.
pub fn blocks_rejoin()
    ensures { (size : ℕ) (bytes : List ℕ) → 0 < size → joined (blocks size bytes) ≡ bytes }
{}

/// In a chain the sink's bytes are those of the source's flow.
pub fn chain_copies()
    ensures { (pipes : List ThePipe) (given : ℕ → Flow) (place : ℕ) (sink : ThePipe) → IsChain pipes
        → place + 1 ≡ length pipes → slice_get pipes place ≡ Some sink
        → sink_bytes pipes given sink ≡ joined (given 0) }
{}

/// A kind that took nothing has put out nothing and counted nothing, also at the end.
pub fn starts_with_nothing()
    ensures settled { (kind : TheKind) → IsWithinBounds kind → settled_work kind [] ≡ no_work }
    ensures whole { (kind : TheKind) → IsWithinBounds kind → work_of kind [] ≡ no_work }
{}

/// What a kind has put out when its flow goes on is a prefix of what it has put out later, and of what it puts out in
/// all.
pub fn settled_is_prefix()
    ensures longer { (kind : TheKind) (taken more : Flow) → IsWithinBounds kind
        → IsPrefix (settled_output kind taken) (settled_output kind (taken ++ more)) }
    ensures whole { (kind : TheKind) (taken more : Flow) → IsWithinBounds kind
        → IsPrefix (settled_output kind taken) (output_of kind (taken ++ more)) }
{}

/// Each sum of a kind when its flow goes on is at most that sum later, and that in all.
pub fn settled_sums_grow()
    ensures longer { (kind : TheKind) (taken more : Flow) → IsWithinBounds kind
        → IsAtMost (settled_work kind taken).tally (settled_work kind (taken ++ more)).tally }
    ensures whole { (kind : TheKind) (taken more : Flow) → IsWithinBounds kind
        → IsAtMost (settled_work kind taken).tally (work_of kind (taken ++ more)).tally }
{}

/// The sums of a kind count the packets that it took and those that it put out.
pub fn sums_count_packets()
    ensures settled { (kind : TheKind) (taken : Flow) → IsWithinBounds kind
        → Counts (settled_work kind taken) taken }
    ensures whole { (kind : TheKind) (taken : Flow) → IsWithinBounds kind
        → Counts (work_of kind taken) taken }
{}

/// Each packet that a packetwise kind took was put out or dropped, and synchronisation was neither gained nor lost.
pub fn packets_are_put_or_dropped()
    ensures { (kind : TheKind) (taken : Flow) → is_packetwise kind ≡ true
        → PutsOrDrops (work_of kind taken) }
{}

/// A kind that keeps bytes puts out every packet that it took, with all of its bytes, and counts none as dropped and no
/// byte as cut.
pub fn nothing_is_cut()
    ensures { (kind : TheKind) (taken : Flow) → keeps_bytes kind ≡ true
        → PutsAll (work_of kind taken) taken }
{}

/// What a kind between the ends cuts and what it puts out are the bytes that it took.
pub fn cut_is_the_rest()
    ensures idem { (taken : Flow) → CutsTheRest (work_of kinds.Idem taken) taken }
    ensures dup { (taken : Flow) → CutsTheRest (work_of kinds.Dup taken) taken }
    ensures null { (taken : Flow) → CutsTheRest (work_of kinds.Null taken) taken }
    ensures skip { (bytes : ℕ) (taken : Flow)
        → CutsTheRest (work_of (kinds.Skip bytes) taken) taken }
    ensures setattr { (attr : List ℕ) (value : TheValue) (taken : Flow)
        → CutsTheRest (work_of (kinds.SetAttr attr value) taken) taken }
    ensures match_attr { (attr : List ℕ) (low high : ℕ) (taken : Flow)
        → CutsTheRest (work_of (kinds.MatchAttr attr low high) taken) taken }
    ensures delattr { (attr : List ℕ) (taken : Flow)
        → CutsTheRest (work_of (kinds.DelAttr attr) taken) taken }
    ensures delay { (by : ℤ) (taken : Flow)
        → CutsTheRest (work_of (kinds.Delay by) taken) taken }
{}

/// `delay` puts out every packet, and changes nothing of it but its three dates. One that is a number becomes its sum with the
/// shift, or goes where that is no number of 64 bits; one of another type stays, and so does every other attribute.
pub fn dates_are_moved()
    ensures all { (by : ℤ) (taken : Flow)
        → output_of (kinds.Delay by) taken ≡ map (delayed_packet by) taken }
    ensures dates { (by : ℤ) (attrs : Attrs) (which : TheDate) →
        get (delayed by attrs) (date_name which) ≡ moved_value by (get attrs (date_name which)) }
    ensures others { (by : ℤ) (attrs : Attrs) (name : List ℕ)
        → ((which : TheDate) → name ≢ date_name which)
        → get (delayed by attrs) name ≡ get attrs name }
{}

/// A kind within its bounds makes legal packets of legal ones.
pub fn outputs_are_legal()
    ensures { (kind : TheKind) (taken : Flow) → IsWithinBounds kind → All IsLegal taken
        → All IsLegal (output_of kind taken) }
{}

/// What a consumer takes grows with the output that it takes of, and is legal where that is; a kind that a module has in
/// place of its own is within its bounds.
pub fn shares_are_lawful()
    ensures longer { (kind : TheKind) (select : Option ℕ) (front more : Flow)
        → IsPrefix (share_of kind select front) (share_of kind select (front ++ more)) }
    ensures legal { (kind : TheKind) (select : Option ℕ) (flow : Flow) → All IsLegal flow
        → All IsLegal (share_of kind select flow) }
    ensures within { (kind : TheKind) (numbers : List ℕ) → IsWithinBounds kind
        → All (λ number. number ≤ MAX_PID) numbers → IsWithinBounds (module_kind numbers kind) }
{}

/// What a source within its bounds carries, however it ends, is legal packets; one of frames where what it is given are
/// bytes.
pub fn carried_is_legal()
    ensures { (outcome : TheOutcome) (kind : TheKind) (bytes : List ℕ) → IsWithinBounds kind
        → (reads_frames kind ≡ true → AreBytes bytes)
        → All IsLegal (carried_as outcome kind bytes) }
{}

/// What bytes show of a source is told of all bytes that begin so. They show a field of a frame that is broken within the
/// limit, else a byte past it, and nothing else; where they show nothing, they are within the limit. Of a whole source they
/// show nothing. What is told of all bytes that begin so and isn't shown yet is a frame that they leave unfinished.
pub fn what_is_shown_stays()
    ensures each { (form : TheForm) (limit : ℕ) (bytes : List ℕ) (outcome : TheOutcome)
        → (shown_by form limit bytes ≡ Some outcome) ↔ Shows form limit bytes outcome }
    ensures stays { (form : TheForm) (limit : ℕ) (bytes more : List ℕ) (outcome : TheOutcome)
        → shown_by form limit bytes ≡ Some outcome
        → source_outcome form limit (bytes ++ more) ≡ outcome }
    ensures within { (form : TheForm) (limit : ℕ) (bytes : List ℕ)
        → shown_by form limit bytes ≡ None → length bytes ≤ limit }
    ensures whole { (form : TheForm) (limit : ℕ) (bytes : List ℕ)
        → source_outcome form limit bytes ≡ outcomes.Whole → shown_by form limit bytes ≡ None }
    ensures only { (form : TheForm) (limit : ℕ) (bytes : List ℕ) (outcome : TheOutcome)
        → ((more : List ℕ) → source_outcome form limit (bytes ++ more) ≡ outcome)
        → shown_by form limit bytes ≡ None
        → (form ≡ forms.Framed) × (option_map outcomes.BadFrame (cut_at bytes) ≡ Some outcome) }
{}

/// An option lies within its own bounds. A value within them is set in that option alone, and the kind stays within its
/// bounds.
pub fn options_are_set()
    ensures admitted { (kind : TheKind) (option : TheOpt) (setting : Setting) → IsWithinBounds kind
        → setting_of kind option ≡ Some setting → admits setting setting.value ≡ true }
    ensures set { (kind : TheKind) (option : TheOpt) (setting : Setting) (value : ℤ)
        → setting_of kind option ≡ Some setting → admits setting value ≡ true
        → IsSet option value kind (with_option kind option value) }
{}

/// To add to sums that are kept one after the other is to add both together.
pub fn sums_add_up()
    ensures { (sums a b : TheTally) → added (added sums a) b ≡ added sums (plus a b) }
{}

/// Sums that are kept since the start are the sums, each stopped at 2^64 - 1.
pub fn kept_sums_stop()
    ensures { (sums : TheTally) → added nothing sums ≡ stopped sums }
{}
