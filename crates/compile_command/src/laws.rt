//! Theorems about two runs. Each function does nothing; its contract states a theorem.

ghost use Rattle.std.specs.Prelude.{◌≡◌, ◌++◌, ℕ, List, Some, length, map};
ghost use Rattle.compile_command.specs.Compile.{ReportsRows};
ghost use Rattle.command_io.specs.RunState.{Inputs, run_state};
ghost use Rattle.devices.specs.files.Opening.{Opening as AnOpening, all_opened};
ghost use Rattle.devices.specs.sinks.SinkState.{SinkState};
ghost use Rattle.lane.specs.Whole.{GatheredView};
ghost use Rattle.minelib_lines.specs.declared.text_name.TextName.{TextName as AName};
ghost use Rattle.pit_compile.specs.Run.{IsDone};
ghost use Rattle.pit_compile.specs.ZoneFiles.{IsVerdict};
ghost use Rattle.plan_parts.specs.Plan.{PlanParts};
ghost use Rattle.plan_parts.specs.declared.formulas.formula.Formula.{Formula};
ghost use Rattle.plan_parts.specs.declared.settings.Settings.{Settings};
ghost use Rattle.refusals.specs.declared.refusal.Refusal.{Refusal as ARefusal};
ghost use Rattle.run_threads.specs.Starts.{StartsView};

/// Runs of the same plan over zone files with the same bytes, into sinks with the same state, agree for all numbers of valuers and
/// all capacities.
///
/// - If two runs are complete, the same messages were sent through the lane, and each sink has the same state afterwards, with the
///   same bytes.
/// - Two compiles of files that reported these bytes when they were opened also append the same line.
/// - If the verdict on the files rejects two, the error is the same.
/// - If one is complete, the verdict rejects none.
pub fn runs_of_the_same_files_agree()
    ensures done { (plan : PlanParts) (texts : List (List ℕ)) (valuers capacity others place : ℕ)
        (old new again : AName → SinkState) (g h : GatheredView)
        → IsDone plan (map Some texts) valuers capacity old new g
        → IsDone plan (map Some texts) others place old again h
        → (g.sent ≡ h.sent) × ((name : AName) → new name ≡ again name) }
    ensures compiled { (inputs : Inputs) (formulas : List Formula) (settings : Settings)
        (texts : List (List ℕ)) (opened now : List AnOpening)
        (starts spent begun ended : StartsView) (old new again : AName → SinkState)
        (text text_one text_other : List ℕ) → length texts ≡ length inputs.zones
        → now ≡ opened ++ all_opened inputs.zones (map Some texts)
        → ReportsRows inputs (run_state opened starts old) (run_state now spent new) text text_one
        → ReportsRows (record inputs { formulas = formulas; settings = settings })
        (run_state opened begun old) (run_state now ended again) text text_other
        → (text_one ≡ text_other) × ((name : AName) → new name ≡ again name) }
    ensures refused { (plan : PlanParts) (texts : List (List ℕ)) (one other : ARefusal)
        → IsVerdict plan (map Some texts) one → IsVerdict plan (map Some texts) other
        → one ≡ other }
    ensures accepted { (plan : PlanParts) (texts : List (List ℕ)) (valuers capacity : ℕ)
        (old new : AName → SinkState) (g : GatheredView) (refusal : ARefusal)
        → IsDone plan (map Some texts) valuers capacity old new g
        → IsVerdict plan (map Some texts) refusal → ⊥ }
{}
