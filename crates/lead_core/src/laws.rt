//! What holds of everything that a lead decides.
ghost use Rattle.std.specs.Prelude.{◌≡◌, List, Some, ℕ};
ghost use Rattle.run_states.specs.declared.answer.FreeAnswer.{FreeAnswer};
ghost use Rattle.run_states.specs.declared.row.RunRow.{RunRow};
ghost use Rattle.host_model.specs.NextAttempt.{next_attempt};
ghost use Rattle.host_model.specs.Plan.{plan};
ghost use Rattle.host_model.specs.declared.lead.Attempt.{Attempt};
ghost use Rattle.host_model.specs.declared.lead.Planned.TheVariants.{At};
ghost use Rattle.host_model.specs.declared.task_row.TaskRow.{TaskRow};
ghost use Rattle.lead_core.specs.Starts.{IsPlannedStart, IsScheduled};

/// A law: each start that an attempt asks about is one at which the task's schedule allows its run, 5 s to a day ahead,
/// and it is one of eight attempts at the run's number.
pub fn law_attempt()
    ensures { (self : ℕ) (t : TaskRow) (rows : List RunRow) (m : ℕ) (a : Attempt) → next_attempt self rows m t ≡ Some a → IsScheduled t.task.rule m a }
{}

/// A law: a planned start lies in the first tier of every participant, and no earlier one of the window does; or there is
/// none such, it lies in the second tier of every participant, and no earlier one does.
#[tactic(auto, using(crate::proofs::StartLemmas::planned_best))]
pub fn law_plan()
    ensures { (wanted : List (List ℕ)) (r : RunRow) (own : FreeAnswer) (m start : ℕ) (tool : List ℕ) → plan m wanted r own ≡ At start tool → IsPlannedStart m r own start }
{}
