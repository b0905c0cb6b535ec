ghost use Rattle.recalc_plan.specs.Laws.{CellsStandOnce, CircularStandOnce, LevelsAreLeast};
ghost use Rattle.recalc_plan.specs.Laws.{LevelsAreNotCircular, PlansAgree, PlansHaveTheStale};

/// What holds of every plan: no cell can stand in an earlier level than it does, and none stands both in a level and
/// among the circular ones; the cells of the plan are the stale ones, each at one place; and two plans of one graph and
/// the same stale cells differ at most in the order of the cells in a level, or of the circular ones.
pub fn plan_laws()
    ensures least { LevelsAreLeast }
    ensures apart { LevelsAreNotCircular }
    ensures agree { PlansAgree }
    ensures stale { PlansHaveTheStale }
    ensures once { CellsStandOnce }
    ensures circular { CircularStandOnce }
{}
