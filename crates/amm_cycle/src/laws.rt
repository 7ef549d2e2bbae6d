//! The law that bounds every cycle.
ghost use Rattle.std.specs.Prelude.{◌≡◌, ◌≤◌, ℕ, List, length};
ghost use Rattle.amm_model.specs.declared.route.Leg as leg_view;
ghost use Rattle.amm_model.specs.Routing.{ArePrices, IsOpenProblem, OpenView};
ghost use Rattle.amm_model.specs.Bound.{bound_of};
ghost use Rattle.amm_model.specs.Cycles.{IsCycleTrade};

/// No cycle on any input brings more than the bound, at any prices of any problem.
pub fn no_cycle_beats()
    ensures { (problem : OpenView) (prices : List ℕ) (legs : List leg_view.Leg) (gain : ℕ) →
        IsOpenProblem problem → length prices ≡ length problem.tokens → ArePrices prices →
        IsCycleTrade problem.pools problem.t legs gain → gain ≤ bound_of problem prices }
{}
