//! Plans and last values, as laws.

ghost use Rattle.std.specs.Prelude.{◌≡◌, ◌++◌, ◌∷◌, [], ℕ, List, Ok};
ghost use Rattle.series_tables.specs.Cells.{after_input};
ghost use Rattle.series_tables.specs.IsPlan.{IsPlan};
ghost use Rattle.series_tables.specs.LastValue.{last_value};
ghost use Rattle.series_tables.specs.Plan.{PlanShape, plan_of};
ghost use Rattle.series_tables.specs.declared.input.Input.{Input};
ghost use Rattle.series_tables.specs.declared.input.Kind.{Kind};

/// A plan that a text spells keeps what every plan keeps: its years are in range, it has at most 512 items, their names
/// are names and differ, and each parent stands before its children.
pub fn spelled_plans_are_plans()
    ensures { (text : List ℕ) (plan : PlanShape) → plan_of text ≡ Ok plan → IsPlan plan }
{}

/// One input more makes of the last value of each kind, leaf and period what `Tables::set` makes of its cell.
pub fn last_values_go_on()
    ensures { (inputs : List Input) (input : Input) (kind : Kind) (leaf period : ℕ) →
        last_value (inputs ++ input ∷ []) kind leaf period
        ≡ after_input input kind leaf period (last_value inputs kind leaf period) }
{}
