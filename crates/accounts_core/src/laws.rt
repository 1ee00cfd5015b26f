//! What lets the tables of items that aren't touched stay, as a law.

ghost use Rattle.std.specs.Prelude.{◌≡◌, ◌≤◌, ◌<◌, ℕ, List, IsFalse, length, slice_get, take};
ghost use Rattle.dirty_plan.specs.Touched.{is_touched_between};
ghost use Rattle.node_compile.specs.Release.{compilation};
ghost use Rattle.series_tables.specs.Plan.{PlanShape};
ghost use Rattle.series_tables.specs.declared.input.Input.{Input};

/// Law: an item that no input between two fronts touches has the same table in the compilations of both.
pub fn untouched_items_keep_their_tables()
    ensures { (plan : PlanShape) (inputs : List Input) (front later item : ℕ) →
        front ≤ later → later ≤ length inputs → item < length plan.parents →
        IsFalse (is_touched_between plan inputs front later item) →
        slice_get (compilation plan (take front inputs)) item
        ≡ slice_get (compilation plan (take later inputs)) item }
{}
