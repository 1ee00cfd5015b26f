//! What is touched, as laws.

ghost use Rattle.std.specs.Prelude.{◌≡◌, ◌<◌, ◌||◌, ℕ, Bool, List, Option, length, map};
ghost use Rattle.std.specs.List.{list_any};
ghost use Rattle.dirty_plan.specs.Round.{first_state, has_flag, has_touched_child, has_unfinished_child, is_unfinished};
ghost use Rattle.dirty_plan.specs.Round.{job_count, opened_jobs};
ghost use Rattle.dirty_plan.specs.Touched.{NamesLeaves, inputs_between, is_touched, is_touched_between, items_of};
ghost use Rattle.dirty_plan.specs.Touched.{names_leaf, touched_count};
ghost use Rattle.dirty_plan.specs.declared.job.JobState.{JobState};
ghost use Rattle.series_tables.specs.Items.{AreBackward};
ghost use Rattle.series_tables.specs.Plan.{PlanShape};
ghost use Rattle.series_tables.specs.Tree.{of_children};
ghost use Rattle.series_tables.specs.declared.input.Input.{Input};

/// Law: an item is touched where it is named itself or one of its children is touched. So what is touched is what is
/// named and everything above it.
pub fn items_are_touched_from_below()
    ensures { (plan : PlanShape) (is_named : ℕ → Bool) (item : ℕ) →
        NamesLeaves plan is_named → item < length plan.parents →
        is_touched plan is_named item ≡ (is_named item || has_touched_child plan is_named item) }
{}

/// Law: a round that begins has as many jobs as items are touched.
pub fn touched_items_have_the_jobs()
    ensures { (plan : PlanShape) (is_named : ℕ → Bool) →
        job_count (opened_jobs plan is_named) ≡ touched_count plan is_named }
{}

/// Law: where each parent stands before its children, an item's children with an unfinished job are looked for among
/// all items.
pub fn all_children_are_looked_at()
    ensures { (parents : List (Option ℕ)) (jobs : List JobState) (item : ℕ) →
        AreBackward parents →
        has_unfinished_child parents jobs item
        ≡ list_any is_unfinished (of_children item parents jobs) }
{}

/// Law: a round that begins with a flag for each leaf that the inputs from one front to a later one name has a job
/// for each item that these inputs touch, and for no other.
pub fn rounds_have_what_is_touched_between_fronts()
    ensures { (plan : PlanShape) (inputs : List Input) (front later : ℕ) (flags : List Bool) →
        ((leaf : ℕ) → has_flag flags leaf ≡ names_leaf (inputs_between inputs front later) leaf) →
        opened_jobs plan (has_flag flags)
        ≡ map (λ item. first_state (is_touched_between plan inputs front later item))
        (items_of plan) }
{}
