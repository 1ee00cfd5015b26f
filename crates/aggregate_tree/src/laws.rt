ghost use Rattle.aggregate_tree.specs.Leaves.{IsSumOverLeaves, IsOwnSum};

/// Law: adding up children, each of which is the sum over the leaves under it, gives the sum over all these leaves: in
/// each quarter the sum of the values where all leaves have one, else the first mark that occurs among them in the
/// order missing, no base, range.
pub fn sum_of_children_is_over_leaves()
    ensures law { IsSumOverLeaves }
{}

/// Law: the sum over a leaf alone is the leaf itself.
pub fn leaf_is_own_sum()
    ensures law { IsOwnSum }
{}
