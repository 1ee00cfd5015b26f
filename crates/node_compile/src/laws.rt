//! What every compilation keeps, as laws over the definitions.

ghost use Rattle.node_compile.specs.Sizes.{AreItemsSized, AreLeavesSized};

/// Whatever inputs fit a plan: the values of an item are within 10^24, and its volumes within 10^15, times the number
/// of leaves under it, and no cell of it is the mark of a link. The values of a leaf are below 10^24.
pub fn figures_are_in_range()
    ensures items { AreItemsSized }
    ensures leaves { AreLeavesSized }
{}
