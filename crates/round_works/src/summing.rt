//! Adding a child to the sum of its parent.

ghost use Rattle.std.specs.Prelude.{◌≡◌, ◌<◌, length};
ghost use Rattle.std.specs.Option.{ForSome};
ghost use Rattle.round_works.specs.Adding.{CanAdd, CanAddTo, added_to, with_flows};

use crate::work::Work;
use price_base::NodeFlows;

/// Adds a child's flows to the work of its parent, where it has one and the parent has a job.
pub(crate) fn add_to_parent(works: &mut [Option<Work>], parent: Option<u16>, flows: &NodeFlows)
    requires within { ForSome parent (λ item. item < length works.old) }
    requires range { CanAddTo parent flows.now.value flows.now.prev works.old }
    ensures { works.new ≡ added_to parent flows.now.value flows.now.prev works.old }
{
    if let Some(item) = parent {
        add_to_work(&mut works[item as usize], flows);
    }
}

/// Adds flows to a work that is a sum.
fn add_to_work(work: &mut Option<Work>, flows: &NodeFlows)
    requires { CanAdd flows.now.value flows.now.prev work.old }
    ensures { work.new ≡ with_flows flows.now.value flows.now.prev work.old }
{
    if let Some(Work::Inner(sum)) = work {
        sum.add(flows);
    }
}
