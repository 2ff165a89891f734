//! The links of a plan, as those of a network.

ghost use Rattle.std.specs.Prelude.{◌≡◌, ◌<◌, IfOk, length, map};
ghost use Rattle.elaborate.specs.Plan.{plan_link_at, plan_links};
ghost use Rattle.net_opening.specs.PlanLinks.{net_link_of};

use elaborate::Plan;
use net_model::NetLink;
use std::alloc::{AllocError, Global};

/// The links of a plan, in order of number.
pub(crate) fn net_links(alloc: Global, plan: &Plan) -> Result<Vec<NetLink>, AllocError>
    ensures { IfOk result (λ links. links.items ≡ map net_link_of (plan_links plan.now)) }
{
    let mut links = Vec::new(alloc);
    for number in 0..plan.links() {
        links.push(net_link(plan, number))?;
    }
    Ok(links)
}

// The link of a number.
fn net_link(plan: &Plan, number: u32) -> NetLink
    requires { number < length (plan_links plan.now) }
    ensures { result ≡ net_link_of (plan_link_at plan.now number) }
{
    let (upper, lower) = plan.ends(number);
    let kind = plan.kind(number);
    NetLink {
        upper,
        lower,
        lite: kind.lite,
        bus: kind.bus,
        id_width: plan.id_width(number),
        depth: u32::from(plan.depth(number)),
    }
}
