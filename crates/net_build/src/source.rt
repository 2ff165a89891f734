//! What a network is built of.

use crate::linked::LinkedPlan;
use plan_traffic::Traffic;

/// A plan, a traffic on it, and the plan nodes where the transactions end, in order of number.
#[derive(Clone, Copy)]
pub(crate) struct Source<'a> {
    pub plan: &'a LinkedPlan<'a>,
    pub traffic: &'a Traffic,
    pub targets: &'a [u32],
}
