// What a minmax and an average call give beside the totals of a plan. Each planning call answers its plan, or the refusal: a `Result`.
#![tactic(auto)]

use keys::cost::Dist;
use walk::Totals;

#[derive(Clone, Copy)]
pub struct MinmaxPlan {
    pub ceiling: u64,
    pub totals: Totals,
}

#[derive(Clone, Copy)]
pub struct AveragePlan {
    pub n: u64,
    pub d: u64,
    pub floor: Dist,
    pub totals: Totals,
}
