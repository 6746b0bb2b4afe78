//! Tests of `plan_work`: marks that two passes of one thread handle in turn, and runs by one worker and by several.

mod extend;
mod extend_opened_runs;
mod extend_with_fallen_costs;
mod extend_with_stale_costs;
mod grow;
mod support;
mod work;
