//! How long a suspended plan may be.

ghost use Rattle.std.specs.Prelude.{◌≡◌, ◌+◌, ◌*◌, ◌<◌, ◌^◌};
ghost use Rattle.plan_tree.specs.Spelling as spelling;
ghost use Rattle.plan_tree.specs.Trees.{plan_in};

use plan_tree::{Plan, nodes};

/// The most bytes that a suspended plan of this plan has.
pub fn length_bound(plan: &Plan) -> u64
    requires { spelling.nodes (plan_in plan.now) < 2 ^ 32 }
    ensures { result ≡ 65 + 14 * spelling.nodes (plan_in plan.now) }
{
    65 + 14 * nodes(plan)
}
