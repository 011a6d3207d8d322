ghost use Rattle.std.specs.Prelude.{◌≡◌, ℕ, List};
ghost use Rattle.base_graph.specs.NeedsGraph.{NeedsGraph};
ghost use Rattle.base_graph.specs.OneOrder.{IsOrder};

/// A graph has at most one order.
#[tactic(auto, using(crate::proofs::Orders::order_is_one))]
pub fn order_is_one()
    ensures { (g : NeedsGraph) (list other : List ℕ) → IsOrder g list → IsOrder g other →
        list ≡ other }
{}
