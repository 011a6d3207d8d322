ghost use Rattle.std.specs.Prelude.{◌≡◌};
ghost use Rattle.base_graph.specs.declared.fault.OrderFault.TheVariants as fault;

/// Why a graph has no order.
#[derive(Debug, Drop)]
pub enum OrderFault {
    /// These nodes form a cycle: each needs the next one, and the last the first.
    Cycle(Vec<u32>),
    /// There was no memory.
    Memory,
}

impl From<base_core::Memory> for OrderFault {
    ghost from_gives = { λ _ given. given ≡ fault.Memory };

    fn from(_memory: base_core::Memory) -> OrderFault {
        OrderFault::Memory
    }
}
