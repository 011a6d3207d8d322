ghost use Rattle.std.specs.Prelude.{◌≡◌, ◌<◌, ◌≤◌, ◌^◌, ◌↔◌, IfOk, IsTrue};
ghost use Rattle.std.specs.String.{string_bytes};
ghost use Rattle.modules_report.specs.Following.{CanComeFirst, controls_with};
ghost use Rattle.modules_report.specs.Reports.{IsSetOf};
ghost use Rattle.modules_report.specs.Heads.{HasSets, IsPossible, head_ports, head_text, own_bit};

use crate::following::can_come_first;
use crate::lines::{has, push_head_line};
use base_core::{Memory, Port};
use modules_profile::Function;
use std::alloc::Global;

/// What the line of a system says: the root, or a row, and how many inputs, outputs and functions it has, and which
/// controls.
#[derive(Clone, Copy, Debug, PartialEq, Eq, Drop)]
pub(crate) struct Head {
    pub row: Option<u32>,
    pub inputs: u32,
    pub outputs: u32,
    pub functions: u32,
    pub enabled: bool,
    pub triggered: bool,
}

impl Head {
    /// Whether there is such a system. The only error is out of memory.
    pub(crate) fn is_possible(self, alloc: Global) -> Result<bool, Memory>
        ensures can { IfOk result (λ can. IsTrue can → IsPossible self) }
        ensures only { IfOk result (λ can. IsPossible self → IsTrue can) }
    {
        if self.inputs > 32 || self.outputs > 32 || !self.has_sets() {
            return Ok(false);
        }
        can_come_first(alloc, self.outputs, self.functions as usize, &[])
    }

    // Whether there are as many sets of inputs as functions.
    #[tactic(auto, using(crate::proofs::HeadSets::controls_len))]
    fn has_sets(self) -> bool
        requires { self.inputs ≤ 32 }
        ensures { IsTrue result ↔ HasSets self }
    {
        let ports = self.inputs + u32::from(self.enabled) + u32::from(self.triggered);
        u64::from(self.functions) <= 1 << ports
    }

    // Whether a set is one of the inputs.
    fn has_inputs(self, mask: u64) -> bool
        requires { self.inputs ≤ 32 }
        ensures { IsTrue result ↔ IsSetOf (head_ports self) mask }
    {
        let enable = own_bit(self.enabled, mask, 32);
        let trigger = own_bit(self.triggered, mask, 33);
        mask % (1 << self.inputs) + enable + trigger == mask
    }

    /// Whether functions can come first, of which a last one has these inputs. The only error is out of memory.
    pub(crate) fn can_have(
        self,
        alloc: Global,
        inputs: u64,
        functions: &[Function],
    ) -> Result<bool, Memory>
        requires inputs { self.inputs ≤ 32 }
        requires outputs { self.outputs ≤ 32 }
        ensures set { IfOk result (λ can. IsTrue can → IsSetOf (head_ports self) inputs) }
        ensures first { IfOk result (λ can. IsTrue can →
            CanComeFirst self.outputs self.functions functions.now) }
        ensures only { IfOk result (λ can. IsSetOf (head_ports self) inputs
            → CanComeFirst self.outputs self.functions functions.now → IsTrue can) }
    {
        if !self.has_inputs(inputs) {
            return Ok(false);
        }
        can_come_first(alloc, self.outputs, self.functions as usize, functions)
    }

    /// The line. The only error is out of memory.
    pub(crate) fn line(self, alloc: Global) -> Result<String, Memory>
        ensures { IfOk result (λ line. string_bytes line ≡ head_text self) }
    {
        let controls = self.controls(alloc)?;
        let mut line = String::new(alloc);
        push_head_line(
            &mut line,
            self.row,
            self.inputs,
            self.outputs,
            self.functions as usize,
            &controls,
        )?;
        Ok(line)
    }

    /// The controls, an enable before a trigger.
    pub(crate) fn controls(self, alloc: Global) -> Result<Vec<Port>, Memory>
        ensures { IfOk result (λ ports. ports.items ≡ controls_with self.enabled self.triggered) }
    {
        let mut ports = Vec::new(alloc);
        if self.enabled {
            ports.push(Port::Enable)?;
        }
        if self.triggered {
            ports.push(Port::Trigger)?;
        }
        Ok(ports)
    }
}

// The set of a control that a system has and a set holds, or the empty one.
fn own_bit(control: bool, mask: u64, bit: u32) -> u64
    requires { bit < 34 }
    ensures own { result ≡ own_bit control mask bit }
    ensures bound { result ≤ 2 ^ bit }
{
    if control && has(mask, bit) {
        1 << bit
    } else {
        0
    }
}
