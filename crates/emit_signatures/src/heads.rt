ghost use Rattle.std.specs.Prelude.{◌≡◌, ◌<◌, [], ◌∷◌, ◌++◌, All, IfOk, OnOk, map};
ghost use Rattle.base_core.specs.Ports.{bit_of as bit_of_port, has_bit as has_bit_of};
ghost use Rattle.emit_shape.specs.Heads.{now_param};
ghost use Rattle.emit_system_spec.specs.Heads as heads;

use base_core::{Control, Memory, Port};
use base_fixed_point::FixType;
use c_syntax::CType;
use emit_layout::{Parameter, Params, port_parameter};
use emit_row_facts::container;
use modules_profile::Function;
use std::alloc::Global;

/// The parameters for the tick and for all of these ports of a system that is controlled so.
pub(crate) fn all_params(
    alloc: Global,
    control: Control,
    ports: &[(Port, FixType)],
) -> Result<Params, Memory>
    ensures { IfOk result (λ p. p ≡ now_param ∷ map (heads.port_param control) ports.now) }
{
    let mut params = now_only(alloc)?;
    for (port, number) in ports {
        push_port(control, *port, *number, &mut params)?;
    }
    Ok(params)
}

/// The parameters for the tick and for those of these ports that a function takes.
pub(crate) fn params_of_function(
    alloc: Global,
    control: Control,
    function: &Function,
    ports: &[(Port, FixType)],
) -> Result<Params, Memory>
    requires { All (λ e. bit_of_port e.0 < 64) ports.now }
    ensures { IfOk result (λ p. p
        ≡ now_param
        ∷ heads.params_where control (λ port. has_bit_of function.now.inputs (bit_of_port port))
        ports.now) }
{
    let mut params = now_only(alloc)?;
    for (port, number) in ports {
        if has_port(function.inputs, *port) {
            push_port(control, *port, *number, &mut params)?;
        }
    }
    Ok(params)
}

/// The parameters for the tick, for those of these ports that are of some Inports, and for the controls.
pub(crate) fn params_of_ports(
    alloc: Global,
    control: Control,
    inports: &[u32],
    ports: &[(Port, FixType)],
) -> Result<Params, Memory>
    ensures { IfOk result (λ p. p
        ≡ now_param ∷ heads.params_where control (heads.takes inports.now) ports.now) }
{
    let mut params = now_only(alloc)?;
    for (port, number) in ports {
        if takes(inports, *port) {
            push_port(control, *port, *number, &mut params)?;
        }
    }
    Ok(params)
}

// The parameter for the tick.
fn now_only(alloc: Global) -> Result<Params, Memory>
    ensures { IfOk result (λ p. p ≡ now_param ∷ []) }
{
    let mut params = Params::new(alloc);
    params.push(Parameter::Now, CType::I32)?;
    Ok(params)
}

// Adds the parameter for an input.
fn push_port(
    control: Control,
    port: Port,
    number: FixType,
    params: &mut Params,
) -> Result<(), Memory>
    ensures { OnOk result (params.new ≡ params.old ++ heads.port_param control (port, number)
        ∷ []) }
{
    params.push(port_parameter(control, port), container(number))
}

// Whether a group takes an input, where these are the ports of the Inports among its nodes.
fn takes(inports: &[u32], port: Port) -> bool
    ensures { result ≡ heads.takes inports.now port }
{
    match port {
        Port::Number(k) => inports.contains(&k),
        Port::Enable | Port::Trigger => true,
    }
}

// Whether an input is in a mask.
fn has_port(mask: u64, port: Port) -> bool
    requires { bit_of_port port < 64 }
    ensures { result ≡ has_bit_of mask (bit_of_port port) }
{
    mask & (1 << port.bit()) != 0
}
