ghost use Rattle.std.specs.Prelude.{◌≡◌, IfOk, map};
ghost use Rattle.emit_system_spec.specs.EmittedCode.{joined};
ghost use Rattle.emit_system_spec.specs.Emittable.{IsEmittable};
ghost use Rattle.emit_system_spec.specs.Groups.{own_count};
ghost use Rattle.emit_system_spec.specs.NodeCode as node;
ghost use Rattle.emit_nodes.specs.Code.{code_of};

use crate::children::ChildCall;
use crate::lists::push_code;
use crate::rows::value_code;
use base_core::Memory;
use c_syntax::Stmt;
use emit_layout::{Layout, Params};
use emit_system_spec::Place;
use std::alloc::Global;

/// The statements for a node; for none of the system's there are none.
///
/// Fails only when memory runs out.
fn node_code(
    alloc: Global,
    layout: &Layout<'_>,
    params: &Params,
    place: Place,
) -> Result<Vec<Stmt>, Memory>
    requires { IsEmittable layout.now.local layout.now.schedule }
    ensures { IfOk result (λ v. code_of v.items
        ≡ node.node_code layout.now.local (own_count layout.now.schedule) params.now place) }
{
    let local = layout.local();
    match place {
        Place::Row(own) => match local.rows.as_slice().get(own) {
            Some(row) => value_code(alloc, layout, params, row),
            None => Ok(Vec::new(alloc)),
        },
        Place::Call { child, function } => match local.children.as_slice().get(child) {
            Some(used) => {
                let call = ChildCall {
                    place: child,
                    child: used,
                    function,
                };
                call.code(alloc, layout, params)
            }
            None => Ok(Vec::new(alloc)),
        },
    }
}

/// The statements for the node at a position of the system's nodes.
///
/// Fails only when memory runs out.
fn code_at(alloc: Global, layout: &Layout<'_>, params: &Params, n: u32) -> Result<Vec<Stmt>, Memory>
    requires { IsEmittable layout.now.local layout.now.schedule }
    ensures { IfOk result (λ v. code_of v.items
        ≡ node.code_at layout.now.local (own_count layout.now.schedule) params.now n) }
{
    match layout.node_places().get(n as usize) {
        Some(place) => node_code(alloc, layout, params, *place),
        None => Ok(Vec::new(alloc)),
    }
}

/// The statements for some of the system's nodes, in this order.
///
/// Fails only when memory runs out.
pub fn nodes_code(
    alloc: Global,
    layout: &Layout<'_>,
    params: &Params,
    nodes: &[u32],
) -> Result<Vec<Stmt>, Memory>
    requires { IsEmittable layout.now.local layout.now.schedule }
    ensures { let of = layout.now in IfOk result (λ v. code_of v.items
        ≡ joined (map (node.code_at of.local (own_count of.schedule) params.now) nodes.now)) }
{
    let mut code = Vec::new(alloc);
    for n in nodes {
        push_code(&mut code, code_at(alloc, layout, params, *n)?)?;
    }
    Ok(code)
}
