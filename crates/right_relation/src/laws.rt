ghost use Rattle.right_relation.specs.BudgetLaws.{BudgetsSumToBound};
ghost use Rattle.right_relation.specs.ExecutedNodes.{CallIsExecuted, CallIsOneChild, RowIsExecuted, RowIsNoField, RowIsOneField, StandingHasSlots};
ghost use Rattle.right_relation.specs.Rings.{BegunIsRing, EmptiedIsRing, MovedIsRing};
ghost use Rattle.right_relation.specs.RunTickLaws.{ChildrenMeetTheirTicks, CycleIsOfLocals, TicksAreLocal, LocalTicksAreTyped, TicksFollow};
ghost use Rattle.right_relation.specs.SoundLocals.{LocalsAreSound};
ghost use Rattle.right_relation.specs.StandingLaws.{FirstStands, NeededGroupIsEarlier, NeededIsHeld, NextStands, OutportIsHeldAlone};

use diagram_meaning::{
    periods_divide_cycle, resolved_cycles_are_short, resolved_cycles_have_ticks,
};
use modules_profile::{header_is_of_own_rows, locals_are_lawful};

/// A ring that was begun holds the start.
pub fn begun_is_ring()
    ensures { BegunIsRing }
{}

/// A ring that was emptied holds the start.
pub fn emptied_is_ring()
    ensures { EmptiedIsRing }
{}

/// A ring that moves holds the memory that moves.
pub fn moved_is_ring()
    ensures { MovedIsRing }
{}

/// The fields that a tick leaves are those with which the next tick begins.
pub fn next_stands()
    ensures { NextStands }
{}

/// The fields that a start leaves are those with which the first tick begins.
pub fn first_stands()
    ensures { FirstStands }
{}

/// Each tick of a run is a tick for the own rows of each system inside.
pub fn ticks_are_local()
    ensures { TicksAreLocal }
{}

/// One tick of a run follows the other.
pub fn ticks_follow()
    ensures { TicksFollow }
{}

/// All hits of a system repeat after the model's cycle.
pub fn cycle_is_of_locals()
    ensures { CycleIsOfLocals }
{
    periods_divide_cycle();
    resolved_cycles_have_ticks();
    resolved_cycles_are_short();
}

/// Where a trace lies in its types, so does each tick of each system inside.
pub fn ticks_are_typed()
    ensures { LocalTicksAreTyped }
{
    header_is_of_own_rows();
    diagram_typed_runs::ticks_are_typed();
}

/// A child meets the tick that its own rows have.
pub fn children_meet_their_ticks()
    ensures { ChildrenMeetTheirTicks }
{
    header_is_of_own_rows();
}

/// The budgets of all systems, and a tick's own steps of the root, sum to the bound.
pub fn budgets_sum_to_bound()
    ensures { BudgetsSumToBound }
{
    header_is_of_own_rows();
}

/// What a node needs is held by each function that holds the node.
pub fn needed_is_held()
    ensures { NeededIsHeld }
{}

/// The group of a needed node comes before that of the node, or is the same.
pub fn needed_group_is_earlier()
    ensures { NeededGroupIsEarlier }
{}

/// An own output is held by the function that gives it, and by no other.
pub fn outport_is_held_alone()
    ensures { OutportIsHeldAlone }
{}

/// Each system of a resolved model is sound by its own rows.
pub fn locals_are_sound()
    ensures { LocalsAreSound }
{
    locals_are_lawful();
}

/// The fields of an instance in a typed tick have the struct's shape.
pub fn standing_has_slots()
    ensures { StandingHasSlots }
{}

/// One row more that was executed is one field more.
pub fn row_is_one_field()
    ensures { RowIsOneField }
{}

/// A row without a value that was executed changes no field.
pub fn row_is_no_field()
    ensures { RowIsNoField }
{}

/// One call more that was executed is one child further, where the system is active.
pub fn call_is_one_child()
    ensures { CallIsOneChild }
{}

/// The code of a row leads from one set of executed nodes to the next, where what the row needs was executed.
pub fn row_is_executed()
    ensures { RowIsExecuted }
{}

/// The code of a call leads from one set of executed nodes to the next, where what the call needs was executed.
pub fn call_is_executed()
    ensures { CallIsExecuted }
{}
