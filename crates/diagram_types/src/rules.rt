ghost use Rattle.std.specs.Prelude.{◌≡◌};
ghost use Rattle.diagram_meaning.specs.Types as type;
ghost use Rattle.diagram_meaning.specs.TypeRefusals as refusal;
ghost use Rattle.diagram_types.specs.Rules.{rule_held};

use crate::rows::{boolean, first_wire};
use base_fixed_point::{FixType, TypeText};
use diagram_blocks::Kind;
use diagram_meaning::Row;

/// What a row's rule says of its type: that it is this one, or that of another row, or that there is none.
#[derive(Clone, Copy, Debug, PartialEq, Eq, Drop)]
pub(crate) enum Rule {
    Known(FixType),
    SameAs(u32),
    NoRule,
}

/// The rule of a row.
pub(crate) fn type_rule(row: &Row) -> Rule
    ensures { rule_held result
        ≡ type.rule_of row.now.type_text (type.inherited_rule row.now.kind row.now.inputs) }
{
    match row.type_text {
        TypeText::Inherit => inherited_rule(row),
        TypeText::Logical => Rule::Known(boolean()),
        TypeText::Back => Rule::NoRule,
        TypeText::Fixed(t) => Rule::Known(t),
    }
}

/// The rule of a row whose type is inherited.
fn inherited_rule(row: &Row) -> Rule
    ensures { rule_held result ≡ type.inherited_rule row.now.kind row.now.inputs }
{
    match row.kind {
        Kind::SubSystem(_)
        | Kind::Ground
        | Kind::Terminator
        | Kind::EnablePort
        | Kind::TriggerPort => Rule::NoRule,
        Kind::Constant(_) | Kind::Relational(_) | Kind::Logic { .. } => Rule::Known(boolean()),
        _ => first_input(row),
    }
}

/// The rule that a row has the type of its first input.
fn first_input(row: &Row) -> Rule
    ensures { rule_held result ≡ type.first_input row.now.inputs }
{
    match first_wire(row) {
        Some(input) => Rule::SameAs(input),
        None => Rule::NoRule,
    }
}

/// The type that a row writes, if it writes one.
pub(crate) fn written_type(row: &Row) -> Option<FixType>
    ensures { result ≡ refusal.known_type (type.rule_of row.now.type_text type.NoRule) }
{
    match row.type_text {
        TypeText::Inherit | TypeText::Back => None,
        TypeText::Logical => Some(boolean()),
        TypeText::Fixed(t) => Some(t),
    }
}
