ghost use Rattle.std.specs.Prelude.{◌≡◌};
ghost use Rattle.base_fixed_point.specs.Types.{boolean};
ghost use Rattle.mdl_blocks.specs.Rows as rows;

use crate::block::Body;
use crate::fault::Fault;
use crate::kind::BlockKind;
use crate::signs::SignMask;
use crate::written::{WrittenConstant, WrittenTime, WrittenType};
use base_core::{Control, Decimal, TimeText};
use base_fixed_point::{FixType, TypeText};
use diagram_blocks::{GainText, How, Kind};

/// What the row of a block says.
#[derive(Clone, Copy, Debug, PartialEq, Eq, Drop)]
pub struct RowText {
    /// What the row is.
    pub kind: Kind,
    /// The type that is written, or inherited.
    pub type_text: TypeText,
    /// The sample time that is written, or inherited.
    pub time_text: TimeText,
}

impl WrittenTime {
    /// The time, or the error of a period 0.
    fn known(self) -> Result<TimeText, Fault>
        ensures { result ≡ rows.known_time self }
    {
        match self {
            WrittenTime::Known(text) => Ok(text),
            WrittenTime::Zero => Err(Fault::Continuous),
        }
    }

    /// The kind of a rate transition whose output has this time.
    fn rate_transition(self, initial: Decimal) -> Result<Kind, Fault>
        ensures { result ≡ rows.rate_transition_kind initial self }
    {
        let out = self.known()?;
        Ok(Kind::RateTransition { initial, out })
    }
}

impl SignMask {
    /// The kind of a sum with these signs.
    fn sum(self, how: How) -> Kind
        ensures { result ≡ rows.sum_kind self how }
    {
        Kind::Sum {
            count: self.count,
            minus: self.minus,
            how,
        }
    }
}

impl WrittenType {
    /// The type, or the error of a floating-point type.
    fn known(self) -> Result<TypeText, Fault>
        ensures { result ≡ rows.known_type self }
    {
        match self {
            WrittenType::Known(text) => Ok(text),
            WrittenType::Float => Err(Fault::FloatType),
        }
    }

    /// The kind of a gain whose factor has this type.
    fn gain(self, factor: Decimal, how: How) -> Result<Kind, Fault>
        ensures { result ≡ rows.gain_kind factor self how }
    {
        let gain = gain_with(factor, self.known()?);
        Ok(Kind::Gain { gain, how })
    }

    /// Whether it is that of the block's rule.
    fn is_inherited(self) -> bool
        ensures { result ≡ rows.is_inherited self }
    {
        matches!(self, WrittenType::Known(TypeText::Inherit))
    }
}

impl WrittenConstant {
    /// The kind of the constant, whose type must not be that of a number.
    fn kind(self, type_text: WrittenType) -> Result<Kind, Fault>
        ensures { result ≡ rows.constant_kind self type_text }
    {
        if type_text.is_inherited() && !self.is_truth {
            return Err(Fault::FloatType);
        }
        Ok(Kind::Constant(self.value))
    }
}

/// The type of truth values.
fn boolean() -> FixType
    ensures { result ≡ boolean }
{
    FixType {
        signed: false,
        bits: 1,
        frac: 0,
    }
}

/// A gain by the type of its factor: a written type, or one of its own.
fn gain_with(factor: Decimal, factor_type: TypeText) -> GainText
    ensures { result ≡ rows.gain_with factor factor_type }
{
    match factor_type {
        TypeText::Inherit | TypeText::Back => GainText::Own(factor),
        TypeText::Logical => GainText::Typed(factor, boolean()),
        TypeText::Fixed(fixed) => GainText::Typed(factor, fixed),
    }
}

impl BlockKind<'_> {
    /// The kind of the row, for a block of this type, with this control where it is a subsystem.
    fn row_kind(self, type_text: WrittenType, control: Control) -> Result<Kind, Fault>
        ensures { result ≡ rows.row_kind self.entry type_text control }
    {
        Ok(match self {
            BlockKind::Inport { port } => Kind::Inport { port },
            BlockKind::Outport {
                port,
                reset,
                initial,
            } => Kind::Outport {
                port,
                reset,
                initial,
            },
            BlockKind::SubSystem { .. } => Kind::SubSystem(control),
            BlockKind::Constant(constant) => constant.kind(type_text)?,
            BlockKind::Ground => Kind::Ground,
            BlockKind::Terminator => Kind::Terminator,
            BlockKind::Gain {
                factor,
                factor_type,
                how,
            } => factor_type.gain(factor, how)?,
            BlockKind::Sum { signs, how } => signs.sum(how),
            BlockKind::Product { count, how } => Kind::Product { count, how },
            BlockKind::UnitDelay { initial } => Kind::UnitDelay { initial },
            BlockKind::Delay { length, initial } => Kind::Delay { length, initial },
            BlockKind::ZeroOrderHold => Kind::ZeroOrderHold,
            BlockKind::Switch {
                criterion,
                threshold,
                how,
            } => Kind::Switch {
                criterion,
                threshold,
                how,
            },
            BlockKind::Relational(comparison) => Kind::Relational(comparison),
            BlockKind::Logic { op, count } => Kind::Logic { op, count },
            BlockKind::Convert(how) => Kind::Convert(how),
            BlockKind::RateTransition { initial, out } => out.rate_transition(initial)?,
            BlockKind::EnablePort { .. } => Kind::EnablePort,
            BlockKind::TriggerPort(_) => Kind::TriggerPort,
        })
    }
}

impl Body<'_> {
    /// What the row of the block says, with this control where it is a subsystem.
    ///
    /// Fails with `Continuous` exactly where a period 0 is written for its time, or that of its output, and else with
    /// `FloatType` exactly where a floating-point type is written, or the type of a constant would be that of a number.
    pub fn row(self, control: Control) -> Result<RowText, Fault>
        ensures { result ≡ rows.row_of self.entry control }
    {
        let time_text = self.time_text.known()?;
        let kind = self.kind.row_kind(self.type_text, control)?;
        let type_text = self.type_text.known()?;
        Ok(RowText {
            kind,
            type_text,
            time_text,
        })
    }
}
