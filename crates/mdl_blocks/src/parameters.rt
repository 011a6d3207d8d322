ghost use Rattle.std.specs.Prelude.{◌≡◌};
ghost use Rattle.base_numerals.specs.Literals.{ratio_of};
ghost use Rattle.base_core.specs.declared.ParamName.TheVariants.{ConvertRealWorld, Criteria, DelayLength, InitialOutput, Inputs, Operator, OutDataTypeStr, OutPortSampleTimeOpt, PortDimensions, RndMeth, SampleTime, SaturateOnIntegerOverflow, SystemSampleTime, TriggerType};
ghost use Rattle.base_core.specs.declared.ParamName.TheVariants as param;
ghost use Rattle.mdl_blocks.specs.Results.{Gives};
ghost use Rattle.mdl_blocks.specs.Words.{comparisons, criteria, edges, factor_in, inheritances, initial_output_in, logics, number_in, number_up_to, overs, resets, rounds, samples_in, writes_minus_one};
ghost use Rattle.mdl_blocks.specs.Signs.{logic_count, product_count, sum_signs};
ghost use Rattle.mdl_blocks.specs.Meanings.{any_time_in, constant_in, time_in, type_in, whole_type_in};
ghost use Rattle.mdl_blocks.specs.Blocks.{required, named, unless_fault, checked, is_single, keeps_value, how_of, only};
ghost use Rattle.mdl_blocks.specs.Held.{texts_of, type_said, time_said, constant_said};

use crate::fault::Fault;
use crate::numbers::{
    factor_in, initial_output_in, is_single, number_in, number_up_to, samples_in, writes_minus_one,
};
use crate::signs::{SignMask, logic_count, product_count, sum_signs};
use crate::texts::BlockTexts;
use crate::words::{
    comparison_named, criterion_named, edge_named, inheritance_named, keeps_value, logic_named,
    over_named, reset_named, round_named,
};
use crate::written::{
    WrittenConstant, WrittenTime, WrittenType, any_time_in, constant_in, time_in, type_in,
    whole_type_in,
};
use base_core::{Compare, Decimal, Edge, ParamName};
use base_fixed_point::{Over, Round};
use diagram_blocks::{Criterion, How, Logic};

/// The error of this parameter, unless a test passed.
fn unless_fault(passes: bool, name: ParamName) -> Result<(), Fault>
    ensures { result ≡ unless_fault passes name }
{
    if passes {
        Ok(())
    } else {
        Err(Fault::Parameter(name))
    }
}

// Each method looks up one parameter and reads its text, once. It fails with the error of that parameter exactly where
// its text is not of the form.
impl<'a> BlockTexts<'a> {
    /// The port of an Inport or Outport, of which the system has so many.
    pub(crate) fn port(self, most: u32) -> Result<u32, Fault>
        ensures { result ≡ required (number_up_to most) (texts_of self.entry) param.Port }
    {
        let text = self.text(ParamName::Port)?;
        number_up_to(most, text).ok_or(Fault::Parameter(ParamName::Port))
    }

    /// A number.
    pub(crate) fn number(self, name: ParamName) -> Result<Decimal, Fault>
        ensures { Gives ratio_of result (required number_in (texts_of self.entry) name) }
    {
        number_in(self.text(name)?).ok_or(Fault::Parameter(name))
    }

    /// The number of a constant.
    pub(crate) fn constant(self) -> Result<WrittenConstant, Fault>
        ensures { Gives constant_said result
            (required constant_in (texts_of self.entry) param.Value) }
    {
        constant_in(self.text(ParamName::Value)?).ok_or(Fault::Parameter(ParamName::Value))
    }

    /// The factor of a gain.
    pub(crate) fn factor(self) -> Result<Decimal, Fault>
        ensures { Gives ratio_of result (required factor_in (texts_of self.entry) param.Gain) }
    {
        factor_in(self.text(ParamName::Gain)?).ok_or(Fault::Parameter(ParamName::Gain))
    }

    /// The initial output of an Outport.
    pub(crate) fn initial_output(self) -> Result<Decimal, Fault>
        ensures { Gives ratio_of result (required initial_output_in (texts_of self.entry) InitialOutput) }
    {
        let text = self.text(ParamName::InitialOutput)?;
        initial_output_in(text).ok_or(Fault::Parameter(ParamName::InitialOutput))
    }

    /// A type.
    pub(crate) fn written_type(self, name: ParamName) -> Result<WrittenType, Fault>
        ensures { Gives type_said result (required type_in (texts_of self.entry) name) }
    {
        type_in(self.text(name)?).ok_or(Fault::Parameter(name))
    }

    /// The type of the output, which has no bits after the point.
    pub(crate) fn whole_type(self) -> Result<WrittenType, Fault>
        ensures { Gives type_said result (required whole_type_in (texts_of self.entry) OutDataTypeStr) }
    {
        let text = self.text(ParamName::OutDataTypeStr)?;
        whole_type_in(text).ok_or(Fault::Parameter(ParamName::OutDataTypeStr))
    }

    /// The sample time of a constant, which may be constant.
    pub(crate) fn any_time(self) -> Result<WrittenTime, Fault>
        ensures { Gives time_said result (required any_time_in (texts_of self.entry) SampleTime) }
    {
        let text = self.text(ParamName::SampleTime)?;
        any_time_in(text).ok_or(Fault::Parameter(ParamName::SampleTime))
    }

    /// A sample time that isn't constant.
    pub(crate) fn time(self, name: ParamName) -> Result<WrittenTime, Fault>
        ensures { Gives time_said result (required time_in (texts_of self.entry) name) }
    {
        time_in(self.text(name)?).ok_or(Fault::Parameter(name))
    }

    /// How a result is rounded.
    fn round(self) -> Result<Round, Fault>
        ensures { result ≡ named rounds (texts_of self.entry) RndMeth }
    {
        round_named(self.text(ParamName::RndMeth)?).ok_or(Fault::Parameter(ParamName::RndMeth))
    }

    /// What becomes of a result that doesn't fit.
    fn over(self) -> Result<Over, Fault>
        ensures { result ≡ named overs (texts_of self.entry) SaturateOnIntegerOverflow }
    {
        let text = self.text(ParamName::SaturateOnIntegerOverflow)?;
        over_named(text).ok_or(Fault::Parameter(ParamName::SaturateOnIntegerOverflow))
    }

    /// How a result is brought into its type.
    pub(crate) fn how(self) -> Result<How, Fault>
        ensures { result ≡ how_of (texts_of self.entry) }
    {
        let round = self.round()?;
        let over = self.over()?;
        Ok(How { round, over })
    }

    /// Whether states or outputs are reset.
    pub(crate) fn reset(self, name: ParamName) -> Result<bool, Fault>
        ensures { result ≡ named resets (texts_of self.entry) name }
    {
        reset_named(self.text(name)?).ok_or(Fault::Parameter(name))
    }

    /// What a trigger waits for.
    pub(crate) fn edge(self) -> Result<Edge, Fault>
        ensures { result ≡ named edges (texts_of self.entry) TriggerType }
    {
        let text = self.text(ParamName::TriggerType)?;
        edge_named(text).ok_or(Fault::Parameter(ParamName::TriggerType))
    }

    /// The signs of a sum.
    pub(crate) fn signs(self) -> Result<SignMask, Fault>
        ensures { result ≡ required sum_signs (texts_of self.entry) Inputs }
    {
        sum_signs(self.text(ParamName::Inputs)?).ok_or(Fault::Parameter(ParamName::Inputs))
    }

    /// How many inputs a product has.
    pub(crate) fn product_inputs(self) -> Result<u8, Fault>
        ensures { result ≡ required product_count (texts_of self.entry) Inputs }
    {
        product_count(self.text(ParamName::Inputs)?).ok_or(Fault::Parameter(ParamName::Inputs))
    }

    /// How many inputs a logical operator has.
    pub(crate) fn logic_inputs(self, op: Logic) -> Result<u8, Fault>
        ensures { result ≡ required (logic_count op) (texts_of self.entry) Inputs }
    {
        logic_count(op, self.text(ParamName::Inputs)?).ok_or(Fault::Parameter(ParamName::Inputs))
    }

    /// A logical operator.
    pub(crate) fn operator(self) -> Result<Logic, Fault>
        ensures { result ≡ named logics (texts_of self.entry) Operator }
    {
        logic_named(self.text(ParamName::Operator)?).ok_or(Fault::Parameter(ParamName::Operator))
    }

    /// A comparison.
    pub(crate) fn comparison(self) -> Result<Compare, Fault>
        ensures { result ≡ named comparisons (texts_of self.entry) Operator }
    {
        let text = self.text(ParamName::Operator)?;
        comparison_named(text).ok_or(Fault::Parameter(ParamName::Operator))
    }

    /// When a switch passes its first input.
    pub(crate) fn criterion(self) -> Result<Criterion, Fault>
        ensures { result ≡ named criteria (texts_of self.entry) Criteria }
    {
        let text = self.text(ParamName::Criteria)?;
        criterion_named(text).ok_or(Fault::Parameter(ParamName::Criteria))
    }

    /// How many samples a delay remembers.
    pub(crate) fn length(self) -> Result<u32, Fault>
        ensures { result ≡ required samples_in (texts_of self.entry) DelayLength }
    {
        let text = self.text(ParamName::DelayLength)?;
        samples_in(text).ok_or(Fault::Parameter(ParamName::DelayLength))
    }

    /// Whether the time of a rate transition's output is inherited.
    pub(crate) fn inherits_time(self) -> Result<bool, Fault>
        ensures { result ≡ named inheritances (texts_of self.entry) OutPortSampleTimeOpt }
    {
        let text = self.text(ParamName::OutPortSampleTimeOpt)?;
        inheritance_named(text).ok_or(Fault::Parameter(ParamName::OutPortSampleTimeOpt))
    }

    /// Asks that a parameter is this word.
    pub(crate) fn only(self, word: &[u8], name: ParamName) -> Result<(), Fault>
        ensures { result ≡ only word.now (texts_of self.entry) name }
    {
        let text = self.text(name)?;
        unless_fault(word == text, name)
    }

    /// Asks that signals have one element.
    pub(crate) fn single(self) -> Result<(), Fault>
        ensures { result ≡ checked is_single (texts_of self.entry) PortDimensions }
    {
        let text = self.text(ParamName::PortDimensions)?;
        unless_fault(is_single(text), ParamName::PortDimensions)
    }

    /// Asks that a subsystem inherits its time.
    pub(crate) fn inherited_time(self) -> Result<(), Fault>
        ensures { result ≡ checked writes_minus_one (texts_of self.entry) SystemSampleTime }
    {
        let text = self.text(ParamName::SystemSampleTime)?;
        unless_fault(writes_minus_one(text), ParamName::SystemSampleTime)
    }

    /// Asks that a conversion keeps the real value.
    pub(crate) fn kept_value(self) -> Result<(), Fault>
        ensures { result ≡ checked keeps_value (texts_of self.entry) ConvertRealWorld }
    {
        let text = self.text(ParamName::ConvertRealWorld)?;
        unless_fault(keeps_value(text), ParamName::ConvertRealWorld)
    }
}
