ghost use Rattle.std.specs.Prelude.{◌≡◌};
ghost use Rattle.mdl_blocks.specs.Results.{Gives};
ghost use Rattle.mdl_blocks.specs.Blocks as blocks;
ghost use Rattle.mdl_blocks.specs.Held.{body_text, kind_text, system_tree, texts_of, time_said};

use crate::block::Body;
use crate::fault::Fault;
use crate::kind::BlockKind;
use crate::peers::Peers;
use crate::texts::BlockTexts;
use crate::written::{WrittenTime, WrittenType, out_time};
use base_core::{ParamName, TimeText};
use base_fixed_point::TypeText;
use mdl_params::BlockType;
use mdl_tree::Section;

/// A block without a type and a time of its own, which inherits both.
fn bare(kind: BlockKind) -> Body
    ensures { body_text result ≡ blocks.bare (kind_text kind.entry) }
{
    timed(kind, WrittenTime::Known(TimeText::Inherit))
}

/// A block with a time of its own, which inherits its type.
fn timed(kind: BlockKind, time_text: WrittenTime) -> Body
    ensures { body_text result ≡ blocks.timed (kind_text kind.entry) (time_said time_text) }
{
    Body {
        kind,
        type_text: WrittenType::Known(TypeText::Inherit),
        time_text,
    }
}

// Each method reads the parameters of one type of block, in the order in which they are checked.
impl<'a> BlockTexts<'a> {
    fn inport(self, inports: u32) -> Result<Body<'a>, Fault>
        ensures { Gives body_text result (blocks.inport_body inports (texts_of self.entry)) }
    {
        let port = self.port(inports)?;
        let type_text = self.written_type(ParamName::OutDataTypeStr)?;
        let time_text = self.time(ParamName::SampleTime)?;
        self.single()?;
        Ok(Body {
            kind: BlockKind::Inport { port },
            type_text,
            time_text,
        })
    }

    fn outport(self, outports: u32) -> Result<Body<'a>, Fault>
        ensures { Gives body_text result (blocks.outport_body outports (texts_of self.entry)) }
    {
        let port = self.port(outports)?;
        let type_text = self.written_type(ParamName::OutDataTypeStr)?;
        let time_text = self.time(ParamName::SampleTime)?;
        self.single()?;
        let reset = self.reset(ParamName::OutputWhenDisabled)?;
        let initial = self.initial_output()?;
        Ok(Body {
            kind: BlockKind::Outport {
                port,
                reset,
                initial,
            },
            type_text,
            time_text,
        })
    }

    fn subsystem(self, system: Option<&'a Section>) -> Result<Body<'a>, Fault>
        ensures { Gives body_text result
            (blocks.subsystem_body (system_tree system.entry) (texts_of self.entry)) }
    {
        let system = system.ok_or(Fault::Unsupported)?;
        self.inherited_time()?;
        Ok(bare(BlockKind::SubSystem { system }))
    }

    fn constant_body(self) -> Result<Body<'a>, Fault>
        ensures { Gives body_text result (blocks.constant_body (texts_of self.entry)) }
    {
        let value = self.constant()?;
        let type_text = self.written_type(ParamName::OutDataTypeStr)?;
        let time_text = self.any_time()?;
        Ok(Body {
            kind: BlockKind::Constant(value),
            type_text,
            time_text,
        })
    }

    fn gain(self) -> Result<Body<'a>, Fault>
        ensures { Gives body_text result (blocks.gain_body (texts_of self.entry)) }
    {
        let factor = self.factor()?;
        let factor_type = self.written_type(ParamName::ParamDataTypeStr)?;
        let type_text = self.written_type(ParamName::OutDataTypeStr)?;
        let how = self.how()?;
        let time_text = self.time(ParamName::SampleTime)?;
        Ok(Body {
            kind: BlockKind::Gain {
                factor,
                factor_type,
                how,
            },
            type_text,
            time_text,
        })
    }

    fn sum(self) -> Result<Body<'a>, Fault>
        ensures { Gives body_text result (blocks.sum_body (texts_of self.entry)) }
    {
        let signs = self.signs()?;
        let type_text = self.written_type(ParamName::OutDataTypeStr)?;
        let how = self.how()?;
        let time_text = self.time(ParamName::SampleTime)?;
        Ok(Body {
            kind: BlockKind::Sum { signs, how },
            type_text,
            time_text,
        })
    }

    fn product(self) -> Result<Body<'a>, Fault>
        ensures { Gives body_text result (blocks.product_body (texts_of self.entry)) }
    {
        let count = self.product_inputs()?;
        let type_text = self.written_type(ParamName::OutDataTypeStr)?;
        let how = self.how()?;
        let time_text = self.time(ParamName::SampleTime)?;
        Ok(Body {
            kind: BlockKind::Product { count, how },
            type_text,
            time_text,
        })
    }

    fn unit_delay(self) -> Result<Body<'a>, Fault>
        ensures { Gives body_text result (blocks.unit_delay_body (texts_of self.entry)) }
    {
        let initial = self.number(ParamName::InitialCondition)?;
        let time_text = self.time(ParamName::SampleTime)?;
        Ok(timed(BlockKind::UnitDelay { initial }, time_text))
    }

    fn delay(self) -> Result<Body<'a>, Fault>
        ensures { Gives body_text result (blocks.delay_body (texts_of self.entry)) }
    {
        let length = self.length()?;
        self.only(b"Dialog".as_slice(), ParamName::DelayLengthSource)?;
        let initial = self.number(ParamName::InitialCondition)?;
        self.only(b"Dialog".as_slice(), ParamName::InitialConditionSource)?;
        self.only(b"None".as_slice(), ParamName::ExternalReset)?;
        let time_text = self.time(ParamName::SampleTime)?;
        Ok(timed(BlockKind::Delay { length, initial }, time_text))
    }

    fn hold(self) -> Result<Body<'a>, Fault>
        ensures { Gives body_text result (blocks.hold_body (texts_of self.entry)) }
    {
        let time_text = self.time(ParamName::SampleTime)?;
        Ok(timed(BlockKind::ZeroOrderHold, time_text))
    }

    fn switch(self) -> Result<Body<'a>, Fault>
        ensures { Gives body_text result (blocks.switch_body (texts_of self.entry)) }
    {
        let criterion = self.criterion()?;
        let threshold = self.number(ParamName::Threshold)?;
        let type_text = self.written_type(ParamName::OutDataTypeStr)?;
        let how = self.how()?;
        let time_text = self.time(ParamName::SampleTime)?;
        Ok(Body {
            kind: BlockKind::Switch {
                criterion,
                threshold,
                how,
            },
            type_text,
            time_text,
        })
    }

    fn relational(self) -> Result<Body<'a>, Fault>
        ensures { Gives body_text result (blocks.relational_body (texts_of self.entry)) }
    {
        let comparison = self.comparison()?;
        let type_text = self.whole_type()?;
        let time_text = self.time(ParamName::SampleTime)?;
        Ok(Body {
            kind: BlockKind::Relational(comparison),
            type_text,
            time_text,
        })
    }

    fn logic(self) -> Result<Body<'a>, Fault>
        ensures { Gives body_text result (blocks.logic_body (texts_of self.entry)) }
    {
        let op = self.operator()?;
        let count = self.logic_inputs(op)?;
        let type_text = self.whole_type()?;
        let time_text = self.time(ParamName::SampleTime)?;
        Ok(Body {
            kind: BlockKind::Logic { op, count },
            type_text,
            time_text,
        })
    }

    fn conversion(self) -> Result<Body<'a>, Fault>
        ensures { Gives body_text result (blocks.conversion_body (texts_of self.entry)) }
    {
        let type_text = self.written_type(ParamName::OutDataTypeStr)?;
        self.kept_value()?;
        let how = self.how()?;
        let time_text = self.time(ParamName::SampleTime)?;
        Ok(Body {
            kind: BlockKind::Convert(how),
            type_text,
            time_text,
        })
    }

    fn transition(self) -> Result<Body<'a>, Fault>
        ensures { Gives body_text result (blocks.transition_body (texts_of self.entry)) }
    {
        self.only(b"on".as_slice(), ParamName::Integrity)?;
        self.only(b"on".as_slice(), ParamName::Deterministic)?;
        let initial = self.number(ParamName::InitialCondition)?;
        let inherits = self.inherits_time()?;
        let time = self.time(ParamName::OutPortSampleTime)?;
        Ok(bare(BlockKind::RateTransition {
            initial,
            out: out_time(inherits, time),
        }))
    }

    fn enable_port(self) -> Result<Body<'a>, Fault>
        ensures { Gives body_text result (blocks.enable_body (texts_of self.entry)) }
    {
        let reset = self.reset(ParamName::StatesWhenEnabling)?;
        Ok(bare(BlockKind::EnablePort { reset }))
    }

    fn trigger_port(self) -> Result<Body<'a>, Fault>
        ensures { Gives body_text result (blocks.trigger_body (texts_of self.entry)) }
    {
        let edge = self.edge()?;
        Ok(bare(BlockKind::TriggerPort(edge)))
    }

    /// What a block of this type is, in a system with so many Inports and Outports, with this System inside it if there is
    /// one.
    pub(crate) fn body(
        self,
        block_type: BlockType,
        peers: Peers,
        system: Option<&'a Section>,
    ) -> Result<Body<'a>, Fault>
        ensures { Gives body_text result
            (blocks.body_of peers (system_tree system.entry) (texts_of self.entry) block_type) }
    {
        match block_type {
            BlockType::Inport => self.inport(peers.inports),
            BlockType::Outport => self.outport(peers.outports),
            BlockType::SubSystem => self.subsystem(system),
            BlockType::Constant => self.constant_body(),
            BlockType::Ground => Ok(bare(BlockKind::Ground)),
            BlockType::Terminator => Ok(bare(BlockKind::Terminator)),
            BlockType::Gain => self.gain(),
            BlockType::Sum => self.sum(),
            BlockType::Product => self.product(),
            BlockType::UnitDelay => self.unit_delay(),
            BlockType::Delay => self.delay(),
            BlockType::ZeroOrderHold => self.hold(),
            BlockType::Switch => self.switch(),
            BlockType::RelationalOperator => self.relational(),
            BlockType::Logic => self.logic(),
            BlockType::DataTypeConversion => self.conversion(),
            BlockType::RateTransition => self.transition(),
            BlockType::EnablePort => self.enable_port(),
            BlockType::TriggerPort => self.trigger_port(),
        }
    }
}
