/// Why a text is no value of a parameter.
#[derive(Clone, Copy, Debug, PartialEq, Eq, Drop)]
pub enum ParamFault {
    /// It hasn't the parameter's form.
    Parameter,
    /// It is a floating-point type.
    Float,
    /// It is the sample time of a continuous block.
    Continuous,
}
