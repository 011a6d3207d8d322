ghost use Rattle.mdl_params.specs.Forms.{number_form, type_form, fault_of_type, ReadsNumberAs, ReadsTypeAs};
ghost use Rattle.std.specs.Prelude.{◌≡◌};

use crate::fault::ParamFault;
use base_core::Decimal;
use base_fixed_point::{TypeFault, TypeText};
use base_numerals::read_decimal;
use mdl_type_texts::read_type;

/// The exact value of a number's text, as `read_decimal` gives it.
///
/// Fails with `Parameter` at any text that is no number within the limits.
pub fn number(text: &[u8]) -> Result<Decimal, ParamFault>
    ensures { ReadsNumberAs result (number_form text.now) }
{
    read_decimal(text).map_err(|_| ParamFault::Parameter)
}

/// What a type's text means, as `read_type` gives it.
///
/// Fails with `Float` exactly at the name of a floating-point type, and with `Parameter` at any other text
/// that means no type.
pub fn type_of(text: &[u8]) -> Result<TypeText, ParamFault>
    ensures { ReadsTypeAs result (type_form text.now) }
{
    match read_type(text) {
        Ok(meaning) => Ok(meaning),
        Err(TypeFault::Float) => Err(ParamFault::Float),
        Err(TypeFault::Form | TypeFault::Range) => Err(ParamFault::Parameter),
    }
}
