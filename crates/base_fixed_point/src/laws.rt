ghost use Rattle.base_fixed_point.specs.Rounding.{RoundingIsOne};
ghost use Rattle.base_fixed_point.specs.Conversion.{ConversionIsOne};

/// Each rule of rounding has just one number.
pub fn rounding_is_one()
    ensures { RoundingIsOne }
{}

/// A conversion has just one result, and it lies in the type.
pub fn conversion_is_one()
    ensures { ConversionIsOne }
{}
