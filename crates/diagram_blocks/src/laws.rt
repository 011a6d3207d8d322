ghost use Rattle.diagram_blocks.specs.Laws.{NarrowRowsFit, ValuesStayInType};

/// The value of a row lies in its type.
pub fn values_stay_in_type()
    ensures { ValuesStayInType }
{}

/// Where a row counts at most 62 bits, every number on the way to its value fits 64 bits with a sign.
pub fn narrow_rows_fit()
    ensures { NarrowRowsFit }
{}
