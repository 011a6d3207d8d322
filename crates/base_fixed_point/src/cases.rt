ghost use Rattle.std.specs.Prelude.{◌≡◌};
ghost use Rattle.base_fixed_point.specs.Conversion as rule;

use crate::types::{Case, CaseTable, Over, Round};

/// Each case of a conversion once, by rounding, then overflow, then sign.
pub fn all_cases() -> CaseTable<24>
    ensures { result.cases ≡ rule.all_cases }
{
    macro_rules! table {
        ($($round:ident)*) => {
            CaseTable {
                cases: [
                    $(
                        Case { round: Round::$round, over: Over::Saturate, signed: false },
                        Case { round: Round::$round, over: Over::Saturate, signed: true },
                        Case { round: Round::$round, over: Over::Wrap, signed: false },
                        Case { round: Round::$round, over: Over::Wrap, signed: true },
                    )*
                ],
            }
        };
    }
    table!(Ceiling Convergent Floor Nearest Round Zero)
}
