// Types of expressions and of names.
ghost use Rattle.std.specs.Prelude.{◌≡◌, map};
ghost use Rattle.lustre_syntax.specs.Tree.{types_of};
ghost use Rattle.lustre_syntax.specs.Plain.{declared_names};
ghost use Rattle.lustre_syntax.specs.Typing as types;
ghost use Rattle.lustre_grammar.specs.WrittenTrees.{expr_of};
ghost use Rattle.lustre_rules.specs.Resolve.{word_type};
ghost use Rattle.lustre_resolver.specs.Scopes.{names_of, typing_of};

use crate::known::Names;
use base_core::Text;
use lustre_grammar::LusWrittenExpr;
use lustre_syntax::LusOp;

/// What is known of the type of an expression.
#[derive(Clone, Copy, Drop)]
pub(crate) enum Typing {
    /// Types don't agree in it.
    Clash,
    /// Any type may be its type, as far as it is known.
    Open,
    /// It is a `bool`, or else an `int`.
    Known(bool),
}

/// The type of numbers.
const INT: Typing = Typing::Known(false);

/// The type of truth values.
const BOOL: Typing = Typing::Known(true);

impl Typing {
    /// What is known of two things of one type.
    fn meet(self, other: Typing) -> Typing
        ensures { typing_of result ≡ types.meet (typing_of self) (typing_of other) }
    {
        match (self, other) {
            (Typing::Clash, _) | (Typing::Known(_), Typing::Clash) => Typing::Clash,
            (Typing::Open, other) => other,
            (Typing::Known(is_bool), Typing::Open) => Typing::Known(is_bool),
            (Typing::Known(is_bool), Typing::Known(other)) => {
                if is_bool == other {
                    Typing::Known(is_bool)
                } else {
                    Typing::Clash
                }
            }
        }
    }

    /// Another typing, where nothing disagrees in this one.
    fn unless_clash(self, other: Typing) -> Typing
        ensures { typing_of result ≡ types.unless_clash (typing_of self) (typing_of other) }
    {
        match self {
            Typing::Clash => Typing::Clash,
            Typing::Open | Typing::Known(_) => other,
        }
    }

    /// Whether this may be the type.
    fn may_be(self, is_bool: bool) -> bool
        ensures { result ≡ types.no_clash (types.meet (types.known is_bool) (typing_of self)) }
    {
        match self {
            Typing::Clash => false,
            Typing::Open => true,
            Typing::Known(own) => is_bool == own,
        }
    }

    /// The type of a name, if it has one.
    fn of_name(is_bool: Option<bool>) -> Typing
        ensures { typing_of result ≡ types.of_name is_bool }
    {
        match is_bool {
            Some(is_bool) => Typing::Known(is_bool),
            None => Typing::Open,
        }
    }

    /// The type of an operator's two operands.
    fn of_operands(op: LusOp) -> Typing
        ensures { typing_of result ≡ types.operand_type op }
    {
        match op {
            LusOp::Add | LusOp::Sub | LusOp::Mul | LusOp::Div | LusOp::Mod => INT,
            LusOp::Eq | LusOp::Ne => Typing::Open,
            LusOp::Lt | LusOp::Le | LusOp::Gt | LusOp::Ge => INT,
            LusOp::And | LusOp::Or => BOOL,
        }
    }

    /// The type of what an operator gives.
    fn of_result(op: LusOp) -> Typing
        ensures { typing_of result ≡ types.known (types.gives_type op) }
    {
        match op {
            LusOp::Add | LusOp::Sub | LusOp::Mul | LusOp::Div | LusOp::Mod => INT,
            LusOp::Eq | LusOp::Ne | LusOp::Lt | LusOp::Le | LusOp::Gt | LusOp::Ge => BOOL,
            LusOp::And | LusOp::Or => BOOL,
        }
    }

    /// What is known of the type of an expression.
    fn of(names: &Names, e: &LusWrittenExpr) -> Typing
        ensures { typing_of result ≡ types.typing (word_type (names_of names.now)) (expr_of e.now) }
    {
        match e {
            LusWrittenExpr::Number(_) => INT,
            LusWrittenExpr::Truth(_) => BOOL,
            LusWrittenExpr::Name(word) | LusWrittenExpr::Pre(word) => {
                Typing::of_name(names.word_type(*word))
            }
            LusWrittenExpr::Neg(operand) => INT.meet(Typing::of(names, operand)).unless_clash(INT),
            LusWrittenExpr::Not(operand) => {
                BOOL.meet(Typing::of(names, operand)).unless_clash(BOOL)
            }
            LusWrittenExpr::Two(op, left, right) => {
                let sides = Typing::of(names, left).meet(Typing::of(names, right));
                Typing::of_operands(*op)
                    .meet(sides)
                    .unless_clash(Typing::of_result(*op))
            }
            LusWrittenExpr::If(test, on_true, on_false) => {
                let sides = Typing::of(names, on_true).meet(Typing::of(names, on_false));
                BOOL.meet(Typing::of(names, test)).unless_clash(sides)
            }
            LusWrittenExpr::Arrow(first, later) => {
                Typing::of(names, first).meet(Typing::of(names, later))
            }
        }
    }
}

/// Whether an expression may have a type.
pub(crate) fn fits(names: &Names, e: &LusWrittenExpr, is_bool: bool) -> bool
    ensures { result ≡ types.fits (word_type (names_of names.now)) (expr_of e.now) is_bool }
{
    Typing::of(names, e).may_be(is_bool)
}

/// Whether expressions may have the types of these names, one for each.
pub(crate) fn all_fit(names: &Names, es: &[LusWrittenExpr], wanted: &[(Text, bool)]) -> bool
    ensures { result ≡ types.all_fit (word_type (names_of names.now)) (map expr_of es.now)
        (types_of (declared_names wanted.now)) }
{
    if es.len() != wanted.len() {
        return false;
    }
    for (i, e) in es.iter().enumerate() {
        if !fits(names, e, wanted[i].1) {
            return false;
        }
    }
    true
}

/// Whether the names at these positions have the types of these names, one for each.
pub(crate) fn have_types(names: &Names, places: &[u32], wanted: &[(Text, bool)]) -> bool
    ensures { result ≡ types.have_types (types_of (names_of names.now)) places.now
        (types_of (declared_names wanted.now)) }
{
    if places.len() != wanted.len() {
        return false;
    }
    for (i, place) in places.iter().enumerate() {
        if names.type_at(*place) != wanted[i].1 {
            return false;
        }
    }
    true
}
