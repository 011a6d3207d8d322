// What a token opens, by its text and by what may stand there.
ghost use Rattle.std.specs.Prelude.{◌≡◌, if◌then◌else◌};
ghost use Rattle.c_grammar.specs.Parsing as parsing;

use crate::words::{compare_of_text, is, is_name, op_of_text};
use base_core::Compare;
use c_grammar::{
    Comma, Definition, Inside, Opener, StmtOpener, Tail, TargetOpener, TestJoint, ValueJoint, Want,
};
use c_syntax::BinOp;

/// What a token opens where an operand is wanted.
pub fn opener_of(want: Want, text: &[u8]) -> Opener
    ensures { result ≡ parsing.opener_of want text.now }
{
    if want.takes_value() && is(text, b"INT64_C") {
        Opener::Number
    } else if want.takes_value() && is_name(text) {
        Opener::Call
    } else if is(text, b"(") {
        Opener::Paren
    } else {
        Opener::Nothing
    }
}

/// What a token after the `(` of an operand begins.
pub fn inside_of(want: Want, text: &[u8]) -> Inside
    ensures { result ≡ parsing.inside_of want text.now }
{
    if want.takes_value() && is(text, b"-") {
        Inside::Minus
    } else if want.takes_test() && is(text, b"!") {
        Inside::Not
    } else if want.takes_value() && is(text, b"int64_t") {
        Inside::Cast
    } else {
        Inside::First
    }
}

/// What a token after the name of an own field begins.
pub fn tail_of(text: &[u8]) -> Tail
    ensures { result ≡ parsing.tail_of text.now }
{
    if is(text, b".") {
        Tail::Dot
    } else if is(text, b"[") {
        Tail::Bracket
    } else {
        Tail::Nothing
    }
}

fn operator_of(want: Want, text: &[u8]) -> Option<BinOp>
    ensures { result ≡ (if parsing.wants_value want then parsing.op_of_text text.now else None) }
{
    if want.takes_value() {
        op_of_text(text)
    } else {
        None
    }
}

fn comparison_of(want: Want, text: &[u8]) -> Option<Compare>
    ensures { result
        ≡ (if parsing.wants_test want then parsing.compare_of_text text.now else None) }
{
    if want.takes_test() {
        compare_of_text(text)
    } else {
        None
    }
}

/// What a token is after an expression that is the first operand.
pub fn value_joint(want: Want, text: &[u8]) -> ValueJoint
    ensures { result ≡ parsing.value_joint want text.now }
{
    if let Some(op) = operator_of(want, text) {
        ValueJoint::Operator(op)
    } else if let Some(how) = comparison_of(want, text) {
        ValueJoint::Comparison(how)
    } else {
        ValueJoint::Nothing
    }
}

/// What a token is after a condition that is the first operand.
pub fn test_joint(want: Want, text: &[u8]) -> TestJoint
    ensures { result ≡ parsing.test_joint want text.now }
{
    if want.takes_test() && is(text, b"&&") {
        TestJoint::And
    } else if want.takes_test() && is(text, b"||") {
        TestJoint::Or
    } else if want.takes_value() && is(text, b"?") {
        TestJoint::Pick
    } else {
        TestJoint::Nothing
    }
}

/// What is between the elements of a list in parentheses, and at its end.
pub fn comma_of(text: &[u8]) -> Comma
    ensures { result ≡ parsing.comma_of text.now }
{
    if is(text, b",") {
        Comma::Another
    } else if is(text, b")") {
        Comma::Closed
    } else {
        Comma::Nothing
    }
}

/// What a token opens where a statement is wanted.
pub fn stmt_opener_of(text: &[u8]) -> StmtOpener
    ensures { result ≡ parsing.stmt_opener_of text.now }
{
    if is(text, b"s") {
        StmtOpener::Store
    } else if is(text, b"if") {
        StmtOpener::If
    } else if is_name(text) {
        StmtOpener::Call
    } else {
        StmtOpener::Nothing
    }
}

/// What a token opens where the target of a call is wanted.
pub fn target_opener_of(text: &[u8]) -> TargetOpener
    ensures { result ≡ parsing.target_opener_of text.now }
{
    if is(text, b"s") {
        TargetOpener::Own
    } else if is(text, b"&") {
        TargetOpener::Field
    } else {
        TargetOpener::Nothing
    }
}

/// The kind of definition that a token opens.
pub fn definition_of(text: &[u8]) -> Definition
    ensures { result ≡ parsing.definition_of text.now }
{
    if is(text, b"static") {
        Definition::Static
    } else if is(text, b"struct") {
        Definition::Struct
    } else if is(text, b"void") {
        Definition::Void
    } else {
        Definition::Nothing
    }
}
