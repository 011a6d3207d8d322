// Structs and their fields.
ghost use Rattle.std.specs.Prelude.{◌≡◌, map, codes, bytes_eq, length, suc, true, false};
ghost use Rattle.c_grammar.specs.Parsing as parsing;
ghost use Rattle.c_expressions.specs.Gives.{Gives, GivesMore, read_as, behind};
ghost use Rattle.c_parser.specs.FileParts as parts;
ghost use Rattle.c_expressions.specs.Limited.{limits_of};
ghost use Rattle.c_grammar.specs.WrittenTrees.{kind_of, field_of, struct_of};

use c_expressions::{Parse, Read, Reader, syntax_on};
use c_grammar::{WrittenField, WrittenKind, WrittenStruct};
use c_syntax::CType;
use c_tokens::{Token, Tokens, is, lists_continue, type_of_text};

// After the name of a field of a type: an array where a length follows, else a number.
fn number_kind<'a>(reader: Reader, ty: CType, tokens: Tokens<'a>) -> Read<'a, WrittenKind<'a>>
    ensures { read_as kind_of result
        ≡ parsing.parse_length reader.last (limits_of reader.limits) ty tokens.entry
        (bytes_eq (parsing.first_text tokens.entry) (codes "[")) }
{
    if !is(tokens.first_text(), b"[") {
        return Ok((WrittenKind::Number(ty), tokens));
    }
    let (_, rest) = reader.next(&tokens)?;
    let (count, rest) = reader.literal(&rest)?;
    let rest = reader.word(&rest, b"]")?;
    Ok((WrittenKind::Array(ty, count), rest))
}

// A field that is a struct, after `struct`.
fn struct_field<'a>(
    reader: Reader,
    token: &Token<'a>,
    tokens: &Tokens<'a>,
) -> Read<'a, WrittenField<'a>>
    ensures { read_as field_of result
        ≡ parsing.parse_field_from reader.last (limits_of reader.limits) token.now tokens.now true }
{
    let (of, rest) = reader.name(tokens)?;
    let (name, rest) = reader.name(&rest)?;
    let rest = reader.word(&rest, b";")?;
    let field = WrittenField {
        line: token.line,
        kind: WrittenKind::Struct(of),
        name,
    };
    Ok((field, rest))
}

// A field that is a number or an array, after its type.
fn number_field<'a>(
    reader: Reader,
    token: &Token<'a>,
    tokens: &Tokens<'a>,
) -> Read<'a, WrittenField<'a>>
    ensures { read_as field_of result
        ≡ parsing.parse_field_from reader.last (limits_of reader.limits) token.now tokens.now
        false }
{
    let Some(ty) = type_of_text(token.text) else {
        return Err(syntax_on(token.line));
    };
    let (name, rest) = reader.name(tokens)?;
    let (kind, rest) = number_kind(reader, ty, rest)?;
    let rest = reader.word(&rest, b";")?;
    let field = WrittenField {
        line: token.line,
        kind,
        name,
    };
    Ok((field, rest))
}

fn field<'a>(reader: Reader, tokens: &Tokens<'a>) -> Read<'a, WrittenField<'a>>
    ensures { read_as field_of result
        ≡ parsing.parse_field reader.last (limits_of reader.limits) tokens.now }
{
    let (token, rest) = reader.next(tokens)?;
    if is(token.text, b"struct") {
        struct_field(reader, &token, &rest)
    } else {
        number_field(reader, &token, &rest)
    }
}

fn fields_step<'a>(reader: Reader, tokens: &Tokens<'a>) -> Parse<'a, Option<WrittenField<'a>>>
    ensures { GivesMore field_of result
        (parsing.fields_step reader.last (limits_of reader.limits) 0 tokens.now) }
{
    if is(tokens.first_text(), b"}") {
        let (_, rest) = reader.next(tokens)?;
        return Ok((None, rest));
    }
    let (field, rest) = field(reader, tokens)?;
    Ok((Some(field), rest))
}

fn later_fields<'a>(
    reader: Reader,
    fields: Vec<WrittenField<'a>>,
    tokens: Tokens<'a>,
) -> Parse<'a, Vec<WrittenField<'a>>>
    ensures { Gives (λ v. map field_of v.items) result (behind (map field_of fields.entry.items)
        (parsing.many (parsing.fields_step reader.last (limits_of reader.limits))
        (suc (length tokens.entry)) 0 tokens.entry)) }
{
    lists_continue();
    let mut fields = fields;
    let mut rest = tokens;
    loop {
        let (field, later) = fields_step(reader, &rest)?;
        let Some(field) = field else {
            return Ok((fields, later));
        };
        fields.push(field)?;
        rest = later;
    }
}

// The fields of a struct after its `{`, and the `}`.
fn fields<'a>(reader: Reader, tokens: &Tokens<'a>) -> Parse<'a, Vec<WrittenField<'a>>>
    ensures { Gives (λ v. map field_of v.items) result
        (parts.fields reader.last (limits_of reader.limits) tokens.now) }
{
    let (first, rest) = field(reader, tokens)?;
    let mut fields = Vec::new(reader.alloc);
    fields.push(first)?;
    later_fields(reader, fields, rest)
}

fn struct_of_parts<'a>(
    reader: Reader,
    token: &Token<'a>,
    tokens: &Tokens<'a>,
) -> Parse<'a, WrittenStruct<'a>>
    ensures { Gives struct_of result
        (parts.struct_parts reader.last (limits_of reader.limits) token.now tokens.now) }
{
    let (name, rest) = reader.name(tokens)?;
    let rest = reader.word(&rest, b"{")?;
    let (fields, rest) = fields(reader, &rest)?;
    let rest = reader.word(&rest, b";")?;
    let structure = WrittenStruct {
        line: token.line,
        name,
        fields,
    };
    Ok((structure, rest))
}

/// A struct after its `struct`.
pub(crate) fn structure<'a>(
    reader: Reader,
    token: &Token<'a>,
    tokens: &Tokens<'a>,
) -> Parse<'a, WrittenStruct<'a>>
    ensures { Gives struct_of result
        (parsing.parse_struct reader.last (limits_of reader.limits) token.now tokens.now) }
{
    struct_of_parts(reader, token, tokens)
}
