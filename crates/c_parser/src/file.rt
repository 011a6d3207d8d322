// A whole file after its first line.
ghost use Rattle.std.specs.Prelude.{◌≡◌, map, length, suc};
ghost use Rattle.c_grammar.specs.Parsing as parsing;
ghost use Rattle.c_expressions.specs.Gives.{Gives, GivesMore, behind};
ghost use Rattle.c_parser.specs.FileParts as parts;
ghost use Rattle.c_parser.specs.GivesProgram.{GivesProgram};
ghost use Rattle.c_expressions.specs.Limited.{limits_of};
ghost use Rattle.c_grammar.specs.WrittenTrees.{pure_of, struct_of, procedure_of};

use crate::definitions::{procedure, pure};
use crate::params::has_room;
use crate::structs::structure;
use c_expressions::{Parse, Reader, deep_on, syntax_on};
use c_grammar::{
    Definition, ReadCFault, WrittenProcedure, WrittenProgram, WrittenPure, WrittenStruct,
};
use c_tokens::{Tokens, definition_of, lists_continue};

fn pures_step<'a>(
    reader: Reader,
    count: usize,
    tokens: Tokens<'a>,
) -> Parse<'a, Option<WrittenPure<'a>>>
    ensures { GivesMore pure_of result
        (parsing.pures_step reader.last (limits_of reader.limits) count tokens.entry) }
{
    let (token, rest) = reader.next(&tokens)?;
    match definition_of(token.text) {
        Definition::Static => {
            if !has_room(count, reader.limits.pures) {
                return Err(deep_on(token.line).into());
            }
            let (pure, rest) = pure(reader, &token, &rest)?;
            Ok((Some(pure), rest))
        }
        Definition::Struct => Ok((None, tokens)),
        Definition::Void | Definition::Nothing => Err(syntax_on(token.line).into()),
    }
}

fn pures<'a>(reader: Reader, tokens: Tokens<'a>) -> Parse<'a, Vec<WrittenPure<'a>>>
    ensures { Gives (λ v. map pure_of v.items) result
        (parsing.many (parsing.pures_step reader.last (limits_of reader.limits))
        (suc (length tokens.entry)) 0 tokens.entry) }
{
    lists_continue();
    let mut pures = Vec::new(reader.alloc);
    let mut rest = tokens;
    loop {
        let (pure, later) = pures_step(reader, pures.len(), rest)?;
        let Some(pure) = pure else {
            return Ok((pures, later));
        };
        pures.push(pure)?;
        rest = later;
    }
}

fn structs_step<'a>(reader: Reader, tokens: Tokens<'a>) -> Parse<'a, Option<WrittenStruct<'a>>>
    ensures { GivesMore struct_of result
        (parsing.structs_step reader.last (limits_of reader.limits) 0 tokens.entry) }
{
    let (token, rest) = reader.next(&tokens)?;
    match definition_of(token.text) {
        Definition::Struct => {
            let (structure, rest) = structure(reader, &token, &rest)?;
            Ok((Some(structure), rest))
        }
        Definition::Static | Definition::Void => Ok((None, tokens)),
        Definition::Nothing => Err(syntax_on(token.line).into()),
    }
}

fn structs<'a>(reader: Reader, tokens: Tokens<'a>) -> Parse<'a, Vec<WrittenStruct<'a>>>
    ensures { Gives (λ v. map struct_of v.items) result
        (parsing.many (parsing.structs_step reader.last (limits_of reader.limits))
        (suc (length tokens.entry)) 0 tokens.entry) }
{
    lists_continue();
    let mut structs = Vec::new(reader.alloc);
    let mut rest = tokens;
    loop {
        let (structure, later) = structs_step(reader, rest)?;
        let Some(structure) = structure else {
            return Ok((structs, later));
        };
        structs.push(structure)?;
        rest = later;
    }
}

fn procedures_step<'a>(
    reader: Reader,
    tokens: Tokens<'a>,
) -> Parse<'a, Option<WrittenProcedure<'a>>>
    ensures { GivesMore procedure_of result
        (parsing.procedures_step reader.last (limits_of reader.limits) 0 tokens.entry) }
{
    let Some((token, rest)) = tokens.split_first() else {
        return Ok((None, tokens));
    };
    let (procedure, rest) = procedure(reader, &token, &rest, definition_of(token.text))?;
    Ok((Some(procedure), rest))
}

fn later_procedures<'a>(
    reader: Reader,
    procedures: Vec<WrittenProcedure<'a>>,
    tokens: Tokens<'a>,
) -> Parse<'a, Vec<WrittenProcedure<'a>>>
    ensures { Gives (λ v. map procedure_of v.items) result
        (behind (map procedure_of procedures.entry.items)
        (parsing.many (parsing.procedures_step reader.last (limits_of reader.limits))
        (suc (length tokens.entry)) 0 tokens.entry)) }
{
    lists_continue();
    let mut procedures = procedures;
    let mut rest = tokens;
    loop {
        let (procedure, later) = procedures_step(reader, rest)?;
        let Some(procedure) = procedure else {
            return Ok((procedures, later));
        };
        procedures.push(procedure)?;
        rest = later;
    }
}

fn first_procedure<'a>(reader: Reader, tokens: &Tokens<'a>) -> Parse<'a, WrittenProcedure<'a>>
    ensures { Gives procedure_of result
        (parts.first_procedure reader.last (limits_of reader.limits) tokens.now) }
{
    let (token, rest) = reader.next(tokens)?;
    procedure(reader, &token, &rest, definition_of(token.text))
}

fn procedures<'a>(reader: Reader, tokens: &Tokens<'a>) -> Parse<'a, Vec<WrittenProcedure<'a>>>
    ensures { Gives (λ v. map procedure_of v.items) result
        (parts.procedures reader.last (limits_of reader.limits) tokens.now) }
{
    let (first, rest) = first_procedure(reader, tokens)?;
    let mut procedures = Vec::new(reader.alloc);
    procedures.push(first)?;
    later_procedures(reader, procedures, rest)
}

fn file_of_parts<'a>(reader: Reader, tokens: Tokens<'a>) -> Result<WrittenProgram<'a>, ReadCFault>
    ensures { GivesProgram result
        (parts.file_parts reader.last (limits_of reader.limits) tokens.entry) }
{
    let (pures, rest) = pures(reader, tokens)?;
    let (structs, rest) = structs(reader, rest)?;
    let (procedures, _) = procedures(reader, &rest)?;
    Ok(WrittenProgram {
        pures,
        structs,
        procedures,
    })
}

/// A whole file after its first line.
pub(crate) fn file<'a>(reader: Reader, tokens: Tokens<'a>) -> Result<WrittenProgram<'a>, ReadCFault>
    ensures { GivesProgram result
        (parsing.parse_file reader.last (limits_of reader.limits) tokens.entry) }
{
    file_of_parts(reader, tokens)
}
