ghost use Rattle.std.specs.Prelude.{◌≡◌, IfOk, map, false};
ghost use Rattle.clap.specs.Words.{app_of, rule_of};
ghost use Rattle.clap.specs.declared.builder.command.Command.TheViews.{out-Command as fields_of};
ghost use Rattle.tool_words.specs.Program.{argument, with_arguments, with_command, with_commands, texts, command_texts, bare, program, IsSubcommand};

use clap::{Arg, Command};
use std::alloc::{AllocError, Global};

// The commands by their names, each with the names of its arguments.
const COMMANDS: [(&str, &[&str]); 8] = [
    ("compile", &["MODEL", "CODE"]),
    ("run", &["MODEL", "CODE", "TRACE"]),
    ("exec", &["CODE", "TRACE"]),
    ("profile", &["MODEL"]),
    ("drive", &["MODEL", "CODE", "SUBSYSTEM", "SCRIPT"]),
    ("gen", &["START", "SIZE", "MODEL", "CODE"]),
    ("lustre", &["MODEL", "FILE"]),
    ("flow", &["FILE", "TRACE"]),
];

// An argument by its place, which has to be there.
fn argument<'a>(alloc: Global, name: &'a str) -> Arg<'a>
    ensures { (rule_of result ≡ argument name.now) × (result.global ≡ false) }
{
    Arg::new(alloc, name).required(true)
}

// A command that takes these arguments.
fn with_arguments<'a>(
    alloc: Global,
    name: &'a str,
    arguments: &[&'a str],
) -> Result<Command<'a>, AllocError>
    ensures { IfOk result (λ c.
        IsSubcommand c (with_arguments name.now (texts arguments.now))) }
{
    let mut command = Command::new(alloc, name);
    for next in arguments {
        command = command.arg(argument(alloc, next))?;
    }
    Ok(command)
}

// The program without its commands. It has no help and no version of `clap`.
fn bare<'a>(alloc: Global) -> Command<'a>
    ensures { (app_of result ≡ bare) × ((fields_of result).has_globals ≡ false) }
{
    Command::new(alloc, "mdlc")
        .no_binary_name(true)
        .disable_help_flag(true)
        .disable_help_subcommand(true)
        .disable_version_flag(true)
        .subcommand_required(true)
}

// The program with a further command.
fn with_command<'a>(
    alloc: Global,
    program: Command<'a>,
    name: &'a str,
    arguments: &[&'a str],
) -> Result<Command<'a>, AllocError>
    ensures { IfOk result (λ c. app_of c
        ≡ with_command (app_of program.entry) (name.now, texts arguments.now)) }
{
    let command = with_arguments(alloc, name, arguments)?;
    program.subcommand(command)
}

// The program with these commands.
fn with_commands<'a>(
    alloc: Global,
    commands: &[(&'a str, &'a [&'a str])],
) -> Result<Command<'a>, AllocError>
    ensures { IfOk result (λ c. app_of c ≡ with_commands (map command_texts commands.now)) }
{
    let mut program = bare(alloc);
    for (name, arguments) in commands {
        program = with_command(alloc, program, name, arguments)?;
    }
    Ok(program)
}

/// The program, with each of its commands as a subcommand.
pub fn program<'a>(alloc: Global) -> Result<Command<'a>, AllocError>
    ensures { IfOk result (λ c. app_of c ≡ program) }
{
    with_commands(alloc, &COMMANDS)
}
