ghost use Rattle.std.specs.Prelude.{◌≡◌, IfSome, option_map, codes};
ghost use Rattle.clap.specs.Words.{first_value, found_of, subcommand_rows_of};
ghost use Rattle.tool_words.specs.Words.{HasBounds, asked};
ghost use Rattle.tool_words.specs.Program.{compile_of, run_of, exec_of, profile_of, drive_of, gen_of, lustre_of, flow_of, asked_of, asked_in};

use crate::Command;
use crate::numbers::{size_of, start_of};
use clap::ArgMatches;

fn compile<'a>(values: &ArgMatches<'a>) -> Option<Command<'a>>
    ensures { let value = first_value (found_of values.now) in
        option_map asked result ≡ compile_of (value (codes "MODEL")) (value (codes "CODE")) }
{
    let model = values.get_str("MODEL")?;
    let code = values.get_str("CODE")?;
    Some(Command::Compile { model, code })
}

fn run<'a>(values: &ArgMatches<'a>) -> Option<Command<'a>>
    ensures { let value = first_value (found_of values.now) in
        option_map asked result
        ≡ run_of (value (codes "MODEL")) (value (codes "CODE")) (value (codes "TRACE")) }
{
    let model = values.get_str("MODEL")?;
    let code = values.get_str("CODE")?;
    let trace = values.get_str("TRACE")?;
    Some(Command::Run { model, code, trace })
}

fn exec<'a>(values: &ArgMatches<'a>) -> Option<Command<'a>>
    ensures { let value = first_value (found_of values.now) in
        option_map asked result ≡ exec_of (value (codes "CODE")) (value (codes "TRACE")) }
{
    let code = values.get_str("CODE")?;
    let trace = values.get_str("TRACE")?;
    Some(Command::Exec { code, trace })
}

fn profile<'a>(values: &ArgMatches<'a>) -> Option<Command<'a>>
    ensures { option_map asked result
        ≡ profile_of (first_value (found_of values.now) (codes "MODEL")) }
{
    let model = values.get_str("MODEL")?;
    Some(Command::Profile { model })
}

fn drive<'a>(values: &ArgMatches<'a>) -> Option<Command<'a>>
    ensures { let value = first_value (found_of values.now) in
        option_map asked result
        ≡ drive_of (value (codes "MODEL")) (value (codes "CODE")) (value (codes "SUBSYSTEM"))
        (value (codes "SCRIPT")) }
{
    let model = values.get_str("MODEL")?;
    let code = values.get_str("CODE")?;
    let subsystem = values.get_str("SUBSYSTEM")?;
    let script = values.get_str("SCRIPT")?;
    Some(Command::Drive {
        model,
        code,
        subsystem,
        script,
    })
}

fn generate<'a>(values: &ArgMatches<'a>) -> Option<Command<'a>>
    ensures asked { let value = first_value (found_of values.now) in
        option_map asked result
        ≡ gen_of (value (codes "START")) (value (codes "SIZE")) (value (codes "MODEL"))
        (value (codes "CODE")) }
    ensures bounds { IfSome result HasBounds }
{
    let start = values.get_str("START")?;
    let size = values.get_str("SIZE")?;
    let model = values.get_str("MODEL")?;
    let code = values.get_str("CODE")?;
    let start = start_of(start)?;
    let size = size_of(size)?;
    Some(Command::Gen {
        start,
        size,
        model,
        code,
    })
}

fn lustre<'a>(values: &ArgMatches<'a>) -> Option<Command<'a>>
    ensures { let value = first_value (found_of values.now) in
        option_map asked result ≡ lustre_of (value (codes "MODEL")) (value (codes "FILE")) }
{
    let model = values.get_str("MODEL")?;
    let file = values.get_str("FILE")?;
    Some(Command::Lustre { model, file })
}

fn flow<'a>(values: &ArgMatches<'a>) -> Option<Command<'a>>
    ensures { let value = first_value (found_of values.now) in
        option_map asked result ≡ flow_of (value (codes "FILE")) (value (codes "TRACE")) }
{
    let file = values.get_str("FILE")?;
    let trace = values.get_str("TRACE")?;
    Some(Command::Flow { file, trace })
}

// What a command of this name asks for, if it has all its values.
fn asked_of<'a>(name: &str, values: &ArgMatches<'a>) -> Option<Command<'a>>
    ensures asked { option_map asked result
        ≡ asked_of name.now (first_value (found_of values.now)) }
    ensures bounds { IfSome result HasBounds }
{
    match name {
        "compile" => compile(values),
        "run" => run(values),
        "exec" => exec(values),
        "profile" => profile(values),
        "drive" => drive(values),
        "gen" => generate(values),
        "lustre" => lustre(values),
        "flow" => flow(values),
        _ => None,
    }
}

/// What the matches ask for, if they have all values of one command.
pub fn asked<'a>(matches: &ArgMatches<'a>) -> Option<Command<'a>>
    ensures asked { option_map asked result ≡ asked_in (subcommand_rows_of matches.now) }
    ensures bounds { IfSome result HasBounds }
{
    let (name, values) = matches.subcommand()?;
    asked_of(name, values)
}
