//! The command that the words ask for. The kit's crate `clap` reads them.
ghost use Rattle.std.specs.Prelude.{◌≡◌, IfErr, IfOk, IfSome, IsTrue, MatchOption, MatchResult, codes, false, map, option_map, string_bytes, true};
ghost use Rattle.clap.specs.Matches.{found_of};
ghost use Rattle.clap.specs.Simple.{App, HasMatchesOf, app_of, subcommand_rows_of, with_rule, with_subcommand};
ghost use Rattle.clap.specs.Takes.{takes};
ghost use Rattle.clap.specs.Values.{kind_of};
ghost use Rattle.clap.specs.Walk.{rows_of, rule_of};
ghost use Rattle.clap.specs.declared.error.kind.ErrorKind.TheVariants.{OutOfMemory};
ghost use Rattle.op_link.specs.Memory.{are_in_range};
ghost use Rattle.op_command.specs.Command.{IsAtMostOneCommand, IsCommand, IsNoCommand, IsSomeCommand};
ghost use Rattle.op_command.specs.Line.{IsTold, and_command, asked_by_matches, asked_in_matches, file_rule, line, named, no_commands, option_rule, told_of, with_sizes, with_steps};
ghost use Rattle.op_command.specs.Reading.{asked_of};

use crate::command::{
    Command, DEFAULT_STEPS, MOST_STEPS, Verb, is_command, kibibytes_or, number_or, verb_of,
};
use clap::error::ErrorKind;
use clap::{Arg, ArgMatches, Error};
use op_base::NoMemory;
use op_link::Settings;
use std::alloc::{AllocError, Global};

/// An option of this name, which has a number behind it.
fn option<'a>(alloc: Global, name: &'a str) -> Arg<'a>
    ensures rule { rule_of result ≡ option_rule name.now }
    ensures local { result.global ≡ false }
{
    Arg::new(alloc, name).long(name)
}

/// The command of this word, with its operand.
fn named<'a>(alloc: Global, word: &'a str) -> Result<clap::Command<'a>, AllocError>
    ensures { IfOk result (λ command. IsTold command (named word.now)) }
{
    let file = Arg::new(alloc, "file").required(true);
    clap::Command::new(alloc, word).arg(file)
}

/// With the option for the number of steps.
fn with_steps<'a>(
    alloc: Global,
    command: clap::Command<'a>,
) -> Result<clap::Command<'a>, AllocError>
    ensures { IfOk result (λ more. (told : App) → IsTold command.entry told → IsTold more (with_steps told)) }
{
    command.arg(option(alloc, "steps"))
}

/// With the options for the sizes of heap and stack.
fn with_sizes<'a>(
    alloc: Global,
    command: clap::Command<'a>,
) -> Result<clap::Command<'a>, AllocError>
    ensures { IfOk result (λ more. (told : App) → IsTold command.entry told → IsTold more (with_sizes told)) }
{
    let command = command.arg(option(alloc, "heap"))?;
    command.arg(option(alloc, "stack"))
}

/// A command, with the options that it takes.
fn command_told<'a>(alloc: Global, verb: Verb) -> Result<clap::Command<'a>, AllocError>
    ensures { IfOk result (λ command. IsTold command (told_of verb)) }
{
    match verb {
        Verb::Exec => with_sizes(alloc, with_steps(alloc, named(alloc, "exec")?)?),
        Verb::Build => with_sizes(alloc, named(alloc, "build")?),
        Verb::Check => named(alloc, "check"),
        Verb::List => with_sizes(alloc, named(alloc, "list")?),
        Verb::Run => with_steps(alloc, named(alloc, "run")?),
    }
}

/// The line without its commands. All words are given, and there is none for help.
fn no_commands<'a>(alloc: Global) -> clap::Command<'a>
    ensures { app_of result ≡ no_commands }
{
    clap::Command::new(alloc, "opc")
        .no_binary_name(true)
        .disable_help_flag(true)
        .disable_help_subcommand(true)
}

/// The line with one more command.
fn and_command<'a>(
    alloc: Global,
    line: clap::Command<'a>,
    verb: Verb,
) -> Result<clap::Command<'a>, AllocError>
    ensures { IfOk result (λ more. app_of more ≡ and_command (app_of line.entry) verb) }
{
    line.subcommand(command_told(alloc, verb)?)
}

/// The whole line.
fn line<'a>(alloc: Global) -> Result<clap::Command<'a>, AllocError>
    ensures { IfOk result (λ told. app_of told ≡ line) }
{
    let line = and_command(alloc, no_commands(alloc), Verb::Exec)?;
    let line = and_command(alloc, line, Verb::Build)?;
    let line = and_command(alloc, line, Verb::Check)?;
    let line = and_command(alloc, line, Verb::List)?;
    and_command(alloc, line, Verb::Run)
}

/// The matches of the words, where `clap` takes them.
fn parsed<'a>(alloc: Global, words: &'a [String]) -> Result<ArgMatches<'a>, Error>
    ensures matches { IfOk result (HasMatchesOf line (map string_bytes words.now)) }
    ensures passes { IfErr result (λ error. takes line (map string_bytes words.now) ≡ true → kind_of error ≡ OutOfMemory) }
{
    line(alloc)?.try_get_matches_from(words)
}

/// What the matches of a command ask for, if each number is in its range.
fn command_by<'a>(verb: Verb, found: &ArgMatches<'a>) -> Option<Command<'a>>
    ensures { option_map asked_of result ≡ asked_by_matches verb (rows_of (found_of found.now)) }
{
    let operand = found.get_str("file")?;
    let heap = kibibytes_or(found.get_str("heap"), 64, 262_144, Settings::DEFAULT.heap)?;
    let stack = kibibytes_or(found.get_str("stack"), 16, 65_536, Settings::DEFAULT.stack)?;
    let steps = number_or(found.get_str("steps"), 1, MOST_STEPS, DEFAULT_STEPS)?;
    Some(Command {
        verb,
        operand,
        settings: Settings { heap, stack },
        steps,
    })
}

/// What the matches of the line ask for, if each number is in its range.
fn command_in<'a>(matches: &ArgMatches<'a>) -> Option<Command<'a>>
    ensures { option_map asked_of result ≡ asked_in_matches (subcommand_rows_of matches.now) }
{
    let (word, found) = matches.subcommand()?;
    command_by(verb_of(word)?, found)
}

/// The command that the words ask for, if they do. `clap` reads them. It takes more lines than the grammar of the command line has, so that is
/// tested too, and it wants memory, for want of which a command may fail.
pub fn command_of(alloc: Global, words: &[String]) -> Result<Option<Command<'_>>, NoMemory>
    ensures is { MatchResult result (λ found. MatchOption found (IsNoCommand (map string_bytes words.now)) (λ command. IsCommand (map string_bytes words.now) (asked_of command))) (λ _. IsSomeCommand (map string_bytes words.now)) }
    ensures settings { IfOk result (λ found. IfSome found (λ command. IsTrue (are_in_range command.settings))) }
    ensures one { IsAtMostOneCommand (map string_bytes words.now) }
{
    let parsed = parsed(alloc, words);
    if !is_command(words) {
        return Ok(None);
    }
    match parsed {
        Ok(matches) => Ok(command_in(&matches)),
        Err(error) => match error.kind() {
            ErrorKind::OutOfMemory => Err(NoMemory),
            _ => Ok(None),
        },
    }
}
