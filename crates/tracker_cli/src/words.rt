// The words of a command line, which `clap` reads by a grammar.
ghost use Rattle.std.specs.Prelude.{◌≡◌, ◌∷◌, [], map, option_map, string_bytes, IfOk, IfSome, IsTrue, MatchOption};
ghost use Rattle.std.specs.List.{list_all};
ghost use Rattle.clap.specs.Words.{app_of, new_app};
ghost use Rattle.tracker_cli.specs.Outcome.{IsCommand, is_plain};
ghost use Rattle.tracker_cli.specs.Words.{Asks, grammar, taking_one, top, with_one, words_of};

use crate::number::number_in;
use clap::error::ErrorKind;
use clap::{Arg, ArgAction};
use std::alloc::{AllocError, Global};

/// The most issues of a load.
const MOST_ISSUES: u32 = 20_000;

/// What the words ask for.
#[derive(Clone, Copy)]
pub(crate) enum Command<'a> {
    Exec,
    Check,
    Init,
    /// By this user.
    Import(&'a str),
    Export,
    /// So many issues.
    Generate(u32),
}

/// The command that the words ask for; `None` exactly where they are no command's.
pub(crate) fn command_in<'a>(
    alloc: Global,
    words: &'a [String],
) -> Result<Option<Command<'a>>, AllocError>
    ensures { IfOk result (λ command. MatchOption command
        (¬ (IsCommand (map string_bytes words.now)))
        (λ c. Asks c (map string_bytes words.now))) }
{
    // `clap` would take a word that begins with a hyphen for an option.
    if !are_plain(words) {
        return Ok(None);
    }
    let grammar = grammar(alloc)?;
    let matches = match grammar.try_get_matches_from(words) {
        Ok(matches) => matches,
        Err(fault) => {
            if fault.kind() == ErrorKind::OutOfMemory {
                return Err(AllocError);
            }
            return Ok(None);
        }
    };
    let Some((name, inner)) = matches.subcommand() else {
        return Ok(None);
    };
    let operand = inner.get_str("operand");
    Ok(command_of(name, operand))
}

// Whether no word begins with a hyphen.
fn are_plain(words: &[String]) -> bool
    ensures { result ≡ list_all (λ w. is_plain (string_bytes w)) words.now }
{
    words.iter().all(|word| is_plain(word.as_str()))
}

// Whether the word doesn't begin with a hyphen.
fn is_plain(word: &str) -> bool
    ensures { result ≡ is_plain word.now }
{
    match word.as_bytes() {
        [] => true,
        [first, ..] => *first != b'-',
    }
}

// ---- the grammar

fn grammar<'a>(alloc: Global) -> Result<clap::Command<'a>, AllocError>
    ensures { IfOk result (λ c. app_of c ≡ grammar) }
{
    let one = with_plain(alloc, top(alloc), "exec")?;
    let two = with_plain(alloc, one, "check")?;
    let three = with_plain(alloc, two, "init")?;
    let four = with_operand(alloc, three, "import")?;
    let five = with_plain(alloc, four, "export")?;
    let six = with_operand(alloc, five, "generate")?;
    Ok(six)
}

// All words are the program's, one of them has to be a command's, and there is no help.
fn top<'a>(alloc: Global) -> clap::Command<'a>
    ensures { app_of result ≡ top }
{
    clap::Command::new(alloc, "tracker")
        .no_binary_name(true)
        .disable_help_flag(true)
        .disable_help_subcommand(true)
        .subcommand_required(true)
}

// With a command of that name, behind which no word comes.
fn with_plain<'a>(
    alloc: Global,
    all: clap::Command<'a>,
    name: &'a str,
) -> Result<clap::Command<'a>, AllocError>
    ensures { IfOk result (λ c. app_of c ≡ with_one (app_of all.entry) (new_app name.now)) }
{
    let one = clap::Command::new(alloc, name);
    let both = all.subcommand(one)?;
    Ok(both)
}

// With a command of that name, behind which one word has to come.
fn with_operand<'a>(
    alloc: Global,
    all: clap::Command<'a>,
    name: &'a str,
) -> Result<clap::Command<'a>, AllocError>
    ensures { IfOk result (λ c. app_of c ≡ with_one (app_of all.entry) (taking_one name.now)) }
{
    let operand = Arg::new(alloc, "operand")
        .required(true)
        .action(ArgAction::Set);
    let one = clap::Command::new(alloc, name).arg(operand)?;
    let both = all.subcommand(one)?;
    Ok(both)
}

// ---- names

// The command of that name, with the word behind it, if there is one.
fn command_of<'a>(name: &str, operand: Option<&'a str>) -> Option<Command<'a>>
    requires { IfSome operand (λ word. IsTrue (is_plain word.now)) }
    ensures { MatchOption result
        (¬ (IsCommand (words_of name.now (option_map (λ word. word.now) operand.entry))))
        (λ c. Asks c (words_of name.now (option_map (λ word. word.now) operand.entry))) }
{
    match operand {
        Some(operand) => command_with(name, operand),
        None => plain_command(name),
    }
}

fn plain_command<'a>(name: &str) -> Option<Command<'a>>
    ensures { MatchOption result (¬ (IsCommand (name.now ∷ []))) (λ c. Asks c (name.now ∷ [])) }
{
    match name {
        "exec" => Some(Command::Exec),
        "check" => Some(Command::Check),
        "init" => Some(Command::Init),
        "export" => Some(Command::Export),
        _ => None,
    }
}

fn command_with<'a>(name: &str, operand: &'a str) -> Option<Command<'a>>
    requires { IsTrue (is_plain operand.now) }
    ensures { MatchOption result (¬ (IsCommand (name.now ∷ operand.now ∷ [])))
        (λ c. Asks c (name.now ∷ operand.now ∷ [])) }
{
    match name {
        "import" => Some(Command::Import(operand)),
        "generate" => match number_in(operand, 1, MOST_ISSUES) {
            Some(number) => Some(Command::Generate(number)),
            None => None,
        },
        _ => None,
    }
}
