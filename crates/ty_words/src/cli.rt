// The command.
ghost use Rattle.std.specs.Prelude.{◌≡◌, IfOk, true, false};
ghost use Rattle.clap.specs.Words.{app_of, rule_of};
ghost use Rattle.ty_words.specs.Cli.{bare, cli, flag_rule, mode_rule, option_rule};

use clap::{Arg, ArgAction, Command};
use std::alloc::{AllocError, Global};

// The options' names.
pub(crate) const OPTIONS: [&str; 6] = ["from", "at", "host", "tries", "number", "workers"];

// The whole command: the mode, the flag and the options.
pub(crate) fn command<'a>(alloc: Global) -> Result<Command<'a>, AllocError>
    ensures { IfOk result (λ c. app_of c ≡ cli) }
{
    let mut command = bare_command(alloc)
        .arg(mode(alloc))?
        .arg(flag(alloc, "brief"))?;
    for name in OPTIONS {
        command = command.arg(option(alloc, name))?;
    }
    Ok(command)
}

// Without arguments: it has neither a help flag nor a version.
fn bare_command<'a>(alloc: Global) -> Command<'a>
    ensures { app_of result ≡ bare }
{
    Command::new(alloc, "typha")
        .no_binary_name(true)
        .disable_help_flag(true)
}

fn mode<'a>(alloc: Global) -> Arg<'a>
    ensures rule { rule_of result ≡ mode_rule }
    ensures local { result.global ≡ false }
{
    Arg::new(alloc, "mode")
        .required(true)
        .action(ArgAction::Set)
}

fn flag<'a>(alloc: Global, name: &'a str) -> Arg<'a>
    ensures rule { rule_of result ≡ flag_rule name.entry.now }
    ensures local { result.global ≡ false }
{
    Arg::new(alloc, name).long(name).action(ArgAction::SetTrue)
}

fn option<'a>(alloc: Global, name: &'a str) -> Arg<'a>
    ensures rule { rule_of result ≡ option_rule name.entry.now }
    ensures local { result.global ≡ false }
{
    Arg::new(alloc, name).long(name).action(ArgAction::Set)
}
