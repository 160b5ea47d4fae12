//! The command as `clap` reads it, built from the table of the options.
ghost use Rattle.std.specs.Prelude.{◌≡◌, false, IfOk};
ghost use Rattle.clap.specs.Words.{app_of, rule_of};
ghost use Rattle.zint_words.specs.CommandLine.{rule_for, zint};

use crate::options::{OPTION_NAMES, OptionName};
use clap::{Arg, Command};
use std::alloc::{AllocError, Global};

/// The whole command, with every option of the table.
pub fn command<'a>(alloc: Global) -> Result<Command<'a>, AllocError>
    ensures { IfOk result (λ c. app_of c ≡ zint) }
{
    let mut command = Command::new(alloc, "zint");
    for option in OPTION_NAMES.iter() {
        command = command.arg(argument(alloc, *option))?;
    }
    Ok(command)
}

#[tactic(auto, unfolding(crate::specs::CommandLine::rule_for))]
fn argument<'a>(alloc: Global, option: OptionName) -> Arg<'a>
    ensures rule { rule_of result ≡ rule_for option }
    ensures local { result.global ≡ false }
{
    let long: &'a str = option.long();
    let plain = Arg::new(alloc, long)
        .long(long)
        .action(option.takes().action());
    match option.short() {
        Some(letter) => plain.short(letter),
        None => plain,
    }
}
