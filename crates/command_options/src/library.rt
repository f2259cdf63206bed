//! A command as `clap` has it, made of a list of items.
ghost use Rattle.std.specs.Prelude.{◌≡◌, false, map, true, IfOk};
ghost use Rattle.clap.specs.Words.{app_of, is_simple_and_free, rule_of};
ghost use Rattle.command_options.specs.Clap as Spec;
ghost use Rattle.command_options.specs.Items.{item_of, items_of};

use crate::item::{Item, Kind};
use clap::error::ErrorKind;
use clap::{Arg, ArgAction, ArgMatches, Command};
use orb_base::NoMemory;
use std::alloc::{AllocError, Global};
use std::convert::AsStr;

/// The argument of an item.
fn arg_of<'a>(alloc: Global, item: Item<'a>) -> Arg<'a>
    ensures rule { rule_of result ≡ Spec.made_rule (item_of item.entry) }
    ensures local { result.global ≡ false }
{
    let arg = Arg::new(alloc, item.name).required(item.is_due);
    match item.kind {
        Kind::Valued => arg.long(item.name),
        Kind::Switch => arg.long(item.name).action(ArgAction::SetTrue),
        Kind::Positional(_) => arg,
    }
}

/// The command with these items, without help. All words are its own, and none is a program's name.
pub(crate) fn command_of<'a>(alloc: Global, items: &[Item<'a>]) -> Result<Command<'a>, AllocError>
    ensures { IfOk result (λ c. app_of c ≡ Spec.made_app (items_of items.now)) }
{
    let mut command = Command::new(alloc, "orb")
        .disable_help_flag(true)
        .no_binary_name(true);
    for item in items {
        command = command.arg(arg_of(alloc, *item))?;
    }
    Ok(command)
}

/// The matches of the words, or none where the command doesn't take them.
pub(crate) fn matches_of<'a, S: AsStr>(
    command: Command<'a>,
    words: &'a [S],
) -> Result<Option<ArgMatches<'a>>, NoMemory>
    requires { is_simple_and_free (app_of command) ≡ true }
    ensures { IfOk result (Spec.Matched (app_of command.entry) (map S.text words.entry.now)) }
{
    match command.try_get_matches_from(words) {
        Ok(matches) => Ok(Some(matches)),
        Err(e) => {
            if e.kind() == ErrorKind::OutOfMemory {
                return Err(NoMemory);
            }
            Ok(None)
        }
    }
}
