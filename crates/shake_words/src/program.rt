// The command set, in clap's terms.
ghost use Rattle.std.specs.Prelude.{◌≡◌, IfOk, false};
ghost use Rattle.clap.specs.Simple.{app_of};
ghost use Rattle.clap.specs.declared.builder.command.Command.TheViews.{out-Command as fields_of};
ghost use Rattle.shake_words.specs.Program.{program, with_tree_only};

use clap::{Arg, ArgAction, Command};
use std::alloc::{AllocError, Global};

// A command of this name, with the flag `--tree-only`.
fn with_tree_only<'a>(alloc: Global, name: &'a str) -> Result<Command<'a>, AllocError>
    ensures app { IfOk result (λ command. app_of command ≡ with_tree_only name.entry.now) }
    ensures local { IfOk result (λ command. (fields_of command).has_globals ≡ false) }
{
    let tree_only = Arg::new(alloc, "tree-only")
        .long("tree-only")
        .action(ArgAction::SetTrue);
    let command = Command::new(alloc, name).arg(tree_only)?;
    Ok(command)
}

// The program and its commands.
pub fn program<'a>(alloc: Global) -> Result<Command<'a>, AllocError>
    ensures { IfOk result (λ command. app_of command ≡ program) }
{
    let bare = Command::new(alloc, "shake")
        .subcommand_required(true)
        .disable_help_flag(true)
        .disable_help_subcommand(true);
    let dce = with_tree_only(alloc, "dce")?;
    let with_dce = bare.subcommand(dce)?;
    let whole = with_dce.subcommand(Command::new(alloc, "run"))?;
    Ok(whole)
}
