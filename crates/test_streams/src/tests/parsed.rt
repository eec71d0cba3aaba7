// Which words clap's documentation says that such a program takes.
use shake_words::{Command, WordsError, parse};
use std::alloc::Global;
use std::test::Fail;

fn parsed(alloc: Global, words: &[&str]) -> Result<Result<Command, WordsError>, Fail> {
    let mut list = Vec::new(alloc);
    for word in words {
        list.push(String::from_str(alloc, word)?)?;
    }
    Ok(parse(alloc, list.as_slice()))
}

#[test]
fn takes_the_commands(rt: HostRuntime) -> Result<(), Fail> {
    let cases: [(&[&str], bool); 6] = [
        (&["shake", "dce"], false),
        (&["shake", "dce", "--tree-only"], true),
        (&["./a path/to it", "dce"], false),
        (&["", "dce", "--tree-only"], true),
        // `--` ends the flags, and nothing has to follow it.
        (&["shake", "dce", "--"], false),
        (&["shake", "dce", "--tree-only", "--"], true),
    ];
    for (words, tree_only) in cases {
        let got = parsed(rt.alloc(), words)?;
        assert!(rt; got == Ok(Command::Dce { tree_only }), "{words:?}");
    }
    Ok(())
}

#[test]
fn refuses_all_else(rt: HostRuntime) -> Result<(), Fail> {
    let cases: [&[&str]; 33] = [
        // A command is required, and the first word is the program's name.
        &[],
        &["shake"],
        &["dce"],
        &["shake", "--"],
        // No such command.
        &["shake", "frob"],
        &["shake", ""],
        &["shake", "DCE"],
        &["shake", "dc"],
        &["shake", "dcee"],
        &["shake", "minify"],
        &["shake", "shake", "dce"],
        // No such argument.
        &["shake", "dce", "frob"],
        &["shake", "dce", ""],
        &["shake", "dce", "dce"],
        &["shake", "dce", "-"],
        &["shake", "dce", "--frob"],
        &["shake", "dce", "--tree"],
        &["shake", "dce", "-t"],
        &["shake", "dce", "--tree-only", "frob"],
        // The flag belongs to the command.
        &["shake", "--tree-only"],
        &["shake", "--tree-only", "dce"],
        // A flag that is set true takes no value, and may stand once unless the command says that
        // its arguments override themselves.
        &["shake", "dce", "--tree-only=true"],
        &["shake", "dce", "--tree-only="],
        &["shake", "dce", "--tree-only", "true"],
        &["shake", "dce", "--tree-only", "--tree-only"],
        // What follows `--` is a value, and there is no argument that takes one.
        &["shake", "dce", "--", "--tree-only"],
        &["shake", "--", "dce"],
        // There is no help and no version.
        &["shake", "--help"],
        &["shake", "-h"],
        &["shake", "help"],
        &["shake", "dce", "--help"],
        &["shake", "--version"],
        &["shake", "-V"],
    ];
    for words in cases {
        let got = parsed(rt.alloc(), words)?;
        assert!(rt; got == Err(WordsError::Usage), "{words:?}");
    }
    Ok(())
}
