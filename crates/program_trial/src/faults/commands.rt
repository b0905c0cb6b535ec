use std::alloc::{AllocError, Global};
use std::fmt::Write;
use std::test::Fail;

/// A command, with the sheet `s` and the script `t` that it may name.
#[derive(Clone, Copy)]
pub(crate) struct Command {
    /// The words, with a space between them.
    pub(crate) line: &'static str,
    /// How many texts it fetches: the sheet first, and then the script.
    pub(crate) fetches: u32,
    /// How many bytes it writes, which were counted by hand.
    pub(crate) bytes: usize,
}

/// Commands of one fetch and of two, by which each text takes three puts.
pub(crate) const COMMANDS: [Command; 3] = [
    Command {
        line: "show s A1:A20",
        fetches: 1,
        bytes: 163_915,
    },
    Command {
        line: "play s t",
        fetches: 2,
        bytes: 163_933,
    },
    Command {
        line: "live s t --workers 2",
        fetches: 2,
        bytes: 164_213,
    },
];

/// The sheet: twenty rows of one label of 8,192 bytes.
pub(crate) fn sheet(alloc: Global) -> Result<String, AllocError> {
    let mut row = String::new(alloc);
    for _ in 0..8_192 {
        row.push('x')?;
    }
    row.push('\n')?;
    let mut text = String::new(alloc);
    for _ in 0..20 {
        text.push_str(&row)?;
    }
    Ok(text)
}

/// The script: a look at the twenty labels, an edit of all of them, and a firm look at three.
pub(crate) fn script(alloc: Global) -> Result<String, Fail> {
    let mut text = String::new(alloc);
    text.push_str("look A1:A20\nbatch\n")?;
    for row in 1..=20 {
        write!(text, "set A{row} 1\n")?;
    }
    text.push_str("end\nfirm A1:A3\n")?;
    Ok(text)
}
