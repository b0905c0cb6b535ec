// What no clause says: that scripts are read as a person expects. The expected values were worked out by hand.
use edit_script::{Command, Mode, Script, Step, read_script};
use formula_syntax::Edition;
use sheet_model::{Edit, Sheet};
use sheet_refs::Range;
use std::alloc::Global;
use std::fmt::Write;
use std::test::Fail;

// Adds the cells of an edit.
fn add_edit(text: &mut String, edit: &Edit) -> Result<(), Fail> {
    text.push_str("put")?;
    for change in edit.changes() {
        write!(text, " {}", change.cell)?;
    }
    Ok(())
}

// Adds a word, and the range that it goes with.
fn add_range(text: &mut String, word: &str, range: &Range) -> Result<(), Fail> {
    write!(text, "{word} {range}")?;
    Ok(())
}

// Adds a command.
fn add_command(text: &mut String, command: &Command) -> Result<(), Fail> {
    match command {
        Command::Put(edit) => add_edit(text, edit),
        Command::Look(range) => add_range(text, "look", range),
        Command::Firm(range) => add_range(text, "firm", range),
        Command::Work(turns) => {
            write!(text, "work {turns}")?;
            Ok(())
        }
    }
}

// Adds a step: its command behind the client's place.
fn add_step(text: &mut String, step: &Step) -> Result<(), Fail> {
    write!(text, "[{} ", step.client)?;
    add_command(text, &step.command)?;
    text.push(']')?;
    Ok(())
}

// The names of a script, and its steps.
fn shown(alloc: Global, script: &Script) -> Result<String, Fail> {
    let mut text = String::new(alloc);
    for name in script.names() {
        write!(text, "{name} ")?;
    }
    for step in script.steps() {
        add_step(&mut text, step)?;
    }
    Ok(text)
}

// A text's script over a blank sheet of two rows and columns, or why it is none.
fn told(alloc: Global, text: &str) -> Result<String, Fail> {
    let mut sheet = Sheet::blank(alloc, 2, 2, Edition::One)?;
    if text.len() > 1_000 || sheet.labels().length() > 1_000 {
        return Err(Fail::from("a longer text or table"));
    }
    match read_script(alloc, text.as_bytes(), Mode::Play, &mut sheet) {
        Ok(script) => shown(alloc, &script),
        Err(refused) => Ok(format!(in alloc; "{refused}")?),
    }
}

#[test]
fn scripts_have_clients_and_steps(rt: HostRuntime) -> Result<(), Fail> {
    for &(text, wanted) in &[
        ("", ""),
        (
            "client bob\nclient ann\r\nclear A1\nclient bob\nfirm b2:a1\nwork 0000010",
            "bob ann [1 put A1][0 firm A1:B2][0 work 10]",
        ),
        (
            "look A1\nclient ann\nbatch\nset B2 x\n# more\nclear A1\nend\nclear B2",
            "main ann [0 look A1:A1][1 put B2 A1][1 put B2]",
        ),
        ("look A1\nwork 0", "script: line 2: bad line"),
    ] {
        let found = told(rt.alloc(), text)?;
        assert_eq!(rt; found.as_str(), wanted);
    }
    Ok(())
}
