use csv_sheet::load;
use sheet_model::{Content, Sheet};
use sheet_refs::Cell;
use std::alloc::Global;
use std::fmt::Write;
use std::test::Fail;

// Appends what a cell holds, a label by its text.
fn push_content(text: &mut String, sheet: &Sheet, content: &Content) -> Result<(), Fail> {
    match content {
        Content::Empty => text.push('_')?,
        Content::Number(number) => write!(text, "{number}")?,
        Content::Truth(truth) => write!(text, "{truth}")?,
        Content::Error(kind) => write!(text, "{kind}")?,
        Content::Label(place) => {
            if *place >= sheet.labels().length() {
                return Err(Fail::from("no such label"));
            }
            let label = sheet.labels().text(*place);
            write!(text, "{place}<{label}>")?;
        }
        Content::Formula(_) => text.push('f')?,
    }
    Ok(())
}

// The sizes of a sheet and what its cells hold, row by row.
fn push_sheet(text: &mut String, sheet: &Sheet) -> Result<(), Fail> {
    let rows = sheet.rows();
    let cols = sheet.cols();
    write!(text, "{rows}x{cols}:")?;
    for row in 0..rows {
        for col in 0..cols {
            push_cell(text, sheet, row + 1, col + 1)?;
        }
    }
    Ok(())
}

fn push_cell(text: &mut String, sheet: &Sheet, row: u32, col: u32) -> Result<(), Fail> {
    let cell = Cell::new(row, col).ok_or("no such cell")?;
    if !sheet.holds(cell) {
        return Err(Fail::from("a cell outside"));
    }
    push_content(text, sheet, sheet.content(cell))?;
    text.push(' ')?;
    Ok(())
}

// The text of a whole sheet.
pub(crate) fn sheet_text(alloc: Global, sheet: &Sheet) -> Result<String, Fail> {
    let mut text = String::new(alloc);
    push_sheet(&mut text, sheet)?;
    Ok(text)
}

// What a text gives, or why it gives nothing.
fn told(alloc: Global, text: &[u8]) -> Result<String, Fail> {
    if text.len() > 16_777_216 {
        return Err(Fail::from("a text that is too long"));
    }
    match load(alloc, text) {
        Ok(sheet) => sheet_text(alloc, &sheet),
        Err(refused) => Ok(format!(in alloc; "{refused}")?),
    }
}

#[test]
fn texts_have_their_sheets(rt: HostRuntime) -> Result<(), Fail> {
    const ROWS: [(&[u8], &str); 5] = [
        (b"1\r\n2\r\n", "2x1:1 2 "),
        (
            b"\"Rent, May\",x\nTRUE,=SUM(A1:A3)\n4",
            "3x2:0<Rent, May> 1<x> true f 4 _ ",
        ),
        (b"1\n\n\"\"\n3", "3x1:1 _ 3 "),
        (b"#edition 1\n1,=MATCH(1;A1;0)", "1x2:1 #NAME? "),
        (b"\xEF\xBB\xBF#edition 2\r\n1,=MATCH(1;A1;0)", "1x2:1 f "),
    ];
    for &(text, sheet) in &ROWS {
        let answer = told(rt.alloc(), text)?;
        assert_eq!(&rt; answer.as_str(), sheet);
    }
    Ok(())
}

// What a text gives that has some bytes many times, between two others.
fn told_long(
    alloc: Global,
    front: &[u8],
    many: &[u8],
    times: usize,
    back: &[u8],
) -> Result<String, Fail> {
    let mut text = front.to_vec(alloc)?;
    for _ in 0..times {
        text.extend_from_slice(many)?;
    }
    text.extend_from_slice(back)?;
    told(alloc, &text)
}

#[test]
fn the_first_cause_is_told(rt: HostRuntime) -> Result<(), Fail> {
    const ROWS: [(&[u8], &[u8], usize, &[u8], &str); 6] = [
        (b"1\n", b"\xFF", 1, b"", "sheet: record 2 is not UTF-8"),
        (b"", b"x", 8193, b"", "sheet: field too long at A1"),
        (b"", b",", 16384, b"", "sheet: too many cells"),
        (b"=", b"(", 65, b",=A1", "sheet: formula too deep at A1"),
        (
            b"1,=A2",
            b"+A2",
            255,
            b"",
            "sheet: too many references at B1",
        ),
        (b"#edition 3", b"\n\xFF", 1, b"", "sheet: unknown edition"),
    ];
    for &(front, many, times, back, line) in &ROWS {
        let answer = told_long(rt.alloc(), front, many, times, back)?;
        assert_eq!(&rt; answer.as_str(), line);
    }
    Ok(())
}
