// What no clause says: that the definitions of names and printed forms mean what a person who knows spreadsheets
// expects. The expected values were worked out by hand.
use sheet_refs::{Cell, cell_of, range_of, ref_of};
use std::alloc::Global;
use std::fmt::Write;
use std::test::Fail;

// The name of the cell that a text names.
fn named(alloc: Global, text: &str) -> Result<String, Fail> {
    let cell = cell_of(text.as_bytes()).ok_or("no cell")?;
    Ok(format!(in alloc; "{cell}")?)
}

#[test]
fn cells_have_names(rt: HostRuntime) -> Result<(), Fail> {
    for &(text, name, row, col) in &[
        ("a1", "A1", 1, 1),
        ("z26", "Z26", 26, 26),
        ("aA10", "AA10", 10, 27),
        ("Az2", "AZ2", 2, 52),
        ("ba2", "BA2", 2, 53),
        ("zz9", "ZZ9", 9, 702),
        ("aaa9", "AAA9", 9, 703),
        ("xFd1048576", "XFD1048576", 1_048_576, 16_384),
    ] {
        let found = named(rt.alloc(), text)?;
        assert_eq!(rt;
            (found.as_str(), cell_of(text.as_bytes())),
            (name, Cell::new(row, col))
        );
    }
    Ok(())
}

#[test]
fn ranges_have_names(rt: HostRuntime) -> Result<(), Fail> {
    for &(name, printed, cells) in &[
        ("B7", "B7:B7", 1),
        ("A1:A1", "A1:A1", 1),
        ("a1:b3", "A1:B3", 6),
        ("B2:A1", "A1:B2", 4),
        ("A2:B1", "A1:B2", 4),
        ("B1:A3", "A1:B3", 6),
        ("Z9:AA9", "Z9:AA9", 2),
        ("XFD1048576:A1", "A1:XFD1048576", 17_179_869_184),
    ] {
        let range = range_of(name.as_bytes()).ok_or("no range")?;
        let text = format!(in rt.alloc(); "{range}")?;
        assert_eq!(rt;
            (name, text.as_str(), range.cells()),
            (name, printed, cells)
        );
    }
    Ok(())
}

// What is printed of the reference that a text spells; nothing where it spells none.
fn reprinted(alloc: Global, dotted: bool, text: &str) -> Result<String, Fail> {
    let mut shown = String::new(alloc);
    if let Some(reference) = ref_of(dotted, text.as_bytes()) {
        write!(shown, "{reference}")?;
    }
    Ok(shown)
}

#[test]
fn references_are_read_and_printed(rt: HostRuntime) -> Result<(), Fail> {
    for &(dotted, text, printed) in &[
        (false, "a1", "A1"),
        (false, "$xfd$1048576", "$XFD$1048576"),
        (false, "A1:A1", "A1:A1"),
        (false, "A1:$A$1", "A1:$A$1"),
        (false, "$A$1:A1", "$A$1:A1"),
        (false, "B$2:$A1", "$A1:B$2"),
        (false, "A3:B$1", "A$1:B3"),
        (false, "$C1:A$3", "A1:$C$3"),
        (true, ".A1", "A1"),
        (true, ".$B$2:.A1", "A1:$B$2"),
        (false, "A", ""),
        (false, "$1", ""),
        (false, "A$", ""),
        (false, "$$A1", ""),
        (false, "A1:", ""),
        (false, ":A1", ""),
        (false, "A1:B2:C3", ""),
        (false, ".A1", ""),
        (true, "A1", ""),
        (true, ".A1:B2", ""),
        (false, "A01", ""),
        (false, "XFE1", ""),
    ] {
        let shown = reprinted(rt.alloc(), dotted, text)?;
        assert_eq!(rt; (text, shown.as_str()), (text, printed));
    }
    Ok(())
}
