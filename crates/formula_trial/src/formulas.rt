// What no clause says: that memory is left for a formula, and that what is printed is what a person expects. Further
// printed forms are shown as data, by the logs of live runs in `tests/cli`.
use formula_syntax::{Edition, print, read_formula, refs, shift};
use std::alloc::Global;
use std::fmt::Write;
use std::test::Fail;

// What is printed of the formula that a text spells and of its shift by a row and a column, and its ranges.
fn told(alloc: Global, text: &str) -> Result<String, Fail> {
    if text.len() > 100 {
        return Err(Fail::from("a long text"));
    }
    let Ok(formula) = read_formula(alloc, text.as_bytes(), Edition::Two) else {
        return Err(Fail::from("no formula"));
    };
    let printed = print(alloc, &formula)?;
    let shifted = print(alloc, &shift(alloc, &formula, 1, 1)?)?;
    let (printed, shifted) = (
        std::str::from_utf8(&printed)?,
        std::str::from_utf8(&shifted)?,
    );
    let mut shown = format!(in alloc; "{printed} {shifted}")?;
    for range in refs(alloc, &formula)?.ranges() {
        write!(shown, " {range}")?;
    }
    Ok(shown)
}

#[test]
fn formulas_are_printed(rt: HostRuntime) -> Result<(), Fail> {
    for &(text, wanted) in &[
        (
            "=SUM(a5:$A$3 ; (1+2)*(-3))",
            "=SUM(A$3:$A5;(1+2)*-3) =SUM($A$3:B6;(1+2)*-3) A3:A5",
        ),
        ("=-(XFD1^[.B2])", "=-(XFD1^B2) =-(#REF!^C3) XFD1:XFD1 B2:B2"),
    ] {
        let shown = told(rt.alloc(), text)?;
        assert_eq!(rt; shown.as_str(), wanted);
    }
    Ok(())
}
