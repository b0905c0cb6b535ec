// What no clause says, and no run of the program shows: which cell evaluation names where a value isn't known. The
// expected answers were worked out by hand.
ghost use Rattle.std.specs.Prelude.{◌≡◌, IfSome, option_map};
ghost use Rattle.value_core.specs.Values.{code_of};
ghost use Rattle.formula_eval.specs.Inputs.{IsCode};

use formula_eval::{Inputs, Missing, Stack, eval};
use formula_syntax::{Edition, Formula, MAX_FIELD, read_formula};
use sheet_refs::{Cell, Sizes};
use std::alloc::Global;
use std::test::Fail;
use value_core::{Value, Whole, code};

// Some values of a rectangle, row by row; None and what is past the list isn't known.
#[derive(Clone, Copy)]
struct Known<'a> {
    sizes: Sizes,
    values: &'a [Option<Value>],
}

impl<'a> Inputs for Known<'a> {
    ghost use Rattle.std.specs.Prelude.{option_map, slice_index_or, None};
    ghost use Rattle.sheet_refs.specs.Sizes.{place_of};
    ghost use Rattle.value_core.specs.Values.{code_of};

    ghost sizes = { λ known. known.sizes };

    ghost codes = { λ known cell.
        option_map code_of (slice_index_or known.values.now (place_of known.sizes cell) None) };

    fn rows(&self) -> u32 {
        self.sizes.rows
    }

    fn cols(&self) -> u32 {
        self.sizes.cols
    }

    fn get(&self, cell: Cell) -> Option<u64> {
        let place = self.sizes.place(cell);
        if place < self.values.len() {
            word_of(self.values[place])
        } else {
            None
        }
    }
}

fn word_of(value: Option<Value>) -> Option<u64>
    ensures held { result ≡ option_map code_of value }
    ensures code { IfSome result IsCode }
{
    match &value {
        Some(value) => Some(code(*value)),
        None => None,
    }
}

fn formula(alloc: Global, text: &str) -> Result<Formula, Fail> {
    if text.len() > MAX_FIELD {
        return Err(Fail::from("a long text"));
    }
    Ok(
        read_formula(alloc, text.as_bytes(), Edition::Two)
            .ok()
            .ok_or("no formula")?,
    )
}

// What evaluation answers: a number, or a cell that is missing.
fn shown(alloc: Global, answer: Result<Value, Missing>) -> Result<String, Fail> {
    Ok(match &answer {
        Ok(Value::Number(n)) => format!(in alloc; "{n}")?,
        Ok(_) => String::from_str(alloc, "no number")?,
        Err(missing) => format!(in alloc; "missing {}", missing.cell)?,
    })
}

// What evaluation answers to the formula that a text spells, as a text.
fn answered(alloc: Global, text: &str, known: &Known, stack: &mut Stack) -> Result<String, Fail> {
    let answer = eval(&formula(alloc, text)?, known, stack);
    shown(alloc, answer)
}

fn number(n: i64) -> Option<Value> {
    Whole::new(n).map(Value::Number)
}

const ROWS: [(&str, &str); 7] = [
    ("=A1+B2", "4"),
    ("=B1", "missing B1"),
    ("=IF(FALSE;B1;1)", "missing B1"),
    ("=A1+1/0*A2", "missing A2"),
    ("=SUM(A1;C1:D9)", "1"),
    ("=SUM(A1:B2)", "missing B1"),
    ("=COUNTBLANK(A2:XFD1048576)", "missing A2"),
];

#[test]
fn unknown_cells_are_missing(rt: HostRuntime) -> Result<(), Fail> {
    // Two rows of two columns: the numbers 1 and 3 in the corners, and two cells of which no value is known.
    let values = [number(1), None, None, number(3)];
    let known = Known {
        sizes: Sizes { rows: 2, cols: 2 },
        values: &values,
    };
    let mut stack = Stack::new(rt.alloc())?;
    for &(text, wanted) in &ROWS {
        let answer = answered(rt.alloc(), text, &known, &mut stack)?;
        assert_eq!(rt; (text, answer.as_str()), (text, wanted));
    }
    Ok(())
}
