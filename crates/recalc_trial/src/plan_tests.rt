// What no clause says: that a plan is made where memory is ample. The expected levels were worked out by hand.
ghost use Rattle.std.specs.Prelude.{◌≢◌, AllPairs, IfOk, OnOk};

use crate::sheets::{cell, sheet_of};
use edit_log::graph_of;
use plain_graph::PlainGraph;
use recalc_plan::{Plan, plan};
use sheet_refs::Cell;
use std::alloc::Global;
use std::fmt::Write;
use std::test::Fail;

// The fields of a sheet, its stale cells, and what is planned.
type Row = (
    &'static [(&'static str, &'static str)],
    &'static [&'static str],
    &'static str,
);

const ROWS: [Row; 3] = [
    // The sheet of the two records `1,=A1+1` and `2,=A2+B1`, after an edit of A1.
    (
        &[("A1", "1"), ("B1", "=A1+1"), ("A2", "2"), ("B2", "=A2+B1")],
        &["A1", "B1", "B2"],
        "A1/B1/B2/ circular",
    ),
    // A cycle of two, a cell that leads into it, and a cell beside it.
    (
        &[("A1", "=B1"), ("B1", "=A1"), ("C1", "=A1+1"), ("D1", "=A2")],
        &["A1", "B1", "C1", "D1"],
        "D1/ circular A1 B1 C1",
    ),
    // No stale cell.
    (&[("C2", "=A1")], &[], " circular"),
];

#[test]
fn levels_follow_references_and_cycles_are_apart(rt: HostRuntime) -> Result<(), Fail> {
    for &(fields, stale, wanted) in &ROWS {
        let told = planned(rt.alloc(), fields, stale)?;
        assert_eq!(rt; told.as_str(), wanted);
    }
    Ok(())
}

// Adds a cell that isn't there yet.
fn add_new(cells: &mut Vec<Cell>, cell: Cell) -> Result<(), Fail>
    requires { AllPairs (λ a b. a ≢ b) cells.old.items }
    ensures { OnOk result (AllPairs (λ a b. a ≢ b) cells.new.items) }
{
    if cells.contains(&cell) {
        return Err(Fail::from("a cell twice"));
    }
    cells.push(cell)?;
    Ok(())
}

// The cells with these names.
fn cells_of(alloc: Global, names: &[&str]) -> Result<Vec<Cell>, Fail>
    ensures { IfOk result (λ cells. AllPairs (λ a b. a ≢ b) cells.items) }
{
    let mut cells = Vec::new(alloc);
    for name in names {
        add_new(&mut cells, cell(name)?)?;
    }
    Ok(cells)
}

// The plan of some stale cells of a sheet with these fields.
fn plan_of(alloc: Global, fields: &[(&str, &str)], stale: &[&str]) -> Result<Plan, Fail> {
    let sheet = sheet_of(alloc, fields)?;
    let graph = graph_of(alloc, PlainGraph::new(alloc), &sheet)?;
    let cells = cells_of(alloc, stale)?;
    Ok(plan(alloc, &graph, &cells)?)
}

// What is planned: the levels, each ended by a stroke, and then the circular cells.
fn planned(alloc: Global, fields: &[(&str, &str)], stale: &[&str]) -> Result<String, Fail> {
    let plan = plan_of(alloc, fields, stale)?;
    let mut text = String::new(alloc);
    write_plan(&mut text, &plan)?;
    Ok(text)
}

fn write_plan(text: &mut String, plan: &Plan) -> Result<(), Fail> {
    for level in &plan.levels {
        write_cells(text, level)?;
        text.push('/')?;
    }
    text.push_str(" circular")?;
    for cell in &plan.circular {
        write!(text, " {cell}")?;
    }
    Ok(())
}

fn write_cells(text: &mut String, cells: &[Cell]) -> Result<(), Fail> {
    for cell in cells {
        write!(text, "{cell}")?;
    }
    Ok(())
}
