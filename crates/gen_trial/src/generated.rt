use edit_log::graph_of;
use edit_script::Command;
use live_gen::generate;
use sheet_model::{Sheet, all_values};
use sheet_refs::cell_of;
use std::alloc::Global;
use std::fmt::Write;
use std::test::Fail;
use taco_graph::{SheetGraph, pair_count};
use value_core::{Value, decode};

// The numbers that some cells show, by the codes of all cells.
fn numbers_at(alloc: Global, sheet: &Sheet, codes: &[u64], names: &[&str]) -> Result<String, Fail> {
    let mut text = String::new(alloc);
    for name in names {
        let cell = cell_of(name.as_bytes()).ok_or("no cell")?;
        if !sheet.holds(cell) {
            return Err(Fail::from("no such cell"));
        }
        let code = codes.get(sheet.place(cell)).ok_or("no such code")?;
        let value = decode(*code).ok_or("no value")?;
        match &value {
            Value::Number(number) => write!(text, " {number}")?,
            _ => return Err(Fail::from("no number")),
        }
    }
    Ok(text)
}

#[test]
fn the_sheet_of_1(rt: HostRuntime) -> Result<(), Fail> {
    let alloc = rt.alloc();
    let (sheet, _) = generate(alloc, 1)?;
    let codes = all_values(alloc, &sheet)?;
    let names = ["A1", "A2", "A3", "A4", "A5", "E1", "G1", "B2", "E2", "G2"];
    let text = numbers_at(alloc, &sheet, &codes, &names)?;
    assert_eq!(rt; text.as_str(), " 838 758 113 515 51 702244 5 1596 635204 0");
    Ok(())
}

#[test]
fn the_script_of_1(rt: HostRuntime) -> Result<(), Fail> {
    let alloc = rt.alloc();
    let (_, script) = generate(alloc, 1)?;
    let mut edits = 0_u32;
    for step in script.steps() {
        if matches!(&step.command, Command::Put(_)) && edits < 1_000 {
            edits += 1;
        }
    }
    let told = (script.names().len(), script.steps().len(), edits);
    assert_eq!(rt; told, (4, 104, 100));
    Ok(())
}

// Columns B, F, G and the chain of C take an edge each or two; D, E and the rest of C take the others.
#[test]
fn the_edges_of_1(rt: HostRuntime) -> Result<(), Fail> {
    let alloc = rt.alloc();
    let (sheet, _) = generate(alloc, 1)?;
    let graph = graph_of(alloc, SheetGraph::new(alloc), &sheet)?;
    let edges = graph.edges()?;
    assert_eq!(rt; (edges.len(), pair_count(&edges)), (10, 9_998));
    Ok(())
}
