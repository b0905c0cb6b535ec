use taco_graph::SheetGraph;

/// The dependency graph under the book of a live sheet.
pub type LiveGraph = SheetGraph;
