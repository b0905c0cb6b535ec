ghost use Rattle.taco_graph.specs.Laws.{AnswersAreFew, OneEdgeGivesOne, EdgesAreFew};
ghost use Rattle.taco_graph.specs.Laws.{StandingEdgesAreDistinct, OrderIsByParts, ListsInOrderAreOne};
ghost use Rattle.taco_graph.specs.Laws.{OneEdgeStandsAlone, FilledColumnsAreOneEdge};
ghost use Rattle.taco_graph.specs.Laws.{TwoCellsAreFilled};

/// What holds of the answers of edges, and of the pairs that they stand for: a query adds no more ranges than there
/// are edges; one edge of which a cell is meant gives one range, with exactly the cells that are meant; and edges that
/// stand for some pairs are no more than these.
pub fn taco_laws()
    ensures few { AnswersAreFew }
    ensures one { OneEdgeGivesOne }
    ensures edges_are_few { EdgesAreFew }
{}

/// What holds of edges in order: of two the first of five parts in which they differ tells which stands first, the
/// head and the tail of the run, those of the rectangle, and the pattern; edges that stand for some pairs are distinct;
/// and distinct edges have one list in order.
pub fn order_laws()
    ensures by_parts { OrderIsByParts }
    ensures distinct { StandingEdgesAreDistinct }
    ensures one_list { ListsInOrderAreOne }
{}

/// What holds of edges of which no two can be joined: where their pairs are those of one edge, they are just that one;
/// and a column that is filled down from its first cell, of whatever length and in whatever order of its cells, is one
/// edge, as where B2 is given A2 and then B1 is given A1.
pub fn join_laws()
    ensures alone { OneEdgeStandsAlone }
    ensures filled { FilledColumnsAreOneEdge }
    ensures example { TwoCellsAreFilled }
{}
