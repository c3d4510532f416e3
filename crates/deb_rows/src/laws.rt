//! Theorems about rows. Each is a function with an empty body.

ghost use Rattle.deb_rows.specs.Laws.{OneText, SpansNameCells};

/// Rows that print to the same text are the same: a text has one list of rows at most.
pub fn one_text()
    ensures { OneText }
{}

/// The spans of a table name exactly the cells, in their order.
pub fn spans_name_cells()
    ensures { SpansNameCells }
{}
