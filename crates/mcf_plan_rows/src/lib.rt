#![tactic(auto)]

//! Plans, bottlenecks and faults of a table of places and a table of routes as rows of a table.
//!
//! It builds on `mcf_units`, whose problems they are about, on `mcf_plan_figures`, which has the
//! figures of plans, and on `mcf_answer_rows`, which writes rows. The definitions are in `specs/`:
//! `FaultRows` says how faults are told, `Cells` how figures are, `PlanRows` how plans are, and
//! `BottleneckRows` how bottlenecks are.

mod bottleneck_rows;
mod cells;
mod fault_rows;
mod plan_rows;
mod words;

pub use bottleneck_rows::{
    Blocked, Counted, Led, Member, Own, count_cells, is_led, led_at, member_at, own_cells,
    place_at, put_bottleneck, put_side, through_cells, way_word,
};
pub use cells::{
    PlaceCells, RowCells, amount_cell, exact_cell, passes_in, place_cells, row_cells, row_in,
    yes_or_no,
};
pub use fault_rows::{
    Two, put_beyond, put_cell_faults, put_great, put_greats, put_planner_faults, put_text_fault,
};
pub use plan_rows::{
    Left, LeftCells, Way, Ways, left_at, left_cells, put_heading, put_plan, way_at, ways_after,
};
pub use words::{
    beyond_column, beyond_word, planner_column, planner_table, planner_word, table_word,
};
