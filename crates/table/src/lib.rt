#![tactic(auto)]

// What stands beside two masts on one plate, as SVG: the legend, a line for each mast with its sample
// stroke and its name (`legend`), and the table below, a column for each mast (`column`). The texts are
// `legend_text` (specs/Legend.antt) and `table_text` (specs/Table.antt), for any numbers.
pub mod column;
pub mod legend;
