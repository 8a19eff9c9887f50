//! Places in the files of a folder, and prose that shows them: a line of a file with a mark below it.
#![tactic(auto)]

mod lines;
mod marks;
mod place;
mod prose;
mod rows;
mod times;

pub use lines::{line_at, line_count, line_start};
pub use marks::put_mark;
pub use place::{Place, cell_place, line_place, row_place, shape_place};
pub use prose::Prose;
pub use rows::{Cell, Row, cell_bytes, cells_of, rows_of};
pub use times::{month_name, put_date, put_moment, put_stretch};
