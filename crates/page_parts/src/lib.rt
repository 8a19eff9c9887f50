//! What pages are made of: texts that make no markup, dates, styles, charts, and the sums of the files that were read.
#![tactic(auto)]

mod chart;
mod colours;
mod escaping;
mod foot;
mod html;
mod style;
mod times;

pub use chart::{Bar, put_bars, put_dots};
pub use escaping::put_escaped;
pub use foot::{FileSum, hex_of, put_foot, sum_of};
pub use html::Html;
pub use style::put_style;
pub use times::{FIRST_DAY, MONTH_START, is_weekend, put_date, put_moment, put_span, put_weekday};
