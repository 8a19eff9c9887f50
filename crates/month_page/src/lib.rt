//! A month as pages for a browser: crew as rows, days as columns, why bids were denied, who flies what; and the page of one
//! pilot.
#![tactic(auto)]

mod beside;
mod bids;
mod card;
mod changes;
mod charts;
mod counting;
mod entry;
mod head;
mod naming;
mod offer_words;
mod offers;
mod own_page;
mod page_stop;
mod paging;
mod pilot;
mod plan;
mod printing;
mod route;
mod row;
mod script;
mod strip;
mod style;
mod sums;
mod trips;

pub use beside::Beside;
pub use changes::Changes;
pub use charts::{GROUNDS, Ground, count_bids, count_denied, put_charts};
pub use counting::counted;
pub use head::{put_clock, put_document, put_styles, put_title};
pub use own_page::pilot_page;
pub use page_stop::PageStop;
pub use paging::{Seen, page, read_seen};
pub use pilot::{Pilot, SeenBid, pilots_of};
pub use plan::plan_texts;
pub use printing::print_page;
pub use route::put_route;
pub use script::SCRIPT;
pub use strip::{put_day_heads, put_strip};
pub use sums::{push_plan, sums_of};
pub use trips::{count_of, days_of, lack_of, put_cells, put_trips_head};
