//! A replica that is kept in a SQLite file, and comes back from it.
#![tactic(auto)]

mod compacting;
mod entry;
mod keeping;
mod laws;
mod opening;
mod reading;
mod rebuilding;
mod store;
mod store_error;
mod taking;
mod to_make;
mod writing;
mod writing_all;
mod written;

pub use laws::{
    all_are_saved, all_come_back, crashes_come_back, events_are_saved, events_come_back,
    strings_come_to_one_replica, writes_are_saved,
};
pub use store::Store;
pub use store_error::StoreError;
pub use written::Written;
