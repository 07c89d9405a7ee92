// The published root: one Writer publishes roots, and up to 64 Views enter them and never wait for the Writer.
// Offered to the crates above: a View enters a root that stands for a front of one list of events, which begins with all that the
// View saw or learnt; a publish adds just the event that it is about; a front's number of events is its length.
#![tactic(auto)]

mod about;
mod book;
mod brand;
mod cell;
mod desk;
mod entered;
mod front;
mod note;
mod opened_book;
mod published;
mod rule;
mod title;
mod view;
mod writer;

pub use about::{About, Itself};
pub use brand::Brand;
pub use cell::{Cell, Parts};
pub use entered::Entered;
pub use note::Note;
pub use opened_book::OpenedBook;
pub use title::Title;
pub use view::View;
pub use writer::Writer;
