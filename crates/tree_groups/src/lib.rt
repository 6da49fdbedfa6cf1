//! The indexes over trees of a database, each opened once: bringing that of a design up to date, and removing those that no design has.
#![tactic(auto)]

mod groups;
mod laws;

pub use groups::Groups;
pub use laws::{
    empty_folders_hold_no_pictures, files_stand_for_pictures, functions_may_be_forgotten,
    images_stand_around, images_stand_for_pictures, kinds_are_free, none_open_are_at,
    other_files_matter_not,
};
