//! The index of a signature's views: a pair of files that holds the rows of each view as of one sequence, as trees.
//!
//! The file of an index holds nodes and root records. A root record names a tree for each view and the back-index, which says
//! where the rows of each document stand. `Index::replace` exchanges the rows of documents in trees that the next commit makes
//! those of the index; until then a crash leaves the index as it was.
#![tactic(auto)]

mod fault;
mod index;
mod laws;
mod load;
mod shown;
mod trees;
mod walk;

pub use fault::IndexFault;
pub use index::Index;
pub use laws::{
    empty_files_hold_no_picture, files_of_open_indexes_hold, images_of_open_indexes_stand,
    pictures_are_one, pictures_hold_without_functions,
};
pub use row_exchange::DocRows;
