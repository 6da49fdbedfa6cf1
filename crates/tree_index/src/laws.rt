//! Laws of indexes in their files. Each holds for all values, and its function does nothing.

ghost use Rattle.tree_index.specs.Laws.{EmptyFilesHoldNone, FilesHold, ImagesStand, PicturesAreOne, PicturesHoldWithout};

/// Each image that a crash may leave of an open index stands for its picture.
pub fn images_of_open_indexes_stand()
    ensures { ImagesStand }
{}

/// The files of an open index hold its picture.
pub fn files_of_open_indexes_hold()
    ensures { FilesHold }
{}

/// Files without bytes hold no picture.
pub fn empty_files_hold_no_picture()
    ensures { EmptyFilesHoldNone }
{}

/// A root holds one picture, of whatever views.
pub fn pictures_are_one()
    ensures { PicturesAreOne }
{}

/// A picture by the functions of a query server is one whatever they are.
pub fn pictures_hold_without_functions()
    ensures { PicturesHoldWithout }
{}
