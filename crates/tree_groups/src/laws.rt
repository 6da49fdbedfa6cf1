//! Laws of pictures in files, and of open indexes. Each holds for all values, and its function does nothing.

ghost use Rattle.tree_groups.specs.Laws.{EmptyFoldersHoldNone, FilesMayForget, FilesStand, ImageKindsAreFree, ImagesMayForget, ImagesStand, ImagesStandAround, KindsAreFree, NoneOpenAreAt, OpenKindsAreFree, OpenMayForget, OthersMatterNot, OtherImagesMatterNot};

/// Each image that a crash may leave of files that hold pictures stands for them.
pub fn images_stand_for_pictures()
    ensures { ImagesStand }
{}

/// What is read of files that hold pictures stands for them.
pub fn files_stand_for_pictures()
    ensures { FilesStand }
{}

/// Files of no index matter not to the pictures, nor to the open indexes, nor do their images.
pub fn other_files_matter_not()
    ensures files { OthersMatterNot }
    ensures images { OtherImagesMatterNot }
{}

/// A folder without bytes holds no pictures.
pub fn empty_folders_hold_no_pictures()
    ensures { EmptyFoldersHoldNone }
{}

/// Where no index is open, what the files hold is all.
pub fn none_open_are_at()
    ensures { NoneOpenAreAt }
{}

/// While the files of one index change, each image stands for the old pictures, or for those with a next one.
pub fn images_stand_around()
    ensures { ImagesStandAround }
{}

/// A signature without a picture may be of any kind, where no index of it is open.
pub fn kinds_are_free()
    ensures held { KindsAreFree }
    ensures images { ImageKindsAreFree }
    ensures open { OpenKindsAreFree }
{}

/// Pictures by the values of known functions are pictures of which no functions are known.
pub fn functions_may_be_forgotten()
    ensures images { ImagesMayForget }
    ensures files { FilesMayForget }
    ensures open { OpenMayForget }
{}
