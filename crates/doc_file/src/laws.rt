//! Laws of the documents' file. Each holds for all values, and its function does nothing.

ghost use Rattle.doc_file.specs.Laws.{ChangesGoInPages, EmptyFoldersHoldNoWrites, FilesHold, ImagesStand, LiveAreStored, MappedAreStored, StatesAreTold};

/// Each image that a crash may leave of open documents stands for their history.
pub fn images_of_open_documents_stand()
    ensures { ImagesStand }
{}

/// The files of open documents hold their history.
pub fn files_of_open_documents_hold()
    ensures { FilesHold }
{}

/// What is kept of an id tells the state that it has in the history.
pub fn states_are_told()
    ensures { StatesAreTold }
{}

/// A folder without bytes of documents holds the history without writes.
pub fn empty_folders_hold_no_writes()
    ensures { EmptyFoldersHoldNoWrites }
{}

/// What has changed may be listed page by page.
pub fn changes_go_in_pages()
    ensures { ChangesGoInPages }
{}

/// Of a history whose documents can be stored, each live document and each that views map can be stored, and is of its id.
pub fn live_documents_can_be_stored()
    ensures live { LiveAreStored }
    ensures mapped { MappedAreStored }
{}
