//! The laws of the definitions. Each function states some, and does nothing.

ghost use Rattle.std.specs.Prelude.{List, ℕ};
ghost use Rattle.design_docs.specs.History.{Write};
ghost use Rattle.view_engine.specs.Fresh.{RepliesAreFresh, StepsAreFresh};
ghost use Rattle.view_engine.specs.Laws.{EachMayForget, EmptyFoldersHoldWorlds, FilesMayBeTold, HasLastWrites, HasLiveDocuments, ImagesHold, ImagesMayBeTold, IsAcceptedInTurn, IsInOrderOfId, IsNotRefusedAndAccepted, IsNotRefusedAndDone, IsRefusedOnce, IsRefusedOnceBy, MadeWorldsAreSound, MadeWorldsGoOn, StepsGoOn, StepsKeepSound, WorldsBetweenAreSound};

use doc_file::empty_folders_hold_no_writes;
use view_ports::Servers;

/// The live documents are those whose last write is no deletion, each id once and in byte order.
pub fn live_documents_have_their_last_write()
    ensures last { (history : List Write) → HasLastWrites history }
    ensures live { (history : List Write) → HasLiveDocuments history }
    ensures ordered { (history : List Write) → IsInOrderOfId history }
{}

/// A request has one refusal at most before any server is asked, and where it has one, it isn't done. By the documents in memory too it
/// has one at most, and isn't accepted then, unless it is a view.
pub fn requests_have_one_outcome<C: Servers>()
    ensures refused { (languages : List (List ℕ × List ℕ))
        → IsRefusedOnce C.functions C.honest languages }
    ensures done { (languages : List (List ℕ × List ℕ))
        → IsNotRefusedAndDone C.functions C.honest languages }
    ensures once { IsRefusedOnceBy }
    ensures either { IsNotRefusedAndAccepted }
{}

/// What lines that are answered one after another write is what each part of them writes, in turn.
pub fn writes_are_accepted_in_turn()
    ensures { IsAcceptedInTurn }
{}

/// A line that is answered leads from a sound world to a sound one, and so does what a request makes, and a world between a sound one
/// and another is sound.
pub fn worlds_stay_sound<C: Servers>()
    ensures steps { (languages : List (List ℕ × List ℕ))
        → StepsKeepSound C.functions C.honest languages }
    ensures made { (languages : List (List ℕ × List ℕ))
        → MadeWorldsAreSound C.functions C.honest languages }
    ensures between { (languages : List (List ℕ × List ℕ))
        → WorldsBetweenAreSound C.functions C.honest languages }
{}

/// The reply to a view is what mapping all documents afresh gives, where the path of its language is honest and the pictures stand; or it
/// names a fault of the servers, and the count of these rises by two in the request.
pub fn replies_are_fresh<C: Servers>()
    ensures replies { (languages : List (List ℕ × List ℕ))
        → RepliesAreFresh C.functions C.honest languages }
    ensures steps { (languages : List (List ℕ × List ℕ))
        → StepsAreFresh C.functions C.honest languages }
{}

/// A line that is answered leads to a world that has all writes of the one before and knows the same functions, and so does what a
/// request makes.
pub fn worlds_go_on<C: Servers>()
    ensures steps { (languages : List (List ℕ × List ℕ))
        → StepsGoOn C.functions C.honest languages }
    ensures made { (languages : List (List ℕ × List ℕ))
        → MadeWorldsGoOn C.functions C.honest languages }
{}

/// Of a world that files hold, or that an image stands for, other functions may be told: for each index those that were known of it or
/// none, and any where there is no index. So may none at all.
pub fn functions_may_be_told()
    ensures files { FilesMayBeTold }
    ensures images { ImagesMayBeTold }
    ensures none { EachMayForget }
{}

/// A folder without bytes holds a world without writes, of which any functions may be known. What a crash left of a folder holds the
/// world that it stands for, so a run over it begins with that.
pub fn folders_hold_worlds()
    ensures empty { EmptyFoldersHoldWorlds }
    ensures images { ImagesHold }
{
    empty_folders_hold_no_writes();
}
