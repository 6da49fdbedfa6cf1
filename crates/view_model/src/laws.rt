// The laws of rows and pictures. Each function states some, and does nothing.
ghost use Rattle.std.specs.Prelude.{List, Option, ℕ};
ghost use Rattle.json_terms.specs.Json.{Json};
ghost use Rattle.view_model.specs.Standing.{DigestsTellDesigns, DropsKeepPictures, FirstsHavePictures, NoPicturesStand, UpdatesKeepPictures, WritesKeepPictures};
ghost use Rattle.design_docs.specs.declared.design.View.{View};
ghost use Rattle.view_model.specs.AnswerLaws.{HasAnswer, IsOneAnswer};
ghost use Rattle.view_model.specs.GroupLaws.{NoRunIsEmpty, RunsAreTheRows, RunsAreWholeGroups};
ghost use Rattle.view_model.specs.Laws.{AreEmittedByView, AreInsertedInOrder, AreTakenByView, ChangedIsWrittenSince, FirstDropsNewest, MapsDistinctIds, MapsWrittenSince, ComplaintsMeetAll, IsSpoiledAsMet, IsSpoiledByMapped, IsTrueBefore, IsUpdatedInOrder, NoPictureIsTrue, RowsAreBySequence, RisingRowsAreSorted, RowsOfOthers, RowsRise, StaysTrue, TruePicturesAreShaped, UpdatesAreAfresh, UpdatesAreFree, UpdatesExist, UpdatesGoInBatches, UpdatesGoInPages, UpdatesKeepShape, UpdatesOfNothing, UpdatesRise, UpdatesStayTrue, ViewsAreUpdatedApart};

use view_ports::Servers;

/// The documents that were written since are of distinct ids, and are those whose last write has a greater number.
pub fn documents_are_mapped_once()
    ensures distinct { MapsDistinctIds }
    ensures since { MapsWrittenSince }
{}

/// What the first writes and the writes since are.
pub fn histories_are_cut_by_sequence()
    ensures first { FirstDropsNewest }
    ensures since { ChangedIsWrittenSince }
{}

/// An update of a true picture gives the rows that mapping all documents afresh gives.
pub fn updates_are_afresh<C: Servers>()
    ensures exist { (path : List ℕ) (views : List View) → UpdatesExist (C.functions path) (C.honest path) views }
    ensures rows { (path : List ℕ) (views : List View) → UpdatesAreAfresh (C.functions path) (C.honest path) views }
    ensures stays { (path : List ℕ) (views : List View) → UpdatesStayTrue (C.functions path) (C.honest path) views }
{}

/// An update may be made in batches.
pub fn updates_go_in_batches()
    ensures batches { UpdatesGoInBatches }
    ensures pages { UpdatesGoInPages }
{}

/// Whatever is emitted, also on a path that isn't honest: an update leaves the rows of documents without a write since, and so
/// all rows where there is none, no row of one view gets into another, and the picture keeps its shape.
pub fn updates_keep_rows<C: Servers>()
    ensures nothing { (path : List ℕ) (views : List View) → UpdatesOfNothing (C.functions path) (C.honest path) views }
    ensures rows_of_others { (path : List ℕ) (views : List View) → RowsOfOthers (C.functions path) (C.honest path) views }
    ensures apart { (path : List ℕ) (views : List View) → ViewsAreUpdatedApart (C.functions path) (C.honest path) views }
    ensures shape { (path : List ℕ) (views : List View) → UpdatesKeepShape (C.functions path) (C.honest path) views }
    ensures free { (path : List ℕ) (views : List View) → UpdatesAreFree (C.functions path) (C.honest path) views }
{}

/// No picture is a true one, a picture that is true stays true, and it has the shape of the views.
pub fn pictures_stay_true<C: Servers>()
    ensures none { (path : List ℕ) (views : List View) → NoPictureIsTrue (C.functions path) views }
    ensures shaped { (path : List ℕ) (views : List View) → TruePicturesAreShaped (C.functions path) views }
    ensures after { (path : List ℕ) (views : List View) → StaysTrue (C.functions path) views }
    ensures before { (path : List ℕ) (views : List View) → IsTrueBefore (C.functions path) views }
{}

/// Where a map source doesn't compile, an update of a true picture maps all documents, and some where the views are spoiled.
pub fn complaints_meet_all<C: Servers>()
    ensures all { (path : List ℕ) (views : List View) → ComplaintsMeetAll (C.functions path) views }
    ensures mapped { (path : List ℕ) (views : List View) → IsSpoiledByMapped (C.functions path) views }
    ensures spoiled { (path : List ℕ) (views : List View) → IsSpoiledAsMet (C.functions path) (C.honest path) views }
{}

/// Emissions that come document by document may be taken view by view.
pub fn emissions_are_taken_by_view()
    ensures taken { AreTakenByView }
    ensures emitted { AreEmittedByView }
{}

/// Pictures stand where there are none, after a write, after an update on any path, where one is dropped, and at an earlier
/// moment as far as they reach back.
pub fn pictures_are_kept<C: Servers>()
    ensures none { (signature : Json → List ℕ) (path_for : Json → Option (List ℕ)) (views_for : Json → List View) → NoPicturesStand signature path_for views_for C.functions C.honest }
    ensures writes { (signature : Json → List ℕ) (path_for : Json → Option (List ℕ)) (views_for : Json → List View) → WritesKeepPictures signature path_for views_for C.functions C.honest }
    ensures updates { (signature : Json → List ℕ) (path_for : Json → Option (List ℕ)) (views_for : Json → List View) → UpdatesKeepPictures signature path_for views_for C.functions C.honest }
    ensures drops { (signature : Json → List ℕ) (path_for : Json → Option (List ℕ)) (views_for : Json → List View) → DropsKeepPictures signature path_for views_for C.functions C.honest }
    ensures firsts { (signature : Json → List ℕ) (path_for : Json → Option (List ℕ)) (views_for : Json → List View) → FirstsHavePictures signature path_for views_for C.functions C.honest }
{}

/// Rows are those that inserting each before the first greater row gives, and any list in order with the same rows is theirs.
pub fn rows_are_inserted_in_order()
    ensures inserted { AreInsertedInOrder }
    ensures any { IsUpdatedInOrder }
    ensures by_sequence { RowsAreBySequence }
{}

/// No two rows of a view have one id and place, so that each is less than those after it.
pub fn rows_rise_strictly()
    ensures rows { RowsRise }
    ensures updates { UpdatesRise }
    ensures sorted { RisingRowsAreSorted }
{}

/// Where digests tell the designs of a history apart, designs with one digest have the same path and the same sources.
pub fn digests_tell_designs()
    ensures { DigestsTellDesigns }
{}

/// Where the value of each group is one text, so is an answer, and there is one.
pub fn answers_are_one()
    ensures one { IsOneAnswer }
    ensures some { HasAnswer }
{}

/// The runs of groups one after another are the rows, none is empty, and of rows in order each is a whole group.
pub fn runs_are_groups()
    ensures rows { RunsAreTheRows }
    ensures some { NoRunIsEmpty }
    ensures whole { RunsAreWholeGroups }
{}
