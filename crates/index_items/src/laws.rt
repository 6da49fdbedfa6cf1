//! Laws of the back-index and of root records. Each holds for all of them, and its function does nothing.

ghost use Rattle.std.specs.Prelude.{◌≡◌, ◌+◌, ◌*◌, ℕ, List, length};
ghost use Rattle.json_terms.specs.declared.term.Row.{Row};
ghost use Rattle.tree_laws.specs.declared.tree.Tree.{Tree};
ghost use Rattle.index_items.specs.BackIndex.{IsBackIndex};
ghost use Rattle.index_items.specs.BackIndexLaws.{HasOneIndex, HoldsAllRows, HoldsNoOthers};
ghost use Rattle.index_items.specs.BackItem.{BackEntry};
ghost use Rattle.index_items.specs.RootRecord.{root_bytes};

/// At most one list of entries that rise by id is the back-index of the same views.
pub fn back_indexes_are_one()
    ensures { (views : List (List Row)) → HasOneIndex views }
{}

/// Each row of each view stands in the entry of its document.
pub fn entries_hold_all_rows()
    ensures { (views : List (List Row)) (entries : List BackEntry) → IsBackIndex views entries
        → HoldsAllRows views entries }
{}

/// What stands in an entry is where a row of its document stands.
pub fn entries_hold_no_others()
    ensures { (views : List (List Row)) (entries : List BackEntry) → IsBackIndex views entries
        → HoldsNoOthers views entries }
{}

/// A root record has 38 bytes, and 20 for each view.
pub fn root_records_have_lengths()
    ensures { (seq : ℕ) (views : List Tree) (back : Tree)
        → length (root_bytes seq views back) ≡ 38 + 20 * length views }
{}
