//! Edits of the items of a leaf.

ghost use Rattle.reduce_tree.specs.Applied.{applied, placed_of, insertions, IsWithoutEqual, RemoveNone};
ghost use Rattle.reduce_tree.specs.declared.edit.Edit.{Edit};
ghost use Rattle.std.specs.List.Sorted.{IsStrictlySortedBy};
ghost use Rattle.std.specs.Prelude.{true, ◌≡◌, ◌≢◌, ◌+◌, ◌<◌, ◌≤◌, ◌∷◌, ◌++◌, List, IfOk, All, length, vec_len, take, slice_index_or};
ghost use Rattle.std.specs.declared.cmp.Ordering.TheVariants.{Less, Equal};

use crate::edit::Edit;
use crate::parts::both;
use json_terms::NoMemory;
use std::alloc::Global;
use tree_laws::Item;

/// How many items from the front are before the key.
pub(crate) fn count_below<T: Item>(items: &[T], key: &T) -> usize
    ensures within { result ≤ length items.now }
    ensures below { All (λ x. T.order x key.now ≡ Less) (take result items.now) }
    ensures stops { (d : T) → result < length items.now → T.order (slice_index_or items.now result d) key.now ≢ Less }
{
    for (i, item) in items.iter().enumerate() {
        if item.cmp_item(key).is_ge() {
            return i;
        }
    }
    items.len()
}

/// The items with the edits made, which name them in order, and whether nothing changed.
pub(crate) fn merge<T: Item>(
    alloc: Global,
    items: Vec<T>,
    edits: &[Edit<T>],
) -> Result<(Vec<T>, bool), NoMemory>
    ensures items { IsStrictlySortedBy T.order items.items → IfOk result (λ after. after.0.items ≡ applied T.order edits.now items.items) }
    ensures count { IfOk result (λ after. vec_len after.0 ≤ vec_len items + insertions edits.now) }
    ensures placed { IfOk result (λ after. insertions edits.now ≤ vec_len after.0) }
    ensures same { IfOk result (λ after. after.1 ≡ true → after.0.items ≡ items.items) }
    ensures inserts { IfOk result (λ after. after.1 ≡ true → insertions edits.now ≡ 0) }
    ensures quiet { RemoveNone T.order edits.now items.items → IfOk result (λ after. after.1 ≡ true) }
{
    let mut done = Vec::new(alloc);
    let mut rest = items;
    let mut same = true;
    for edit in edits {
        let (next, kept) = merge_one(alloc, &mut done, rest, edit)?;
        rest = next;
        same = both(same, kept);
    }
    done.append(&mut rest)?;
    Ok((done, same))
}

/// Moves the items before the edit's, and what takes its place, to those done. The items after it are left. It also answers
/// whether the items done and left are those that there were.
fn merge_one<T: Item>(
    alloc: Global,
    done: &mut Vec<T>,
    mut items: Vec<T>,
    edit: &Edit<T>,
) -> Result<(Vec<T>, bool), NoMemory>
    ensures items { (es : List (Edit T)) → IsStrictlySortedBy T.order items.items → IfOk result (λ rest. done.new.items ++ applied T.order es rest.0.items ≡ done.old.items ++ applied T.order (edit.now ∷ es) items.items) }
    ensures sorted { IsStrictlySortedBy T.order items.items → IfOk result (λ rest. IsStrictlySortedBy T.order rest.0.items) }
    ensures count { IfOk result (λ rest. vec_len done.new + vec_len rest.0 ≤ vec_len done.old + vec_len items + length (placed_of edit.now)) }
    ensures placed { IfOk result (λ rest. vec_len done.old + length (placed_of edit.now) ≤ vec_len done.new) }
    ensures same { IfOk result (λ rest. rest.1 ≡ true → done.new.items ++ rest.0.items ≡ done.old.items ++ items.items) }
    ensures inserts { IfOk result (λ rest. rest.1 ≡ true → length (placed_of edit.now) ≡ 0) }
    ensures quiet { (es : List (Edit T)) → RemoveNone T.order (edit.now ∷ es) items.items → IfOk result (λ rest. (rest.1 ≡ true) × RemoveNone T.order es rest.0.items) }
{
    let at = count_below(&items, edit.key());
    let mut rest = items.split_off(at)?;
    let kept = drop_equal(&mut rest, edit.key());
    let mut placed = edit.placed(alloc)?;
    let same = both(kept, placed.is_empty());
    done.append(&mut items)?;
    done.append(&mut placed)?;
    Ok((rest, same))
}

/// Takes the first item out where it compares equal to the key. It answers whether there was none.
fn drop_equal<T: Item>(items: &mut Vec<T>, key: &T) -> bool
    ensures kept { IsWithoutEqual T.order key.now items.old.items items.new.items }
    ensures same { result ≡ true → items.new.items ≡ items.old.items }
    ensures quiet { All (λ x. T.order x key.now ≢ Equal) items.old.items → result ≡ true }
    ensures fewer { vec_len items.new ≤ vec_len items.old }
{
    if let Some(first) = items.first() {
        if first.cmp_item(key).is_eq() {
            items.remove(0);
            return false;
        }
    }
    true
}
