//! Laws of trees that hold the rows of an index. Each holds for all of them, and its function does nothing.

ghost use Rattle.index_trees.specs.Laws.{EditsOfBatchesAddUp, EmptyTreesHaveRoom, EmptyTreesHaveSizes, EmptyTreesHoldNothing, TreesAreInOrder, TreesHaveSizes, TreesHoldWithout, TreesKeepRowsWithinBounds, TreesRise, TreesStay, TreesTellRows};

/// The rows that trees hold are those that are read of them, so the bytes in the store decide them.
pub fn trees_tell_rows()
    ensures { TreesTellRows }
{}

/// Trees hold their rows where more is put into the store, and where the functions of the query server aren't known.
pub fn trees_stay()
    ensures later { TreesStay }
    ensures without { TreesHoldWithout }
{}

/// The rows of each view rise strictly by key, id and place, and so they are in order.
pub fn trees_rise()
    ensures rise { TreesRise }
    ensures order { TreesAreInOrder }
{}

/// Each row of the trees is one that an index may hold.
pub fn trees_keep_rows_within_bounds()
    ensures { TreesKeepRowsWithinBounds }
{}

/// The numbers of trees of 2^40 items at most are those that a call may be given.
pub fn trees_have_sizes()
    ensures { TreesHaveSizes }
{}

/// Trees with no items hold no rows, in whatever store.
pub fn empty_trees_hold_nothing()
    ensures { EmptyTreesHoldNothing }
{}

/// Their numbers are those that a call may be given, and they have room in a store of any size.
pub fn empty_trees_have_sizes()
    ensures sizes { EmptyTreesHaveSizes }
    ensures room { EmptyTreesHaveRoom }
{}

/// An exchange may be made in batches, with as many edits in all.
pub fn edits_of_batches_add_up()
    ensures { EditsOfBatchesAddUp }
{}
