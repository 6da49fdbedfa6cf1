//! The indexes that are open.

mod bring;
mod clean;

ghost use Rattle.std.specs.Prelude.{◌≢◌, All, AllPairs};
ghost use Rattle.view_ports.specs.declared.file_name.Stem.TheVariants.{Docs as DocsStem};
ghost use Rattle.tree_index.specs.Index.{stem_of};

use std::alloc::Global;
use tree_index::Index;
use view_ports::Stem;

/// The indexes of a database that are open, each once. A design that says the same of its views as another one shares its index.
#[derive(Drop)]
pub struct Groups {
    open: Vec<Index>,
    ghost apart: { AllPairs (λ one other. stem_of one ≢ stem_of other) open.items },
    ghost of_views: { All (λ index. stem_of index ≢ DocsStem) open.items },
}

impl Groups {
    ghost use Rattle.std.specs.Prelude.{◌≡◌, [], Some, slice_get};
    ghost use Rattle.tree_index.specs.declared.index.Index.{Index as IndexValue};
    ghost use Rattle.tree_groups.specs.Groups.{open_of, IsClosed, IsPlaceOf};

    /// No open index. It takes no memory.
    pub fn new(alloc: Global) -> Groups
        ensures { open_of result ≡ [] }
    {
        Groups {
            open: Vec::new(alloc),
        }
    }

    /// The index in a place that `update` or `open` answered.
    pub fn index(&self, place: usize) -> &Index
        requires { (index : IndexValue) × (slice_get (open_of self.now) place ≡ Some index) }
        ensures { slice_get (open_of self.now) place ≡ Some result.now }
    {
        &self.open.as_slice()[place]
    }

    /// The place of the open index of these files, where there is one.
    fn place_of(&self, stem: Stem) -> Option<usize>
        ensures { IsPlaceOf self.now stem result }
    {
        self.open.iter().position(|index| index.name().stem == stem)
    }

    /// Closes the index of these files, where it is open.
    fn close(&mut self, stem: Stem)
        ensures { IsClosed stem self.old self.new }
    {
        if let Some(place) = self.place_of(stem) {
            self.open.remove(place);
        }
    }
}
