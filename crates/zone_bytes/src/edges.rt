//! Edges of blocks, noted while the blocks are moved. An edge is a place at which a block begins.

ghost use Rattle.std.specs.Prelude.{◌≡◌, ◌+◌, ◌∷◌, ◌++◌, [], ℕ, List, IfSome};
ghost use Rattle.block_store.specs.Block.{Block, sizes};
ghost use Rattle.zone_bytes.specs.Edges.{AreEdges, Starts};

use std::alloc::Global;

/// Places at which relocatable blocks of a run begin once the run is packed: for each page above
/// the run's first page, the lowest such place at or above the page's bottom. The walk that moves
/// the blocks notes these edges, so that landmarks are laid without another walk. Where the host
/// refuses their room, no edges are noted.
#[derive(Drop)]
pub struct Edges {
    places: Vec<u32>,
    count: usize,
    page: u32,
    bottom: u32,
}

impl Edges {
    /// Makes a list of no edges, with room for `room` of them.
    pub fn new(alloc: Global, room: usize) -> Edges
        ensures { (base : ℕ) → AreEdges result base [] }
    {
        let places = match Vec::from_elem(alloc, 0, room) {
            Ok(places) => places,
            Err(_) => Vec::new(alloc),
        };
        Edges {
            places,
            count: 0,
            page: 0,
            bottom: u32::MAX,
        }
    }

    /// Removes all edges. The edges to be noted from now on are the first one at or above `bottom`,
    /// where a page begins, and then one for each page above.
    pub fn restart(&mut self, bottom: u32, page: u32)
        ensures { (base : ℕ) → AreEdges self.new base [] }
    {
        self.count = 0;
        self.bottom = bottom;
        self.page = page;
    }

    /// Notes that a block will begin at `place`, above all blocks that were noted before.
    pub fn pass(&mut self, place: u32)
        ensures { (base : ℕ) (before : List Block) (block : Block) → base + sizes before ≡ place →
            AreEdges self.old base before → AreEdges self.new base (before ++ block ∷ []) }
    {
        while self.bottom <= place && self.count < self.places.len() {
            self.places[self.count] = place;
            self.count += 1;
            self.bottom = self.bottom.saturating_add(self.page);
        }
    }

    /// Returns the edge of the given number, counted from the lowest edge.
    pub fn get(&self, number: usize) -> Option<u32>
        ensures { IfSome result (λ place. (base : ℕ) (blocks : List Block)
            → AreEdges self.now base blocks →
            Starts place base blocks) }
    {
        if number < self.count && number < self.places.len() {
            Some(self.places[number])
        } else {
            None
        }
    }
}
