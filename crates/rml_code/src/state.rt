//! What a run of code works on.

ghost use Rattle.std.specs.Prelude.{◌≡◌, ◌<◌, length, slice_index_or, slice_set};
ghost use Rattle.rml_heap.specs.HeapState.{free_cell};

use rml_heap::{Cell, Heap};
use rml_trail::Trail;
use std::marker::Model;

/// Cells in a row, each by its number. Contracts see their list.
#[derive(Drop)]
pub struct Cells {
    items: Vec<Cell>,
}

impl Model for Cells {
    ghost use Rattle.std.specs.Prelude.{List};
    ghost use Rattle.rml_heap.specs.declared.cell.Cell.{Cell};

    ghost Value = { List Cell };

    ghost view = { λ c. c.items.items };
}

impl Cells {
    /// Takes no memory.
    pub fn of(items: Vec<Cell>) -> Cells
        ensures { result ≡ items.items }
    {
        Cells { items }
    }

    pub fn get(&self, at: u64) -> Cell
        requires { at < length self.now }
        ensures { result ≡ slice_index_or self.now at free_cell }
    {
        self.items[at as usize]
    }

    pub fn put(&mut self, at: u64, cell: Cell)
        requires { at < length self.old }
        ensures { self.new ≡ slice_set self.old at cell }
    {
        self.items[at as usize] = cell;
    }
}

/// What a run of code works on. A machine keeps it, and the meaning of code is said of it.
#[derive(Drop)]
pub struct State {
    pub registers: Cells,
    /// A cell for each constant, which leads to its block.
    pub constants: Cells,
    pub heap: Heap,
    pub trail: Trail,
    /// The address of the last success frame.
    pub success: u32,
    /// The address of the last failure frame.
    pub failure: u32,
}
