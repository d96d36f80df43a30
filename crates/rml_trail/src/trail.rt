//! The trail of a heap.

ghost use Rattle.std.specs.Prelude.{◌≡◌, ◌+◌, ◌<◌, ◌≤◌, ◌++◌, ◌∷◌, [], length, take, drop, slice_set, IfOk};
ghost use Rattle.rml_heap.specs.Form.{IsWord, form_of};
ghost use Rattle.rml_heap.specs.HeapState.{unset_cell};
ghost use Rattle.rml_heap.specs.Reading.{cell_at};
ghost use Rattle.rml_trail.specs.TrailState.{IsContent, Fits, unset_all};

use rml_base::Memory;
use rml_heap::{Cell, Heap, MOST_CELLS, UNSET};
use std::alloc::Global;
use std::marker::Model;

/// The contents of the logical variables that were set, in order. Contracts see the list of their addresses, and the greatest limit of
/// a heap for which there is room. None of its calls but `begin` takes memory.
#[derive(Drop)]
pub struct Trail {
    entries: Vec<u32>,
    limit: u32,
}

impl Model for Trail {
    ghost use Rattle.std.specs.Prelude.{◌≤◌, ◌/◌, vec_len, vec_capacity};
    ghost use Rattle.rml_trail.specs.TrailState.{TrailState};

    ghost Value = { TrailState };

    ghost view = { λ t. record { entries = t.entries.items; limit = t.limit } };

    ghost invariant = { λ t. (vec_len t.entries ≤ t.limit / 2) × (t.limit / 2 ≤ vec_capacity t.entries) × (t.limit ≤ 67_108_864) };
}

impl Trail {
    /// No variable was set. Room for half as many entries as a heap of this limit has cells is reserved here, and not touched: a
    /// variable takes two cells.
    pub fn begin(alloc: Global, limit: u32) -> Result<Trail, Memory>
        requires { limit ≤ MOST_CELLS }
        ensures { IfOk result (λ t. t ≡ record { entries = []; limit = limit }) }
    {
        let entries = Vec::with_capacity(alloc, (limit / 2) as usize)?;
        Ok(Trail { entries, limit })
    }

    /// How many entries there are.
    pub fn mark(&self) -> u32
        ensures { result ≡ length self.now.entries }
    {
        self.entries.len() as u32
    }

    /// Sets an unset variable, by the address of its content, and remembers it.
    pub fn set(&mut self, heap: &mut Heap, at: u32, cell: Cell)
        requires fits { Fits self.old heap.old }
        requires content { IsContent heap.old.values at }
        requires unset { cell_at heap.old.values at ≡ unset_cell }
        requires inside { at < length heap.old.values }
        requires value { IsWord (form_of cell) }
        ensures heap { heap.new ≡ record heap.old { values = slice_set heap.old.values at cell } }
        ensures trail { self.new ≡ record self.old { entries = self.old.entries ++ at ∷ [] } }
        ensures fits { Fits self.new heap.new }
    {
        let _used = heap.used();
        self.entries.push(at).unwrap();
        heap.put(at, cell);
    }

    /// Unsets the variables that were set since the trail had so many entries.
    #[tactic(auto, using(crate::proofs::Trails::length_unset_all))]
    pub fn undo_to(&mut self, heap: &mut Heap, mark: u32)
        requires fits { Fits self.old heap.old }
        requires within { mark ≤ length self.old.entries }
        ensures heap { heap.new ≡ record heap.old { values = unset_all (drop mark self.old.entries) heap.old.values } }
        ensures used { length heap.new.values ≡ length heap.old.values }
        ensures trail { self.new ≡ record self.old { entries = take mark self.old.entries } }
        ensures fits { Fits self.new heap.new }
    {
        let unset = Cell {
            kind: UNSET,
            number: 0,
        };
        while self.entries.len() > mark as usize {
            let at = self.entries.pop().unwrap();
            heap.put(at, unset);
        }
    }
}
