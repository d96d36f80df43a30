//! The cells of a run in two parts. What is handed out lies below the number of values, or above the frames' lowest address.

ghost use Rattle.std.specs.Prelude.{◌≡◌, ◌⊎◌, ◌+◌, ◌-◌, ◌<◌, ◌≤◌, ◌++◌, ◌∷◌, ◌↔◌, [], length, replicate, take, drop, slice_set, slice_index_or, List, ℕ, IsTrue, IsOk, IfOk, IfErr, OnOk, OnErr};
ghost use Rattle.rml_value.specs.declared.value.Value.{Value};
ghost use Rattle.rml_heap.specs.Reading.{Stands};
ghost use Rattle.rml_heap.specs.Compared.{AreValues};
ghost use Rattle.rml_heap.specs.HeapState.{free_cell, unset_cell, cells_used, HasRoom, bottom_of, IsInFrames};

use crate::cell::{Cell, INT};
use crate::equality::{Task, are_equal};
use rml_base::Memory;
use std::alloc::Global;
use std::marker::Model;

/// The most cells that a run may have.
pub const MOST_CELLS: u32 = 67_108_864;

/// Cells that do not fit: how many are in use, and how many more were asked for.
#[derive(Clone, Copy, PartialEq, Eq, Debug)]
pub struct Full {
    pub used: u32,
    pub need: u32,
}

/// The cells of a run. Contracts see the values and the frames as two lists, the lowest address first. None of its calls but
/// `begin` takes memory.
#[derive(Drop)]
pub struct Heap {
    values: Vec<Cell>,
    frames: Vec<Cell>,
    limit: u32,
    tasks: Vec<Task>,
}

impl Model for Heap {
    ghost use Rattle.std.specs.Prelude.{◌≤◌, ◌+◌, ◌/◌, reverse, vec_len, vec_capacity};
    ghost use Rattle.rml_heap.specs.HeapState.{HeapState};

    ghost Value = { HeapState };

    ghost view = { λ h. record { values = h.values.items; frames = reverse h.frames.items; limit = h.limit } };

    ghost invariant = { λ h. (vec_len h.values + vec_len h.frames ≤ h.limit) × (h.limit ≤ vec_capacity h.values) × (h.limit ≤ vec_capacity h.frames) × (h.limit ≤ 67_108_864) × (h.limit / 2 ≤ vec_capacity h.tasks) };
}

impl Heap {
    /// No cell is handed out, and so many can be. All memory is reserved here, and not touched.
    pub fn begin(alloc: Global, limit: u32) -> Result<Heap, Memory>
        requires { limit ≤ MOST_CELLS }
        ensures { IfOk result (λ h. h ≡ record { values = []; frames = []; limit = limit }) }
    {
        let values = Vec::with_capacity(alloc, limit as usize)?;
        let frames = Vec::with_capacity(alloc, limit as usize)?;
        let tasks = Vec::with_capacity(alloc, (limit / 2) as usize)?;
        Ok(Heap {
            values,
            frames,
            limit,
            tasks,
        })
    }

    /// How many cells are handed out.
    pub fn used(&self) -> u32
        ensures used { result ≡ cells_used self.now }
        ensures within { result ≤ self.now.limit }
        ensures limit { self.now.limit ≤ MOST_CELLS }
    {
        self.values.len() as u32 + self.frames.len() as u32
    }

    /// How many cells values have, which is the address of the next.
    pub fn top(&self) -> u32
        ensures { result ≡ length self.now.values }
    {
        self.values.len() as u32
    }

    /// The lowest address of the frames, which is the limit where there is none.
    pub fn bottom(&self) -> u32
        ensures bottom { result ≡ bottom_of self.now }
        ensures frames { result + length self.now.frames ≡ self.now.limit }
    {
        self.limit - self.frames.len() as u32
    }

    /// Whether so many more cells fit, and where those of a value would begin.
    pub fn room(&self, n: u32) -> Result<u32, Full>
        ensures exact { IsOk result ↔ HasRoom self.now n }
        ensures address { IfOk result (λ at. at ≡ length self.now.values) }
        ensures full { IfErr result (λ e. (e.used ≡ cells_used self.now) × (e.need ≡ n)) }
    {
        let used = self.used();
        if n > self.limit - used {
            return Err(Full { used, need: n });
        }
        Ok(self.top())
    }

    /// Hands out so many cells of values, which hold Int 0, and says where they begin.
    pub fn alloc(&mut self, n: u32) -> Result<u32, Full>
        ensures exact { IsOk result ↔ HasRoom self.old n }
        ensures address { IfOk result (λ at. at ≡ length self.old.values) }
        ensures ok { OnOk result (self.new ≡ record self.old { values = self.old.values ++ replicate n free_cell }) }
        ensures full { IfErr result (λ e. (e.used ≡ cells_used self.old) × (e.need ≡ n)) }
        ensures err { OnErr result (self.new ≡ self.old) }
    {
        let at = self.room(n)?;
        let free = Cell {
            kind: INT,
            number: 0,
        };
        self.values.resize((at + n) as usize, free).unwrap();
        Ok(at)
    }

    /// Hands out a frame of so many cells, which hold Int 0, below those that stand, and says where it begins.
    pub fn push(&mut self, n: u32) -> Result<u32, Full>
        ensures exact { IsOk result ↔ HasRoom self.old n }
        ensures address { IfOk result (λ at. at ≡ bottom_of self.new) }
        ensures ok { OnOk result (self.new ≡ record self.old { frames = replicate n free_cell ++ self.old.frames }) }
        ensures full { IfErr result (λ e. (e.used ≡ cells_used self.old) × (e.need ≡ n)) }
        ensures err { OnErr result (self.new ≡ self.old) }
    {
        self.room(n)?;
        let frames = self.frames.len() as u32 + n;
        let free = Cell {
            kind: INT,
            number: 0,
        };
        self.frames.resize(frames as usize, free).unwrap();
        Ok(self.limit - frames)
    }

    /// Hands out one more cell of values, which holds this. So a block is built from its head on.
    pub fn add(&mut self, cell: Cell)
        requires { HasRoom self.old 1 }
        ensures { self.new ≡ record self.old { values = self.old.values ++ cell ∷ [] } }
    {
        self.values.push(cell).unwrap();
    }

    /// Hands out so many more cells of values, which hold what the cells from an address on hold.
    pub fn add_again(&mut self, at: u32, n: u32)
        requires within { at + n ≤ length self.old.values }
        requires room { HasRoom self.old n }
        ensures { self.new ≡ record self.old { values = self.old.values ++ take n (drop at self.old.values) } }
    {
        self.values
            .extend_from_within(at as usize..(at + n) as usize)
            .unwrap();
    }

    /// Hands out one more cell of frames, below those that stand, which holds this. So a frame is built from its last cell on.
    pub fn stack(&mut self, cell: Cell)
        requires { HasRoom self.old 1 }
        ensures { self.new ≡ record self.old { frames = cell ∷ self.old.frames } }
    {
        self.frames.push(cell).unwrap();
    }

    /// Takes back all frames' cells below this address.
    pub fn cut(&mut self, at: u32)
        requires low { bottom_of self.old ≤ at }
        requires high { at ≤ self.old.limit }
        ensures cut { self.new ≡ record self.old { frames = drop (at - bottom_of self.old) self.old.frames } }
        ensures left { length self.new.frames ≡ self.old.limit - at }
    {
        self.frames.truncate((self.limit - at) as usize);
    }

    /// Takes back all values' cells from this address on.
    pub fn reset(&mut self, top: u32)
        requires { top ≤ length self.old.values }
        ensures { self.new ≡ record self.old { values = take top self.old.values } }
    {
        self.values.truncate(top as usize);
    }

    /// The cell at a place that is handed out.
    pub fn get(&self, at: u32) -> Cell
        requires { (at < length self.now.values) ⊎ IsInFrames self.now at }
        ensures value { at < length self.now.values → result ≡ slice_index_or self.now.values at unset_cell }
        ensures frame { IsInFrames self.now at → result ≡ slice_index_or self.now.frames (at - bottom_of self.now) unset_cell }
    {
        if (at as usize) < self.values.len() {
            self.values[at as usize]
        } else {
            self.frames[(self.limit - 1 - at) as usize]
        }
    }

    /// Writes the cell at a place that is handed out.
    pub fn put(&mut self, at: u32, cell: Cell)
        requires { (at < length self.old.values) ⊎ IsInFrames self.old at }
        ensures value { at < length self.old.values → self.new ≡ record self.old { values = slice_set self.old.values at cell } }
        ensures frame { IsInFrames self.old at → self.new ≡ record self.old { frames = slice_set self.old.frames (at - bottom_of self.old) cell } }
    {
        if (at as usize) < self.values.len() {
            self.values[at as usize] = cell;
        } else {
            self.frames[(self.limit - 1 - at) as usize] = cell;
        }
    }
    /// Whether two cells stand for the same value: by structure, vectors by length and items, logical variables by identity, relations
    /// by number. Takes no memory, and recurses no deeper for deep values. Parts that two blocks share at one address are not
    /// compared; but where two values are made of blocks that each stand in many places, a pair of blocks is compared as often as
    /// it is met.
    pub fn equal(&mut self, a: Cell, b: Cell) -> bool
        requires { AreValues self.old.values a b }
        ensures equal { (names : List ℕ) (top below : ℕ) (v w : Value) → Stands self.old.values names top a v → Stands self.old.values names below b w → IsTrue result ↔ (v ≡ w) }
        ensures same { self.new ≡ self.old }
    {
        are_equal(&self.values, &mut self.tasks, a, b)
    }
}
