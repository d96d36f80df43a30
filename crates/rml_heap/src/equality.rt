//! Equality of the values that two cells stand for, by a list of runs of parts that are still to be compared.

ghost use Rattle.std.specs.Prelude.{◌≡◌, ◌≢◌, ℕ, ◌+◌, ◌*◌, ◌/◌, ◌<◌, ◌≤◌, ◌↔◌, ◌^◌, ◌++◌, true, List, IsTrue, length, vec_len, vec_capacity};
ghost use Rattle.rml_value.specs.declared.value.Value.{Value};
ghost use Rattle.rml_heap.specs.Form.{Other, form_of};
ghost use Rattle.rml_heap.specs.Reading.{Stands, cell_at, parts_of as count_of_parts};
ghost use Rattle.rml_heap.specs.Compared.{AreValues, Tells, rest_of, AreNested, AreReadable, Leaves, total};

use crate::cell::{
    BLOCK, CON_BLOCK, CONS_BLOCK, Cell, LVAR, TEXT, TUPLE, VECTOR, address_of, count_of,
};

/// Parts of two blocks that are still to be compared: so many cells from these addresses on.
#[derive(Clone, Copy)]
pub struct Task {
    pub left: u32,
    pub right: u32,
    pub count: u32,
}

/// What is told of two cells.
pub enum Compared {
    Same,
    Different,
    /// The values are equal exactly where these parts are.
    Parts(Task),
}

/// Whether a head is a logical variable's.
fn is_lvar(head: Cell) -> bool
    ensures { IsTrue result ↔ (head.kind ≡ LVAR) }
{
    head.kind == LVAR
}

/// How many cells follow a head.
fn parts_of(head: Cell) -> u64
    ensures { form_of head ≢ Other → result ≡ count_of_parts (form_of head) }
{
    let number = count_of(head);
    match head.kind {
        TEXT => (number + 7) / 8,
        CON_BLOCK => number % 1_048_576,
        TUPLE => number,
        VECTOR => number,
        CONS_BLOCK => 2,
        LVAR => 1,
        _ => 0,
    }
}

/// What the cells and the heads of their blocks tell.
fn compare(cells: &[Cell], a: Cell, b: Cell) -> Compared
    requires small { length cells.now < 2 ^ 32 }
    requires values { AreValues cells.now a b }
    ensures { (names : List ℕ) (top below : ℕ) (v w : Value) → Stands cells.now names top a v → Stands cells.now names below b w → Tells cells.now names top v w result }
{
    if a == b {
        return Compared::Same;
    }
    if a.kind != BLOCK || b.kind != BLOCK {
        return Compared::Different;
    }
    let left = address_of(a);
    let right = address_of(b);
    let head = cells[left as usize];
    if head != cells[right as usize] || is_lvar(head) {
        return Compared::Different;
    }
    let count = parts_of(head) as u32;
    if count == 0 {
        return Compared::Same;
    }
    Compared::Parts(Task {
        left: left + 1,
        right: right + 1,
        count,
    })
}

/// Puts what is left of a task back.
fn put_back(tasks: &mut Vec<Task>, task: Task)
    requires room { vec_len tasks.old < vec_capacity tasks.old }
    requires left { task.left < 2 ^ 31 }
    requires right { task.right < 2 ^ 31 }
    ensures items { tasks.new.items ≡ tasks.old.items ++ rest_of task }
    ensures room { vec_capacity tasks.old ≤ vec_capacity tasks.new }
{
    if task.count > 1 {
        tasks
            .push(Task {
                left: task.left + 1,
                right: task.right + 1,
                count: task.count - 1,
            })
            .unwrap();
    }
}

/// How many of the first cells of a task are the same on both sides, of all but the last.
fn same_cells(cells: &[Cell], task: Task) -> u32
    requires some { 0 < task.count }
    requires left { task.left + task.count ≤ length cells.now }
    requires right { task.right + task.count ≤ length cells.now }
    requires small { length cells.now < 2 ^ 31 }
    ensures within { result < task.count }
    ensures same { (i : ℕ) → i < result → cell_at cells.now (task.left + i) ≡ cell_at cells.now (task.right + i) }
{
    for i in 0..task.count - 1 {
        if cells[(task.left + i) as usize] != cells[(task.right + i) as usize] {
            return i;
        }
    }
    task.count - 1
}

/// Passes over the first cells of the last task that are the same on both sides, but not over its last: the words of a text, one by one.
fn pass(cells: &[Cell], tasks: &mut Vec<Task>)
    requires small { length cells.now < 2 ^ 31 }
    requires some { 0 < vec_len tasks.old }
    requires nested { AreNested (length cells.now) tasks.old.items }
    requires readable { (names : List ℕ) × AreReadable cells.now names tasks.old.items }
    ensures left { (names : List ℕ) → AreReadable cells.now names tasks.old.items → Leaves cells.now names tasks.old.items tasks.new.items true }
    ensures nested { AreNested (length cells.now) tasks.new.items }
    ensures total { total tasks.new.items ≤ total tasks.old.items }
    ensures some { 0 < vec_len tasks.new }
    ensures room { vec_capacity tasks.old ≤ vec_capacity tasks.new }
{
    let task = tasks.pop().unwrap();
    let same = same_cells(cells, task);
    tasks
        .push(Task {
            left: task.left + same,
            right: task.right + same,
            count: task.count - same,
        })
        .unwrap();
}

/// Compares the first two cells of the last task. Answers false where they are different.
fn step(cells: &[Cell], tasks: &mut Vec<Task>) -> bool
    requires small { length cells.now < 2 ^ 31 }
    requires some { 0 < vec_len tasks.old }
    requires nested { AreNested (length cells.now) tasks.old.items }
    requires readable { (names : List ℕ) × AreReadable cells.now names tasks.old.items }
    requires room { length cells.now / 2 ≤ vec_capacity tasks.old }
    ensures left { (names : List ℕ) → AreReadable cells.now names tasks.old.items → Leaves cells.now names tasks.old.items tasks.new.items result }
    ensures nested { IsTrue result → AreNested (length cells.now) tasks.new.items }
    ensures fewer { IsTrue result → total tasks.new.items < total tasks.old.items }
    ensures room { vec_capacity tasks.old ≤ vec_capacity tasks.new }
{
    let task = tasks.pop().unwrap();
    put_back(tasks, task);
    match compare(cells, cells[task.left as usize], cells[task.right as usize]) {
        Compared::Same => true,
        Compared::Different => false,
        Compared::Parts(parts) => {
            tasks.push(parts).unwrap();
            true
        }
    }
}

/// Whether two cells stand for the same value. Needs room for half as many tasks as there are cells.
pub fn are_equal(cells: &[Cell], tasks: &mut Vec<Task>, a: Cell, b: Cell) -> bool
    requires small { length cells.now < 2 ^ 31 }
    requires values { AreValues cells.now a b }
    requires room { length cells.now / 2 ≤ vec_capacity tasks.old }
    ensures equal { (names : List ℕ) (top below : ℕ) (v w : Value) → Stands cells.now names top a v → Stands cells.now names below b w → IsTrue result ↔ (v ≡ w) }
    ensures room { vec_capacity tasks.old ≤ vec_capacity tasks.new }
{
    tasks.clear();
    match compare(cells, a, b) {
        Compared::Same => return true,
        Compared::Different => return false,
        Compared::Parts(task) => tasks.push(task).unwrap(),
    }
    'tasks: while !tasks.is_empty() {
        pass(cells, tasks);
        if !step(cells, tasks) {
            return false;
        }
    }
    true
}
