// Checkpoints: what is live at a point of a path is kept, so that a search can come back to it without working the path again.
#![tactic(auto)]

ghost use Rattle.std.specs.Prelude.{◌≡◌, List, ℕ, ◌+◌, ◌-◌, ◌*◌, ◌<◌, ◌≤◌, length};
ghost use Rattle.machine.specs.Layout.{frame_cells, tables_place};
ghost use Rattle.machine.specs.Terms.{Room};
ghost use Rattle.paths.specs.declared.Point as point;
ghost use Rattle.paths.specs.Point.{Going};
ghost use Rattle.checkpoints.specs.Live.{framed, live_pairs, size_of, number_count, Small, HasLive, Unused, Row, Marking, RowSaved, RowBack, FramesSaved, FramesBack, Cleared};
ghost use Rattle.checkpoints.specs.Words.{numbers_of, number_at, point_at, WordSized, Numbered, Lives, Back, Saved, Agrees, Restored, EndsBefore};

use machine::{Run, layout};
use paths::Point;

// The numbers of a point.
pub const NUMBERS: usize = 9;

// How many pairs of words are live at a point, where so many cells of a frame are in use.
// The cells are a number and no type with an invariant: `restore` takes any number up to sixteen, and goes on to do so.
fn live_pairs(p: Point, cells: usize) -> usize
    requires { Small p × (cells ≤ frame_cells) }
    ensures { result ≡ live_pairs cells p }
{
    cells * p.run.depth + p.run.depth + p.windows + p.run.top
}

// The marks of a checkpoint.
pub fn size_of(p: Point, cells: usize) -> usize
    requires { Small p × (cells ≤ frame_cells) }
    ensures { result ≡ size_of cells p }
{
    live_pairs(p, cells).max(NUMBERS)
}

// Copies n pairs from x on, each s words behind the one before, to the marks from w on.
fn save_row(mem: &mut [u32], x: usize, s: usize, n: usize, w: usize)
    requires { Row mem.old x s n × Room mem.old (w + n) }
    ensures { RowSaved mem.old mem.new x s n w }
{
    for i in 0..n {
        let from = x + s * i;
        let to = layout::MARKS + layout::STRIDE * (w + i);
        mem[to] = mem[from];
        mem[to + 1] = mem[from + 1];
    }
}

// Copies the cells in use of d frames, from the second frame on, to the marks from w on.
fn save_frames(mem: &mut [u32], cells: usize, d: usize, w: usize)
    requires { (cells ≤ frame_cells) × (d ≤ 32) × (tables_place ≤ length mem.old) × Room mem.old (w + framed cells d) }
    ensures { FramesSaved cells mem.old mem.new d w }
{
    for j in 0..d {
        let to = w + cells * j;
        save_row(mem, layout::FRAME * (j + 1), layout::CELL, cells, to);
    }
}

// What is live at the point p is copied to the marks from w on: frames, callers, windows, temporaries.
fn save_pairs(mem: &mut [u32], p: Point, cells: usize, w: usize)
    requires { HasLive mem.old p × (cells ≤ frame_cells) × Room mem.old (w + live_pairs cells p) }
    ensures { Lives cells mem.new mem.old p w × Marking mem.old mem.new w (live_pairs cells p) }
{
    let run = p.run;
    let callers = w + cells * run.depth;
    let windows = callers + run.depth;
    let temps = windows + p.windows;
    save_frames(mem, cells, run.depth, w);
    save_row(mem, layout::CALLERS, layout::CALLER, run.depth, callers);
    save_row(mem, layout::WINDOWS, layout::WINDOW, p.windows, windows);
    save_row(mem, layout::TEMPORARIES, layout::STRIDE, run.top, temps);
}

// Nine numbers are written at the marks from w on.
fn put_numbers(mem: &mut [u32], h: [u32; NUMBERS], w: usize)
    requires { Room mem.old (w + number_count) }
    ensures { Numbered mem.old mem.new h w number_count }
{
    for (i, &number) in h.iter().enumerate() {
        mem[layout::MARK_NUMBERS + layout::STRIDE * (w + i)] = number;
    }
}

// The numbers of a point, in a row.
// Words and no struct: they go into C's memory.
fn numbers_of(p: Point) -> [u32; NUMBERS]
    requires { WordSized p }
    ensures { result ≡ numbers_of p }
{
    let run = p.run;
    [
        run.pc as u32,
        u32::from(run.flag),
        run.base as u32,
        run.top as u32,
        run.depth as u32,
        run.nodes as u32,
        p.steps as u32,
        p.windows as u32,
        p.choices as u32,
    ]
}

// The number of mark w.
fn number_at(mem: &[u32], w: usize) -> usize
    requires { Room mem.now (w + 1) }
    ensures { (result ≡ number_at mem.now w) × (result < 4294967296) }
{
    mem[layout::MARK_NUMBERS + layout::STRIDE * w] as usize
}

// The point whose numbers stand from mark w on.
pub fn point_at(mem: &[u32], w: usize) -> Point
    requires { Room mem.now (w + number_count) }
    ensures { (result ≡ point_at mem.now w) × Small result }
{
    Point {
        run: Run {
            pc: number_at(mem, w),
            flag: number_at(mem, w + 1) != 0,
            base: number_at(mem, w + 2),
            top: number_at(mem, w + 3),
            depth: number_at(mem, w + 4),
            nodes: number_at(mem, w + 5),
        },
        steps: number_at(mem, w + 6),
        windows: number_at(mem, w + 7),
        choices: number_at(mem, w + 8),
        forced: 0,
    }
}

// Saves the point p from mark w on, where so many cells of a frame are in use.
pub fn save(mem: &mut [u32], p: Point, cells: usize, w: usize)
    requires { Going mem.old p × WordSized p × (p.forced ≡ 0) × (cells ≤ frame_cells) × Room mem.old (w + size_of cells p) × Unused cells mem.old p.run.depth }
    ensures { Saved cells mem.new mem.old p w × Marking mem.old mem.new w (size_of cells p) }
{
    let n = size_of(p, cells);
    save_pairs(mem, p, cells, w);
    put_numbers(mem, numbers_of(p), w + n - NUMBERS);
}

// Makes the first n words 0.
fn clear(mem: &mut [u32], n: usize)
    requires { n ≤ length mem.old }
    ensures { Cleared mem.old mem.new n }
{
    mem[..n].fill(0);
}

// Copies n pairs of the marks from w on to the words from x on, each s words behind the one before.
// Not one function with `save_row`: the marks are the source here and the target there, and it would take two places and two steps. So with frames and pairs.
fn restore_row(mem: &mut [u32], x: usize, s: usize, n: usize, w: usize)
    requires { Row mem.old x s n × Room mem.old (w + n) }
    ensures { RowBack mem.old mem.new x s n w }
{
    for i in 0..n {
        let from = layout::MARKS + layout::STRIDE * (w + i);
        let to = x + s * i;
        mem[to] = mem[from];
        mem[to + 1] = mem[from + 1];
    }
}

// Copies the cells in use of d frames back, from the second frame on.
fn restore_frames(mem: &mut [u32], cells: usize, d: usize, w: usize)
    requires { (cells ≤ frame_cells) × (d ≤ 32) × (tables_place ≤ length mem.old) × Room mem.old (w + framed cells d) }
    ensures { FramesBack cells mem.old mem.new d w }
{
    for j in 0..d {
        let from = w + cells * j;
        restore_row(mem, layout::FRAME * (j + 1), layout::CELL, cells, from);
    }
}

// What was live at the point p is put back, from mark w on.
fn restore_pairs(mem: &mut [u32], p: Point, cells: usize, w: usize)
    requires { HasLive mem.old p × (cells ≤ frame_cells) × Room mem.old (w + live_pairs cells p) }
    ensures { Back cells mem.old mem.new p w }
{
    let run = p.run;
    let callers = w + cells * run.depth;
    let windows = callers + run.depth;
    let temps = windows + p.windows;
    clear(mem, layout::FRAME * (run.depth + 1));
    restore_frames(mem, cells, run.depth, w);
    restore_row(mem, layout::CALLERS, layout::CALLER, run.depth, callers);
    restore_row(mem, layout::WINDOWS, layout::WINDOW, p.windows, windows);
    restore_row(mem, layout::TEMPORARIES, layout::STRIDE, run.top, temps);
}

// Comes back to the checkpoint that ends before mark w, with the outcomes of choices up to number k forced: what stands in the memory is what stood when it was saved.
pub fn restore(mem: &mut [u32], cells: usize, w: usize, k: usize) -> Point
    requires { EndsBefore cells mem.old w × (cells ≤ frame_cells) × Room mem.old w }
    ensures { (m₀ : List ℕ) (p : point.Point) (v : ℕ) → w ≡ v + size_of cells p → Saved cells mem.old m₀ p v → Agrees mem.old m₀ p → Restored mem.old m₀ mem.new p result (k - p.choices) }
{
    let p = point_at(mem, w - NUMBERS);
    let n = size_of(p, cells);
    restore_pairs(mem, p, cells, w - n);
    paths::all_ranges(mem, p.windows, p.run.nodes);
    Point {
        forced: k.saturating_sub(p.choices),
        ..p
    }
}
