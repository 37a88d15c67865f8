// One path of the search, from the start of main or from a checkpoint up to its end.
#![tactic(auto)]

ghost use Rattle.std.specs.Prelude.{◌≡◌, true, false, ◌+◌, ◌*◌, ◌<◌, ◌≤◌, length};
ghost use Rattle.simulation.specs.Cells.{CallsMain};
ghost use Rattle.intervals.specs.Meaning.{Filled, of_window};
ghost use Rattle.machine.specs.Layout.{frame_cells, tables_place};
ghost use Rattle.machine.specs.Memory.{machine_at, outcomes_in};
ghost use Rattle.machine.specs.Terms.{Room, Started};
ghost use Rattle.paths.specs.Point.{state_at, Going};
ghost use Rattle.checkpoints.specs.Live.{Small, Unused};
ghost use Rattle.walks.specs.Checkpoints.{Compares, Due, Keeping, Dropped};
ghost use Rattle.walks.specs.Walk.{at_start, Stands, Walking, Begins, FromMain};

use code::{Code, Entry};
use intervals::Window;
use machine::Value;
use paths::{Point, Turned};

pub mod cells;

// The checkpoints of a search: how many marks they have, the limit of steps, which is also that of the marks, and how many cells of a frame the code uses.
#[derive(Clone, Copy)]
pub struct Stack {
    pub height: usize,
    pub limit: usize,
    pub cells: usize,
}

// How a path ends.
#[derive(Clone, Copy, PartialEq, Eq, Debug)]
pub enum End {
    Returned(Value),
    Failed,
    Cut,
}

// A path that has ended: how, at which point, with which checkpoints, and what is left of the budget.
#[derive(Clone, Copy)]
pub struct Ended {
    pub end: End,
    pub point: Point,
    pub stack: Stack,
    pub left: u32,
}

// Whether the entry at pc is a comparison.
fn compares(code: &Code, pc: usize) -> bool
    ensures { (result ≡ true → Compares code.now pc) × (result ≡ false → Compares code.now pc → ⊥) × (result ≡ true → pc < 65536) }
{
    pc < code.len() && matches!(code.entry(pc), Entry::Compare(_, _))
}

// Of each three steps that are left, two marks are kept back for checkpoints that are due later.
const SHARE: usize = 3;

const KEPT_BACK: usize = 2;

// Whether a checkpoint is due: a choice may follow that no path has made yet, and there are marks for one more. Known steps have passed the comparisons of known values: at one that is left an operand is open, or the path ends there.
fn is_due(code: &Code, p: Point, s: Stack) -> bool
    requires { Small p × (p.steps < 4294967296) × (s.limit < 4294967296) × (s.height ≤ s.limit) × (s.cells ≤ frame_cells) }
    ensures { (result ≡ true → Due code.now p s) × (result ≡ false → Due code.now p s → ⊥) × (result ≡ true → p.run.pc < 65536) }
{
    if p.forced != 0 || p.windows == 0 || !compares(code, p.run.pc) {
        return false;
    }
    let height = s.height + checkpoints::size_of(p, s.cells);
    SHARE * height + KEPT_BACK * p.steps <= SHARE * s.limit
}

// Whether the code begins with the call of main, whose value is returned: then nothing is ever stored in the first frame, that of the start.
fn calls_main(code: &Code) -> bool
    ensures { (result ≡ true → CallsMain code.now) × (result ≡ false → CallsMain code.now → ⊥) }
{
    2 <= code.len()
        && matches!(code.entry(0), Entry::Call { .. })
        && matches!(code.entry(1), Entry::Return)
}

// Saves a checkpoint, if one is due.
fn keep(code: &Code, mem: &mut [u32], p: Point, s: Stack) -> Stack
    requires { Going mem.old p × Room mem.old s.limit × (s.height ≤ s.limit) × (s.cells ≤ frame_cells) × (CallsMain code.now → Unused s.cells mem.old p.run.depth) }
    ensures { Keeping code.now mem.old mem.new p s result }
{
    if is_due(code, p, s) && calls_main(code) {
        checkpoints::save(mem, p, s.cells, s.height);
        return Stack {
            height: s.height + checkpoints::size_of(p, s.cells),
            ..s
        };
    }
    s
}

// A path from the point that it begins at up to its end; none, where the budget was spent on the way. Each move costs one of the budget.
// Code, memory and window are lent one by one: a struct with the memory, which changes, would have to say that the code stays the same.
#[inline(always)]
fn walk(
    code: &Code,
    mem: &mut [u32],
    job: Window,
    begins: Point,
    stack: Stack,
    budget: u32,
) -> Option<Ended>
    requires { Stands code.now (of_window job) mem.old begins stack × Filled (of_window job) }
    ensures { Walking code.now (of_window job) stack.limit budget (machine_at mem.old begins.run) (state_at mem.old begins) mem.new result }
{
    let mut p = begins;
    let mut s = stack;
    let mut left = budget;
    loop {
        let passed = known_steps::pass(code, mem, p, left);
        p = passed.point;
        left = passed.left;
        s = keep(code, mem, p, s);
        match paths::turn(code, mem, job, p) {
            Turned::On(o, q) => {
                if o {
                    if left == 0 {
                        return None;
                    }
                    left -= 1;
                }
                p = q;
            }
            Turned::Returned(v) => {
                return Some(Ended {
                    end: End::Returned(v),
                    point: p,
                    stack: s,
                    left,
                });
            }
            Turned::Failed => {
                return Some(Ended {
                    end: End::Failed,
                    point: p,
                    stack: s,
                    left,
                });
            }
            Turned::Cut => {
                return Some(Ended {
                    end: End::Cut,
                    point: p,
                    stack: s,
                    left,
                });
            }
        }
    }
}

// The same with a copy of the code: what is read through a reference to the caller's is read anew after each word that is written.
fn walk_copied(
    code: &Code,
    mem: &mut [u32],
    job: Window,
    begins: Point,
    stack: Stack,
    budget: u32,
) -> Option<Ended>
    requires { Stands code.now (of_window job) mem.old begins stack × Filled (of_window job) }
    ensures { Walking code.now (of_window job) stack.limit budget (machine_at mem.old begins.run) (state_at mem.old begins) mem.new result }
{
    let copy = code.copied();
    walk(&copy, mem, job, begins, stack, budget)
}

// The checkpoints with at most i choices.
fn drop_after(mem: &[u32], s: Stack, i: usize) -> Stack
    requires { Room mem.now s.height × (s.cells ≤ frame_cells) }
    ensures { Dropped mem.now s i result }
{
    let mut w = s.height;
    // From checkpoint to checkpoint: the step is as long as each one is.
    while checkpoints::NUMBERS <= w {
        let p = checkpoints::point_at(mem, w - checkpoints::NUMBERS);
        if p.choices <= i {
            return Stack { height: w, ..s };
        }
        w = w.saturating_sub(checkpoints::size_of(p, s.cells));
    }
    Stack { height: 0, ..s }
}

// The start of main, with so many steps to make and so many outcomes forced.
fn first(mem: &mut [u32], limit: usize, forced: usize) -> Point
    requires { tables_place ≤ length mem.old }
    ensures { Started mem.old mem.new result.run × (result ≡ at_start result.run limit forced) }
{
    let run = machine::start(mem);
    Point {
        run,
        steps: limit,
        windows: 0,
        choices: 0,
        forced,
    }
}

// The path with the forced outcomes that stand in the memory, up to its end, or none, where the budget was spent on the way: from the newest checkpoint before the last of them, or from the start of main.
pub fn run_path(
    code: &Code,
    mem: &mut [u32],
    job: Window,
    stack: Stack,
    forced: usize,
    budget: u32,
) -> Option<Ended>
    requires { Begins code.now (of_window job) mem.old forced stack × Filled (of_window job) }
    ensures { FromMain code.now (of_window job) stack.limit budget (outcomes_in mem.old 0 forced) mem.new result }
{
    let s = drop_after(mem, stack, forced.saturating_sub(1));
    if s.height == 0 {
        let p = first(mem, s.limit, forced);
        return walk_copied(code, mem, job, p, s, budget);
    }
    let q = checkpoints::restore(mem, s.cells, s.height, forced);
    walk_copied(code, mem, job, q, s, budget)
}
