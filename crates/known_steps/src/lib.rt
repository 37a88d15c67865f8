// Turns that choose nothing and add no node, in a loop of their own: values stay words, and nothing but the point goes from turn to turn.
#![tactic(auto)]

ghost use Rattle.std.specs.Prelude.{◌≡◌, ℕ, ◌+◌, ◌-◌, ◌<◌, ◌≤◌, length, get_or, List, IfSome};
ghost use Rattle.std.specs.Int.{w32};
ghost use Rattle.std.proofs.Common.{to_z};
ghost use Rattle.semantics.specs.Int.{arith, holds as holds_of};
ghost use Rattle.simulation.specs.Code.{act, fail};
ghost use Rattle.code.specs.Meaning.{as_entry};
ghost use Rattle.code.specs.declared.Entry.TheVariants.{Operate, Compare, Store};
ghost use Rattle.ints.specs.Meaning.{of_operation, of_comparison};
ghost use Rattle.machine.specs.Memory.{cell_read_as};
ghost use Rattle.machine.specs.Terms.{Ready, Put, Popped, Taking, Paired};
ghost use Rattle.machine.specs.declared.Value.TheVariants.{Known};
ghost use Rattle.paths.specs.declared.Point as point;
ghost use Rattle.paths.specs.Point.{Going};
ghost use Rattle.known_steps.specs.Cells.{value_as};
ghost use Rattle.known_steps.specs.Turns.{Turns, Made, OneOrTwo, Result, One, moves, Passes};

use code::{Address, Code, Entry};
use ints::{Comparison, Operation};
use machine::{Run, layout};
use paths::Point;

// An operand: the two words of its cell, and where the temporaries end without it.
// Words and no `Value`: they are copied as they stand in the memory.
#[derive(Drop)]
struct Operand {
    kind: u32,
    word: u32,
    top: usize,
}

// Two known operands: their words, and where the temporaries end without them.
#[derive(Drop)]
struct Operands {
    left: u32,
    right: u32,
    top: usize,
}

// The point after turns, and what is left of the budget.
#[derive(Drop)]
pub struct Passed {
    pub point: Point,
    pub left: u32,
}

// The newest temporary, taken.
// A reader of its own beside that of `machine`, as `take` and `pair` are: here values stay words.
fn pop(mem: &[u32], run: Run) -> Operand
    requires { Ready mem.now run }
    ensures { Popped mem.now run (value_as result.kind result.word) result.top }
{
    if run.top == run.base {
        return Operand {
            kind: 0,
            word: 0,
            top: run.top,
        };
    }
    let at = layout::TEMPORARIES + layout::STRIDE * (run.top - 1);
    Operand {
        kind: mem[at],
        word: mem[at + 1],
        top: run.top - 1,
    }
}

// The operand that ends just before entry j.
fn take(code: &Code, mem: &[u32], run: Run, j: usize) -> Operand
    requires { Ready mem.now run }
    ensures { Taking code.now mem.now run j (value_as result.kind result.word) result.top }
{
    if j == 0 || code.len() < j {
        return pop(mem, run);
    }
    // Two questions and no match: a match asks first whether it is any other entry.
    let entry = code.entry(j - 1);
    if let Entry::Name(a) = entry {
        let at = layout::FRAME * run.depth + layout::CELL * (a.0 % layout::CELLS);
        Operand {
            kind: mem[at],
            word: mem[at + 1],
            top: run.top,
        }
    } else if let Entry::Number(z) = entry {
        Operand {
            kind: 0,
            word: ints::word(z),
            top: run.top,
        }
    } else {
        pop(mem, run)
    }
}

// The two operands of the next entry, the right one of which has d entries; none, where one of them is open.
// Worked in place at both of its callers: the run stays in registers.
#[inline(always)]
fn pair(code: &Code, mem: &[u32], run: Run, d: usize) -> Option<Operands>
    requires { Ready mem.now run }
    ensures { IfSome result (λ b. Paired code.now mem.now run d (Known (to_z w32 b.left)) (Known (to_z w32 b.right)) b.top) }
{
    let right = take(code, mem, run, run.pc);
    let rest = Run {
        top: right.top,
        ..run
    };
    let left = take(code, mem, rest, run.pc.saturating_sub(d));
    if left.kind == 0 && right.kind == 0 {
        return Some(Operands {
            left: left.word,
            right: right.word,
            top: left.top,
        });
    }
    None
}

// Writes a cell, by its two words.
fn put(mem: &mut [u32], at: usize, kind: u32, word: u32)
    requires { at + 1 < length mem.old }
    ensures { Put mem.old mem.new at (cell_read_as kind word) }
{
    mem[at] = kind;
    mem[at + 1] = word;
}

// The first word of a cell, as it is written here: 0, or 1 if the cell is open. Two words that were just written each by itself are slow to read as one, and so they are copied one by one.
fn first_word(kind: u32) -> u32
    ensures { (x : ℕ) → cell_read_as result x ≡ cell_read_as kind x }
{
    if kind == 0 { 0 } else { 1 }
}

// An operation, on words.
fn operate(o: Operation, x: u32, y: u32) -> u32
    ensures { to_z w32 result ≡ arith (of_operation o) (to_z w32 x) (to_z w32 y) }
{
    ints::word(o.apply(ints::signed(x), ints::signed(y)))
}

// Whether a comparison holds of two words.
fn holds(c: Comparison, x: u32, y: u32) -> bool
    ensures { result ≡ holds_of (of_comparison c) (to_z w32 x) (to_z w32 y) }
{
    c.holds(ints::signed(x), ints::signed(y))
}

// The variable that entry i assigns to, if it is an assignment.
fn assigned(code: &Code, i: usize) -> Option<Address>
    ensures entry { IfSome result (λ a. as_entry (Store a) ≡ get_or code.now.entries i (act fail)) }
    ensures inside { IfSome result (λ a. i < 65536) }
{
    if code.len() <= i {
        return None;
    }
    match code.entry(i) {
        Entry::Store(a) => Some(a),
        _ => None,
    }
}

// The assignment behind an operation whose value is v, if there is one.
fn assign(code: &Code, mem: &mut [u32], p: Point, v: u32) -> Point
    requires { Going mem.old p × Result code.now mem.old p v }
    ensures { ((m : List ℕ) (before : point.Point) → Made code.now m mem.old before p → OneOrTwo code.now m mem.new before result) × (result.steps ≡ p.steps) }
{
    let run = p.run;
    let Some(a) = assigned(code, run.pc) else {
        return p;
    };
    put(
        mem,
        layout::FRAME * run.depth + layout::CELL * (a.0 % layout::CELLS),
        0,
        v,
    );
    p.proceed(Run {
        pc: run.pc + 1,
        top: run.top - 1,
        ..run
    })
}

// An operation, if its values are known, and the assignment behind it.
#[tactic(auto, using(crate::proofs::Making::no_turn))]
fn work(
    code: &Code,
    mem: &mut [u32],
    p: Point,
    floor: usize,
    op: Operation,
    d: usize,
) -> Option<Point>
    requires { Going mem.old p × (p.run.pc < 65536) × (as_entry (Operate op d) ≡ get_or code.now.entries p.run.pc (act fail)) × (floor < p.steps) }
    ensures { One code.now mem.old mem.new p floor result }
{
    let run = p.run;
    let b = pair(code, mem, run, d)?;
    let v = operate(op, b.left, b.right);
    put(mem, layout::TEMPORARIES + layout::STRIDE * b.top, 0, v);
    let next = p.spend(Run {
        pc: run.pc + 1,
        top: b.top + 1,
        ..run
    });
    Some(assign(code, mem, next, v))
}

// A comparison, if its values are known.
#[tactic(auto, using(crate::proofs::Making::no_turn))]
fn compare(
    code: &Code,
    mem: &[u32],
    p: Point,
    floor: usize,
    c: Comparison,
    d: usize,
) -> Option<Point>
    requires { Going mem.now p × (p.run.pc < 65536) × (as_entry (Compare c d) ≡ get_or code.now.entries p.run.pc (act fail)) × (floor < p.steps) }
    ensures { One code.now mem.now mem.now p floor result }
{
    let run = p.run;
    let b = pair(code, mem, run, d)?;
    Some(p.spend(Run {
        pc: run.pc + 1,
        flag: holds(c, b.left, b.right),
        top: b.top,
        ..run
    }))
}

// An assignment.
fn store(code: &Code, mem: &mut [u32], p: Point, a: Address) -> Point
    requires { Going mem.old p × (p.run.pc < 65536) × (as_entry (Store a) ≡ get_or code.now.entries p.run.pc (act fail)) }
    ensures { Made code.now mem.old mem.new p result × (result.steps ≡ p.steps) }
{
    let run = p.run;
    let t = take(code, mem, run, run.pc);
    put(
        mem,
        layout::FRAME * run.depth + layout::CELL * (a.0 % layout::CELLS),
        first_word(t.kind),
        t.word,
    );
    p.proceed(Run {
        pc: run.pc + 1,
        top: t.top,
        ..run
    })
}

// One turn, if it is one of these and leaves no fewer steps than the floor.
#[tactic(auto, using(crate::proofs::Making::no_turn))]
fn one(code: &Code, mem: &mut [u32], p: Point, floor: usize) -> Option<Point>
    requires { Going mem.old p × (floor ≤ p.steps) }
    ensures { One code.now mem.old mem.new p floor result }
{
    let run = p.run;
    if code.len() <= run.pc {
        return None;
    }
    match code.entry(run.pc) {
        Entry::Number(_) | Entry::Name(_) | Entry::Argument(_) => Some(p.proceed(Run {
            pc: run.pc + 1,
            ..run
        })),
        Entry::Operate(op, d) if floor < p.steps => work(code, mem, p, floor, op, d as usize),
        Entry::Compare(c, d) if floor < p.steps => compare(code, mem, p, floor, c, d as usize),
        Entry::Constant(flag) => Some(p.proceed(run.flagged(flag))),
        Entry::Jump { flag, over } => Some(p.proceed(Run {
            pc: run.landing(flag, over as usize),
            ..run
        })),
        Entry::Skip(over) => Some(p.proceed(Run {
            pc: run.pc + 1 + over as usize,
            ..run
        })),
        Entry::Again(back) if floor < p.steps => Some(p.spend(Run {
            pc: run.pc.saturating_sub(back as usize),
            ..run
        })),
        Entry::Begin if floor < p.steps => Some(p.spend(Run {
            pc: run.pc + 1,
            ..run
        })),
        Entry::Store(a) => Some(store(code, mem, p, a)),
        _ => None,
    }
}

// Turns as long as they are of these kinds and leave no fewer steps than the floor.
fn make(code: &Code, mem: &mut [u32], begins: Point, floor: usize) -> Point
    requires { Going mem.old begins × (floor ≤ begins.steps) }
    ensures { Turns code.now mem.old begins mem.new result × Going mem.new result × (floor ≤ result.steps) }
{
    let mut p = begins;
    while let Some(next) = one(code, mem, p, floor) {
        p = next;
    }
    p
}

// How many steps must be left where the budget pays for the moves.
fn floor_of(p: Point, left: u32) -> usize
    ensures { (result ≤ p.steps) × (moves p.forced (p.steps - result) ≤ left) }
{
    if p.forced == 0 {
        p.steps.saturating_sub(left as usize)
    } else {
        0
    }
}

// What is left of the budget after steps from the point p on.
fn left_of(p: Point, left: u32, steps: usize) -> u32
    requires { (steps ≤ p.steps) × (moves p.forced (p.steps - steps) ≤ left) }
    ensures { result ≡ left - moves p.forced (p.steps - steps) }
{
    if p.forced == 0 {
        left - (p.steps - steps) as u32
    } else {
        left
    }
}

// Turns on known values, as far as the budget pays for them.
pub fn pass(code: &Code, mem: &mut [u32], p: Point, left: u32) -> Passed
    requires { Going mem.old p }
    ensures { Passes code.now mem.old mem.new p left result.point result.left }
{
    let q = make(code, mem, p, floor_of(p, left));
    Passed {
        point: q,
        left: left_of(p, left, q.steps),
    }
}
