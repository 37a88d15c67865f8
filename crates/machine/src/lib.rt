// The machine of `simulation`, over lent memory.
// The memory is a slice and no struct with an invariant: C lends it, and how much of it is in use changes with each entry (`Room`).
#![tactic(auto)]

ghost use Rattle.std.specs.Prelude.{◌≡◌, ℕ, suc, ◌+◌, ◌-◌, ◌*◌, ◌<◌, ◌≤◌, length, get_or};
ghost use Rattle.semantics.specs.Program.{slot};
ghost use Rattle.semantics.specs.Search.{known, work as workS};
ghost use Rattle.simulation.specs.Machine.{Doing, leaf_number, own_pair_of, extent as extentS, landing as landingS, advance as advanceS};
ghost use Rattle.simulation.specs.Code.{Code as Told, operate as operateS, store as storeS, return as returnS, fail as failS, call as callS, act};
ghost use Rattle.ints.specs.Meaning.{of_operation};
ghost use Rattle.intervals.specs.Meaning.{of_window, Filled};
ghost use Rattle.machine.specs.Layout.{frame_cells, frame_words, variable_place, tables_place};
ghost use Rattle.machine.specs.Memory.{node_as, machine_at};
ghost use Rattle.machine.specs.Terms.{cell_of, Sized, Room, Ready, Holds, Put, Noded, Worked, Popped, Taking, Paired, Blank, Gathering, Goes, acts, storing, Asked, moved as movedS, flagged as flaggedS, Done, Started};

use code::{Address, Code, Entry, FUNCTIONS};
use intervals::Window;
use ints::{Comparison, Operation};

pub mod kinds;
pub mod layout;

// "A value is known, or open with the expression it stands for": a number, or the place of a node.
#[derive(Clone, Copy, PartialEq, Eq, Debug)]
pub enum Value {
    Known(i32),
    Open(usize),
}

// What stands in a cell of the memory: the struct that holds a value there, as the form named for this place asks.
#[derive(Clone, Copy, PartialEq, Eq, Debug)]
pub struct Cell {
    pub value: Value,
}

// The machine's state, beside the memory: the entry to be worked next, the flag, where the temporaries of the function that runs begin and end, how many functions wait for it, and how many nodes there are.
// No invariant bounds `pc`, so clauses do: a jump may lead past the code.
#[derive(Clone, Copy)]
pub struct Run {
    pub pc: usize,
    pub flag: bool,
    pub base: usize,
    pub top: usize,
    pub depth: usize,
    pub nodes: usize,
}

impl Run {
    // The same at another entry.
    fn moved(self, pc: usize) -> Run
        ensures { result ≡ movedS self pc }
    {
        Run { pc, ..self }
    }

    // The same at the next entry, with another flag.
    pub fn flagged(self, flag: bool) -> Run
        requires { self.pc < 65536 }
        ensures { result ≡ movedS (flaggedS self flag) (self.pc + 1) }
    {
        Run {
            pc: self.pc + 1,
            flag,
            ..self
        }
    }

    // Where a jump over w entries goes that is made if the flag is as said.
    pub fn landing(self, flag: bool, w: usize) -> usize
        requires { (self.pc < 65536) × (w < 4294967296) }
        ensures { result ≡ landingS flag self.flag w (suc self.pc) }
    {
        if self.flag == flag {
            self.pc + 1 + w
        } else {
            self.pc + 1
        }
    }
}

// What working one entry did: the machine goes on, without a step or after one; it has reached a free declaration, whose window starts as this pair, or a comparison of two values; or the run has ended. `Silent`, `Step` and `Free` have the run first: in one place, it stays in registers.
#[derive(Drop)]
pub enum Did {
    Silent(Run),
    Step(Run),
    Free(Run, Window),
    Test(Comparison, Value, Value, Run),
    Returned(Value),
    Failed,
    Cut,
}

// A value, and how many nodes there are with it.
#[derive(Drop)]
pub struct Made {
    pub value: Value,
    pub nodes: usize,
}

// An operand, and where the temporaries end without it.
#[derive(Drop)]
pub struct Took {
    pub value: Value,
    pub top: usize,
}

// Two operands, and where the temporaries end without them.
#[derive(Drop)]
pub struct Both {
    pub left: Value,
    pub right: Value,
    pub top: usize,
}

// The cell at a word.
// Words and no enum: the memory is C's, and a cell is two of its words.
fn load(mem: &[u32], at: usize) -> Cell
    requires { at + 1 < length mem.now }
    ensures { Holds mem.now at result.value }
{
    let value = if mem[at] == 0 {
        Value::Known(ints::signed(mem[at + 1]))
    } else {
        Value::Open(mem[at + 1] as usize)
    };
    Cell { value }
}

// Writes a cell.
fn put(mem: &mut [u32], at: usize, cell: Cell)
    requires { (at + 1 < length mem.old) × Sized cell.value }
    ensures { Put mem.old mem.new at (cell_of cell.value) }
{
    match cell.value {
        Value::Known(z) => {
            mem[at] = 0;
            mem[at + 1] = ints::word(z);
        }
        Value::Open(j) => {
            mem[at] = 1;
            mem[at + 1] = j as u32;
        }
    }
}

// Adds a node, by its three words.
// Words and no enum: the memory is C's.
fn node(mem: &mut [u32], nodes: usize, k: u32, x: u32, y: u32)
    requires { Room mem.old (nodes + 1) }
    ensures { Noded mem.old mem.new nodes (node_as k x y) }
{
    let at = layout::NODES + layout::STRIDE * nodes;
    mem[at] = k;
    mem[at + 1] = x;
    mem[at + 2] = y;
}

// An operation: two numbers are worked, anything else is a new node.
fn work(mem: &mut [u32], nodes: usize, op: Operation, v: Value, w: Value) -> Made
    requires { Room mem.old (nodes + 1) × Sized v × Sized w }
    ensures { Worked mem.old mem.new nodes (of_operation op) v w result.value result.nodes }
{
    let number = u32::from(op);
    match (v, w) {
        (Value::Known(a), Value::Known(b)) => {
            return Made {
                value: Value::Known(op.apply(a, b)),
                nodes,
            };
        }
        (Value::Known(a), Value::Open(j)) => {
            node(
                mem,
                nodes,
                number + kinds::KNOWN_OPEN,
                ints::word(a),
                j as u32,
            );
        }
        (Value::Open(i), Value::Known(b)) => {
            node(
                mem,
                nodes,
                number + kinds::OPEN_KNOWN,
                i as u32,
                ints::word(b),
            );
        }
        (Value::Open(i), Value::Open(j)) => {
            node(mem, nodes, number + kinds::OPEN_OPEN, i as u32, j as u32);
        }
    }
    Made {
        value: Value::Open(nodes),
        nodes: nodes + 1,
    }
}

// The newest temporary, taken.
fn pop(mem: &[u32], run: Run) -> Took
    requires { Ready mem.now run }
    ensures { Popped mem.now run result.value result.top }
{
    if run.top == run.base {
        return Took {
            value: Value::Known(0),
            top: run.top,
        };
    }
    Took {
        value: load(mem, layout::TEMPORARIES + layout::STRIDE * (run.top - 1)).value,
        top: run.top - 1,
    }
}

// What a variable of the function that runs holds.
// The bound of an address stands in clauses and in no type: `Address` is one struct for all crates.
fn variable(mem: &[u32], run: Run, a: Address) -> Value
    requires { Ready mem.now run × (a.0 < frame_cells) }
    ensures { Holds mem.now (variable_place run.depth a.0) result }
{
    load(mem, layout::FRAME * run.depth + layout::CELL * a.0).value
}

// The operand that ends just before entry j.
fn take(code: &Code, mem: &[u32], run: Run, j: usize) -> Took
    requires { Ready mem.now run }
    ensures { Taking code.now mem.now run j result.value result.top }
{
    if j == 0 || code.len() < j {
        return pop(mem, run);
    }
    // Two questions and no match: a match asks first whether it is any other entry.
    let entry = code.entry(j - 1);
    if let Entry::Name(a) = entry {
        Took {
            value: variable(mem, run, Address(a.0 % layout::CELLS)),
            top: run.top,
        }
    } else if let Entry::Number(z) = entry {
        Took {
            value: Value::Known(z),
            top: run.top,
        }
    } else {
        pop(mem, run)
    }
}

// The two operands of the next entry, the right one of which has d entries.
// Worked in place at both of its callers: the run stays in registers.
#[inline(always)]
fn pair(code: &Code, mem: &[u32], run: Run, d: usize) -> Both
    requires { Ready mem.now run }
    ensures { Paired code.now mem.now run d result.left result.right result.top }
{
    let b = take(code, mem, run, run.pc);
    let rest = Run { top: b.top, ..run };
    let a = take(code, mem, rest, run.pc.saturating_sub(d));
    Both {
        left: a.value,
        right: b.value,
        top: a.top,
    }
}

// An operation on two operands.
fn operate(mem: &mut [u32], run: Run, op: Operation, p: Both) -> Run
    requires { Ready mem.old run × (run.pc < 65536) × Room mem.old (run.top + 1) × Room mem.old (run.nodes + 1) × Sized p.left × Sized p.right × (p.top ≤ run.top) }
    ensures { (c : Told) (d : ℕ) → Paired c mem.old run d p.left p.right p.top → Goes Doing.step 1 (acts c mem.old run (operateS (of_operation op) d)) mem.old run.nodes mem.new result }
{
    let made = work(mem, run.nodes, op, p.left, p.right);
    put(
        mem,
        layout::TEMPORARIES + layout::STRIDE * p.top,
        Cell { value: made.value },
    );
    Run {
        pc: run.pc + 1,
        top: p.top + 1,
        nodes: made.nodes,
        ..run
    }
}

// An assignment.
fn store(code: &Code, mem: &mut [u32], run: Run, a: Address) -> Run
    requires { Ready mem.old run × (a.0 < frame_cells) × (run.pc < 65536) }
    ensures { Goes Doing.silent 0 (acts code.now mem.old run (storeS (slot a.0))) mem.old run.nodes mem.new result }
{
    let t = take(code, mem, run, run.pc);
    put(
        mem,
        layout::FRAME * run.depth + layout::CELL * a.0,
        Cell { value: t.value },
    );
    Run {
        pc: run.pc + 1,
        top: t.top,
        ..run
    }
}

// A free declaration: the variable is the unknown k.
fn ask(mem: &mut [u32], run: Run, a: Address, k: u32) -> Run
    requires { Ready mem.old run × (a.0 < frame_cells) × (run.pc < 65536) × Room mem.old (run.nodes + 1) }
    ensures { Asked (storing mem.old run a.0) mem.old run.nodes mem.new k result }
{
    node(mem, run.nodes, kinds::FREE, k, 0);
    put(
        mem,
        layout::FRAME * run.depth + layout::CELL * a.0,
        Cell {
            value: Value::Open(run.nodes),
        },
    );
    Run {
        pc: run.pc + 1,
        nodes: run.nodes + 1,
        ..run
    }
}

// The number that stands at an entry; 0 where none does.
fn number_at(code: &Code, e: usize) -> i32
    ensures { result ≡ leaf_number (get_or code.now.entries e (act failS)) }
{
    if code.len() <= e {
        return 0;
    }
    match code.entry(e) {
        Entry::Number(z) => z,
        _ => 0,
    }
}

// The pair of the declaration at an entry that has its own; one the wrong way round has its low end alone.
fn own_pair(code: &Code, e: usize) -> Window
    ensures { (of_window result ≡ own_pair_of code.now e) × Filled (of_window result) }
{
    let low = number_at(code, e.saturating_sub(2));
    let high = number_at(code, e.saturating_sub(1));
    Window {
        low,
        high: low.max(high),
    }
}

// A return to a caller.
fn leave(code: &Code, mem: &mut [u32], run: Run) -> Run
    requires { Ready mem.old run × (1 ≤ run.depth) × Room mem.old (run.base + 1) }
    ensures { Goes Doing.silent 0 (acts code.now mem.old run returnS) mem.old run.nodes mem.new result }
{
    let t = take(code, mem, run, run.pc);
    let d = run.depth - 1;
    let pc = mem[layout::CALLERS + layout::CALLER * d] as usize;
    let base = mem[layout::CALLER_BASES + layout::CALLER * d] as usize;
    put(
        mem,
        layout::TEMPORARIES + layout::STRIDE * run.base,
        Cell { value: t.value },
    );
    Run {
        pc,
        base,
        top: run.base + 1,
        depth: d,
        ..run
    }
}

// Sixteen cells that are 0. No run of an accepted text reads one before a value is stored; but none may name a node that is not there.
fn blank(mem: &mut [u32], at: usize)
    requires { at + frame_words ≤ length mem.old }
    ensures { Blank mem.old mem.new at frame_cells }
{
    for i in 0..layout::CELLS {
        put(
            mem,
            at + layout::CELL * i,
            Cell {
                value: Value::Known(0),
            },
        );
    }
}

// How many entries the argument has that ends at an entry.
fn extent(code: &Code, e: usize) -> usize
    ensures { result ≡ extentS (get_or code.now.entries e (act failS)) }
{
    if code.len() <= e {
        return 0;
    }
    match code.entry(e) {
        Entry::Argument(d) => d as usize,
        _ => 0,
    }
}

// Takes n arguments into the next frame, and says where the temporaries then end.
fn gather(code: &Code, mem: &mut [u32], run: Run, n: usize) -> usize
    requires { Ready mem.old run × (run.depth < 32) }
    ensures { Gathering code.now mem.old mem.new run n 0 0 result }
{
    let at = layout::FRAME * (run.depth + 1);
    blank(mem, at);
    let mut j = run.pc;
    let mut top = run.top;
    for k in (0..n).rev() {
        let e = j.saturating_sub(1);
        let t = take(code, mem, Run { top, ..run }, e);
        let d = extent(code, e);
        j = e.saturating_sub(d);
        top = t.top;
        if k < layout::CELLS {
            put(mem, at + layout::CELL * k, Cell { value: t.value });
        }
    }
    top
}

// A call of function g with n arguments.
fn enter(code: &Code, mem: &mut [u32], run: Run, g: usize, n: usize) -> Run
    requires { Ready mem.old run × (run.depth < 32) × (run.pc < 65536) × (g < 16) }
    ensures { Goes Doing.step 1 (acts code.now mem.old run (callS g n)) mem.old run.nodes mem.new result }
{
    let top = gather(code, mem, run, n);
    mem[layout::CALLERS + layout::CALLER * run.depth] = (run.pc + 1) as u32;
    mem[layout::CALLER_BASES + layout::CALLER * run.depth] = run.base as u32;
    Run {
        pc: code.start(g),
        base: top,
        top,
        depth: run.depth + 1,
        ..run
    }
}

// Where a path starts.
pub fn start(mem: &mut [u32]) -> Run
    requires { tables_place ≤ length mem.old }
    ensures { Started mem.old mem.new result }
{
    blank(mem, 0);
    Run {
        pc: 0,
        flag: false,
        base: 0,
        top: 0,
        depth: 0,
        nodes: 0,
    }
}

// Works one entry. The next unknown is k; its window starts as its declaration's own pair, or else as the job's.
pub fn advance(code: &Code, mem: &mut [u32], job: Window, run: Run, k: u32) -> Did
    requires { Ready mem.old run × Room mem.old (run.top + 1) × Room mem.old (run.nodes + 1) × Filled (of_window job) }
    ensures { Done (advanceS known workS code.now (machine_at mem.old run)) (of_window job) mem.old run.nodes mem.new k result }
{
    if code.len() <= run.pc {
        return Did::Failed;
    }
    match code.entry(run.pc) {
        Entry::Number(_) | Entry::Name(_) | Entry::Argument(_) => {
            Did::Silent(run.moved(run.pc + 1))
        }
        Entry::Operate(op, d) => {
            let p = pair(code, mem, run, d as usize);
            Did::Step(operate(mem, run, op, p))
        }
        Entry::Compare(c, d) => {
            let p = pair(code, mem, run, d as usize);
            let rest = Run {
                pc: run.pc + 1,
                top: p.top,
                ..run
            };
            Did::Test(c, p.left, p.right, rest)
        }
        Entry::Call { function, count } => {
            if run.depth == layout::DEPTH {
                return Did::Cut;
            }
            Did::Step(enter(code, mem, run, function % FUNCTIONS, count))
        }
        Entry::Constant(flag) => Did::Silent(run.flagged(flag)),
        Entry::Jump { flag, over } => Did::Silent(run.moved(run.landing(flag, over as usize))),
        Entry::Skip(over) => Did::Silent(run.moved(run.pc + 1 + over as usize)),
        Entry::Again(back) => Did::Step(run.moved(run.pc.saturating_sub(back as usize))),
        Entry::Begin => Did::Step(run.moved(run.pc + 1)),
        Entry::Ask(a) => Did::Free(ask(mem, run, Address(a.0 % layout::CELLS), k), job),
        Entry::Own(a) => {
            let own = own_pair(code, run.pc);
            Did::Free(ask(mem, run, Address(a.0 % layout::CELLS), k), own)
        }
        Entry::Store(a) => Did::Silent(store(code, mem, run, Address(a.0 % layout::CELLS))),
        Entry::Return => {
            if run.depth == 0 {
                return Did::Returned(take(code, mem, run, run.pc).value);
            }
            Did::Silent(leave(code, mem, run))
        }
        Entry::Fail => Did::Failed,
    }
}
