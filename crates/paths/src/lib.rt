// A path of the search, over lent memory, turn by turn.
#![tactic(auto)]

ghost use Rattle.std.specs.Prelude.{◌≡◌, true, List, ◌+◌, ◌-◌, ◌*◌, ◌<◌, ◌≤◌, length, get_or};
ghost use Rattle.semantics.specs.Int.{Cmp};
ghost use Rattle.semantics.specs.Program.{Window as WindowS};
ghost use Rattle.semantics.specs.Search.{all32, clipped, unknown};
ghost use Rattle.simulation.specs.Path.{holding as holdingS};
ghost use Rattle.simulation.specs.Nodes as nodes;
ghost use Rattle.simulation.specs.Nodes.{range_in, Within};
ghost use Rattle.ints.specs.Meaning.{of_comparison};
ghost use Rattle.intervals.specs.Meaning.{Filled, of_window};
ghost use Rattle.narrowing.specs.Meaning.{variable_of, Stands};
ghost use Rattle.machine.specs.Layout.{tables_place};
ghost use Rattle.machine.specs.Memory.{cell_read_as, node_at, windows_in, ranges_in};
ghost use Rattle.machine.specs.Terms.{cell_of, Sized, meant, Room, Ready};
ghost use Rattle.paths.specs.Table.{range_at, Ranging, Ranged, Windows, Anew};
ghost use Rattle.paths.specs.Choice.{Tables, PairSet, Reached, bit, test_by, Noting, Taken, Undecided, Narrowed};
ghost use Rattle.paths.specs.Point.{Standing, Stays, Chose, chosen, running, flagging, Usable, Compared, Going};
ghost use Rattle.paths.specs.Turn.{Growing, Grown, spending, declaring, AfterStep, AfterTest, AfterFree, OneTurn};

use code::Code;
use intervals::Window;
use ints::{Comparison, Operation};
use machine::{Did, Run, Value, kinds, layout};
use narrowing::Side;

// Where a path stands, beside the memory: the machine's run, the steps that may still be made, how many windows and choices there are, and how many forced outcomes are still to come.
#[derive(Clone, Copy)]
pub struct Point {
    pub run: Run,
    pub steps: usize,
    pub windows: usize,
    pub choices: usize,
    pub forced: usize,
}

impl Point {
    // The same point with another run.
    pub fn proceed(self, run: Run) -> Point
        ensures { result ≡ running self run }
    {
        Point { run, ..self }
    }

    // The same point with the flag of an outcome.
    fn flag(self, o: bool) -> Point
        ensures { result ≡ flagging self o }
    {
        self.proceed(Run {
            flag: o,
            ..self.run
        })
    }

    // The point after one more choice.
    fn count(self) -> Point
        requires { self.choices < 4294967296 }
        ensures { result ≡ chosen self }
    {
        Point {
            choices: self.choices + 1,
            forced: ints::monus(self.forced, 1),
            ..self
        }
    }

    // The point after a step.
    pub fn spend(self, run: Run) -> Point
        requires { 1 ≤ self.steps }
        ensures { result ≡ spending self run }
    {
        Point {
            run,
            steps: self.steps - 1,
            ..self
        }
    }

    // The point after a free declaration.
    fn declare(self, run: Run) -> Point
        requires { (1 ≤ self.steps) × (self.windows < 8) }
        ensures { result ≡ declaring self run }
    {
        Point {
            windows: self.windows + 1,
            ..self.spend(run)
        }
    }
}

// A turn: the path goes on, and the turn is a move or not; or the path has ended.
// An enum of its own, as named for this place: more outcomes than Option or Result have.
#[derive(Drop)]
pub enum Turned {
    On(bool, Point),
    Returned(Value),
    Failed,
    Cut,
}

// The window of free variable i, of k; all of 32 bits, where there is none.
fn window_of(mem: &[u32], k: usize, i: usize) -> Window
    requires { (k ≤ 8) × (tables_place ≤ length mem.now) }
    ensures { of_window result ≡ get_or (windows_in mem.now k) i all32 }
{
    if i < k {
        return Window {
            low: ints::signed(mem[layout::WINDOWS + layout::WINDOW * i]),
            high: ints::signed(mem[layout::WINDOW_HIGHS + layout::WINDOW * i]),
        };
    }
    Window {
        low: i32::MIN,
        high: i32::MAX,
    }
}

// The range of node i, where n nodes have theirs; that of 0, where it is not among them.
fn node_range(mem: &[u32], n: usize, i: usize) -> Window
    requires { Room mem.now n }
    ensures { of_window result ≡ range_in (ranges_in mem.now n) (cell_read_as 1 i) }
{
    if i < n {
        return Window {
            low: ints::signed(mem[layout::RANGE_LOWS + layout::STRIDE * i]),
            high: ints::signed(mem[layout::RANGE_HIGHS + layout::STRIDE * i]),
        };
    }
    Window { low: 0, high: 0 }
}

// The range of a cell, by its two words.
// Words and no enum: the memory is C's, and a cell is two of its words.
fn cell_range(mem: &[u32], n: usize, kind: u32, x: u32) -> Window
    requires { Room mem.now n }
    ensures { of_window result ≡ range_in (ranges_in mem.now n) (cell_read_as kind x) }
{
    if kind == 0 {
        let z = ints::signed(x);
        return Window { low: z, high: z };
    }
    node_range(mem, n, x as usize)
}

// The range of a value.
fn range_of(mem: &[u32], n: usize, v: Value) -> Window
    requires { Room mem.now n }
    ensures { of_window result ≡ range_in (ranges_in mem.now n) (cell_of v) }
{
    match v {
        Value::Known(z) => Window { low: z, high: z },
        Value::Open(i) => node_range(mem, n, i),
    }
}

// The range of node j in k windows, where the nodes before it have theirs.
fn range_at(mem: &[u32], k: usize, j: usize) -> Window
    requires { (k ≤ 8) × Room mem.now (j + 1) × Ranging (ranges_in mem.now j) }
    ensures { of_window result ≡ range_at mem.now k j }
{
    let kind = mem[layout::NODES + layout::STRIDE * j];
    let x = mem[layout::NODE_LEFTS + layout::STRIDE * j];
    let y = mem[layout::NODE_RIGHTS + layout::STRIDE * j];
    let op = kind % kinds::NODE_LEFT;
    if op == kinds::FREE {
        return window_of(mem, k, x as usize);
    }
    let v = cell_range(mem, j, kind / kinds::NODE_LEFT % 2, x);
    let w = cell_range(mem, j, kind / kinds::NODE_RIGHT, y);
    ranges::range(Operation::from(op - kinds::OPERATION), v, w)
}

// Node j gets its range.
fn write_range(mem: &mut [u32], k: usize, j: usize)
    requires { (k ≤ 8) × Room mem.old (j + 1) × Ranging (ranges_in mem.old j) }
    ensures { Ranged mem.old mem.new k j }
{
    let w = range_at(mem, k, j);
    mem[layout::RANGE_LOWS + layout::STRIDE * j] = ints::word(w.low);
    mem[layout::RANGE_HIGHS + layout::STRIDE * j] = ints::word(w.high);
}

// All n nodes get their ranges, in their order, as after a window narrowed.
pub fn all_ranges(mem: &mut [u32], k: usize, n: usize)
    requires { (k ≤ 8) × Room mem.old n × Windows (windows_in mem.old k) }
    ensures { Anew mem.old mem.new k n }
{
    for j in 0..n {
        write_range(mem, k, j);
    }
}

// Pair k of the eight at a place is this one.
fn store_pair(mem: &mut [u32], at: usize, w: Window, k: usize)
    requires { (k < 8) × (at + 16 ≤ length mem.old) }
    ensures { PairSet mem.old mem.new at (of_window w) k }
{
    let ws = window_memory::load(mem, at);
    window_memory::put(mem, at, narrowing::with_pair(ws, k, [w.low, w.high]));
}

// A free declaration is reached: window k starts as its pair, and the pair is kept.
fn reach(mem: &mut [u32], w: Window, k: usize)
    requires { (k < 8) × (tables_place ≤ length mem.old) }
    ensures { Reached mem.old mem.new (of_window w) k }
{
    store_pair(mem, layout::WINDOWS, w, k);
    store_pair(mem, layout::STARTS, w, k);
}

// A side of a comparison, in k windows with n nodes.
fn side(mem: &[u32], k: usize, n: usize, v: Value) -> Side
    requires { Tables mem.now k n × Within n (cell_of v) }
    ensures { Stands (windows_in mem.now k) result (meant mem.now n v) }
{
    match v {
        Value::Known(z) => Side::Other(Window { low: z, high: z }),
        Value::Open(j) => {
            if mem[layout::NODES + layout::STRIDE * j] % kinds::NODE_LEFT == kinds::FREE {
                return Side::Free(mem[layout::NODE_LEFTS + layout::STRIDE * j] as usize);
            }
            Side::Other(node_range(mem, n, j))
        }
    }
}

// The two words of a value's cell.
// A number and no bool: it goes into a word of C's memory.
fn open_bit(v: Value) -> u32
    ensures { result ≡ bit v }
{
    match v {
        Value::Known(_) => 0,
        Value::Open(_) => 1,
    }
}

fn word_of(v: Value) -> u32
    requires { Sized v }
    ensures { cell_read_as (bit v) result ≡ cell_of v }
{
    match v {
        Value::Known(z) => ints::word(z),
        Value::Open(j) => j as u32,
    }
}

// Notes test t: the comparison holds of the two values.
fn note(mem: &mut [u32], t: usize, c: Comparison, v: Value, w: Value)
    requires { Room mem.old (t + 1) × Sized v × Sized w }
    ensures { Noting mem.old mem.new t (test_by (of_comparison c) v w) }
{
    mem[layout::TESTS + layout::STRIDE * t] = u32::from(c)
        + kinds::TEST_LEFT * open_bit(v)
        + kinds::TEST_RIGHT * open_bit(w);
    mem[layout::TEST_LEFTS + layout::STRIDE * t] = word_of(v);
    mem[layout::TEST_RIGHTS + layout::STRIDE * t] = word_of(w);
}

// The outcome of choice t: the next forced one, and where none is left, true.
fn take(mem: &mut [u32], t: usize, forced: usize) -> bool
    requires { Room mem.old (t + 1) }
    ensures { Taken mem.old mem.new t forced result }
{
    if forced == 0 {
        mem[layout::OUTCOMES + layout::STRIDE * t] = 1;
        return true;
    }
    mem[layout::OUTCOMES + layout::STRIDE * t] != 0
}

// Whether a side that is compared with a number of this range narrows no window.
fn idle(s: Side, r: Window) -> bool
    ensures { result ≡ true → (c : Cmp) (ws : List WindowS) → clipped c (variable_of s) (of_window r) ws ≡ ws }
{
    match s {
        Side::Free(_) => r.low != r.high,
        Side::Other(_) => true,
    }
}

// The windows narrow where the comparison holds; then all nodes get their ranges.
fn narrow(mem: &mut [u32], k: usize, n: usize, c: Comparison, v: Value, w: Value)
    requires { Tables mem.old k n × Undecided mem.old n (of_comparison c) v w }
    ensures { Narrowed mem.old mem.new k n (of_comparison c) v w }
{
    let a = side(mem, k, n, v);
    let b = side(mem, k, n, w);
    if idle(a, range_of(mem, n, w)) && idle(b, range_of(mem, n, v)) {
        return;
    }
    let ws = window_memory::load(mem, layout::WINDOWS);
    window_memory::put(mem, layout::WINDOWS, narrowing::narrowed(ws, c, a, b));
    all_ranges(mem, k, n);
}

// The comparison that holds where this one has the outcome o.
fn holding(o: bool, c: Comparison) -> Comparison
    ensures { of_comparison result ≡ holdingS o (of_comparison c) }
{
    if o { c } else { ranges::negated(c) }
}

// A choice: its outcome is taken, its test noted, and the windows narrow.
fn choose(mem: &mut [u32], p: Point, c: Comparison, v: Value, w: Value) -> bool
    requires { Standing mem.old p × Room mem.old (p.choices + 1) × Undecided mem.old p.run.nodes (of_comparison c) v w }
    ensures { Chose mem.old mem.new p (of_comparison c) v w result }
{
    let o = take(mem, p.choices, p.forced);
    let held = holding(o, c);
    note(mem, p.choices, held, v, w);
    narrow(mem, p.windows, p.run.nodes, held, v, w);
    o
}

// A comparison: the ranges decide it, or a choice is made.
fn compare(mem: &mut [u32], p: Point, c: Comparison, v: Value, w: Value) -> Point
    requires { Standing mem.old p × Ready mem.old p.run × Room mem.old (p.choices + 1) × Usable p.run.nodes v × Usable p.run.nodes w }
    ensures { Compared mem.old mem.new p (of_comparison c) v w result }
{
    let a = range_of(mem, p.run.nodes, v);
    let b = range_of(mem, p.run.nodes, w);
    match ranges::decide(c, a, b) {
        Some(o) => p.flag(o),
        None => {
            let o = choose(mem, p, c, v, w);
            p.count().flag(o)
        }
    }
}

// The new node, if there is one after the first n, gets its range.
fn new_range(mem: &mut [u32], k: usize, n: usize, nodes: usize)
    requires { Tables mem.old k n × Room mem.old nodes × Growing mem.old n nodes }
    ensures { Grown mem.old mem.new k n nodes }
{
    if n < nodes {
        write_range(mem, k, n);
    }
}

// A step.
fn after_step(mem: &mut [u32], p: Point, run: Run) -> Turned
    requires { Standing mem.old p × Ready mem.old run × Growing mem.old p.run.nodes run.nodes }
    ensures { AfterStep mem.old mem.new p run result × Stays mem.old mem.new p.run.nodes p.choices }
{
    if p.steps == 0 {
        return Turned::Cut;
    }
    new_range(mem, p.windows, p.run.nodes, run.nodes);
    Turned::On(p.forced == 0, p.spend(run))
}

// A comparison.
fn after_test(mem: &mut [u32], p: Point, run: Run, c: Comparison, v: Value, w: Value) -> Turned
    requires { Standing mem.old p × Ready mem.old run × (run.nodes ≡ p.run.nodes) × Room mem.old (p.choices + p.steps + 1) × Usable p.run.nodes v × Usable p.run.nodes w }
    ensures { AfterTest mem.old mem.new p run (of_comparison c) v w result × Stays mem.old mem.new p.run.nodes p.choices }
{
    if p.steps == 0 {
        return Turned::Cut;
    }
    Turned::On(p.forced == 0, compare(mem, p.spend(run), c, v, w))
}

// A free declaration, with its pair.
fn after_free(mem: &mut [u32], p: Point, run: Run, w: Window) -> Turned
    requires { Standing mem.old p × Ready mem.old run × (run.nodes ≡ p.run.nodes + 1) × (node_at mem.old p.run.nodes ≡ nodes.unknown p.windows) × Filled (of_window w) }
    ensures { AfterFree mem.old mem.new p run (of_window w) result × Stays mem.old mem.new p.run.nodes p.choices }
{
    if p.steps == 0 || p.windows == layout::UNKNOWNS {
        return Turned::Cut;
    }
    reach(mem, w, p.windows);
    write_range(mem, p.windows + 1, p.run.nodes);
    Turned::On(p.forced == 0, p.declare(run))
}

// One turn of the path: one entry of the code is worked, within the limits.
pub fn turn(code: &Code, mem: &mut [u32], job: Window, p: Point) -> Turned
    requires { Going mem.old p × Filled (of_window job) }
    ensures { OneTurn code.now (of_window job) mem.old mem.new p result × Stays mem.old mem.new p.run.nodes p.choices }
{
    match machine::advance(code, mem, job, p.run, p.windows as u32) {
        Did::Silent(r) => Turned::On(false, p.proceed(r)),
        Did::Step(r) => after_step(mem, p, r),
        Did::Free(r, w) => after_free(mem, p, r, w),
        Did::Test(c, v, w, r) => after_test(mem, p, r, c, v, w),
        Did::Returned(v) => Turned::Returned(v),
        Did::Failed => Turned::Failed,
        Did::Cut => Turned::Cut,
    }
}
