// The settings of a path: what the nodes are under one, whether it meets the tests, the one after it, and the rows and cut runs that trying them finds.
#![tactic(auto)]

ghost use Rattle.std.specs.Prelude.{◌≡◌, true, false, ◌+◌, ◌-◌, ◌*◌, ◌<◌, ◌≤◌, T, length, get_or, pos};
ghost use Rattle.std.proofs.Math.IntN.{suc_ℤ};
ghost use Rattle.std.specs.Int.Signed.{lt_z, le_z};
ghost use Rattle.simulation.specs.Nodes.{unknown, meaning, number_in, meets_in, Within};
ghost use Rattle.simulation.specs.Odometer.{filled as filledS};
ghost use Rattle.simulation.specs.Lister.{charge as chargeS, place as placeS};
ghost use Rattle.machine.specs.Layout.{value_place, tables_place, number_place};
ghost use Rattle.semantics.specs.Int.{holds};
ghost use Rattle.semantics.specs.Search.{under};
ghost use Rattle.ints.specs.Meaning.{of_comparison};
ghost use Rattle.machine.specs.Memory.{cell_read_as, node_at, nodes_in, test_as, test_at, windows_in, setting_in, numbers_in, tests_in};
ghost use Rattle.machine.specs.Terms.{Room, cell_of};
ghost use Rattle.settings.specs.Table.{window_at, value_at, number_at, holds_by, holds_at, Wrote, Worked, Anew, First, Follows, Renumbered, Steady, Holding};
ghost use Rattle.settings.specs.Plan.{Decides, NotFree, Off, Clear, FreeNode, FirstBehind, Apart, Rests, Front, Planned};
ghost use Rattle.settings.specs.Seek.{CanRise, Rising, Rose, Sweeping, Seeking};
ghost use Rattle.settings.specs.Rows.{words_of, row_with, Written};
ghost use Rattle.settings.specs.Tries.{tally_of, spending, leaving as leavingS, cutting, Fair, Charged, Placing, AllTrials, AllProbes};

use ints::Comparison;
use machine::{Value, kinds, layout};

mod arms;

// What has been counted: the moves that the budget still allows, the rows still to be skipped, the places still free, the rows written, the moves made, and whether a cut run was found.
#[derive(Drop)]
pub struct Tally {
    pub budget: u32,
    pub skip: u32,
    pub room: usize,
    pub written: usize,
    pub moves: u32,
    pub cut: bool,
}

// Why the search is over, and what was counted: a row has no place, or the budget is spent.
#[derive(Drop)]
pub enum Stopped {
    Full(Tally),
    Spent(Tally),
}

// What is worked for the settings of a path: the nodes before `upto`, on which its tests rest; where the last free variable alone goes up, of these only node `moving`, which is that variable, and those from `first` on.
#[derive(Clone, Copy)]
pub struct Plan {
    pub moving: usize,
    pub first: usize,
    pub upto: usize,
}

// Settings that do not meet the tests were passed over, as the last free variable went up, each a move, with so many moves left: the present one meets them; or the present one is passed over too, and that variable is at its window's high end; or there is no move left.
// Three outcomes: more than Option or Result have.
#[derive(Drop)]
pub enum Swept {
    Here(u32),
    Top(u32),
    Short,
}

// Settings that do not meet the tests were passed over, each a move, with so many moves left: the present one meets them; or there is none left; or there is no move left.
// Three outcomes: more than Option or Result have.
#[derive(Drop)]
pub enum Sought {
    Met(u32),
    Over(u32),
    Out,
}

// The number of free variable i, of k, under the present setting; 0, where there is none.
fn value(mem: &[u32], k: usize, i: usize) -> i32
    requires { (k ≤ 8) × (tables_place ≤ length mem.now) }
    ensures { result ≡ get_or (setting_in mem.now k) i (pos 0) }
{
    if i < k {
        return ints::signed(mem[layout::SETTING + i]);
    }
    0
}

// The number of a cell, by its two words, where n nodes have theirs; 0, where its node is not among them.
// Words and no enum: the memory is C's, and a cell is two of its words.
fn number(mem: &[u32], n: usize, kind: u32, x: u32) -> i32
    requires { Room mem.now n }
    ensures { result ≡ number_in (numbers_in mem.now n) (cell_read_as kind x) }
{
    if kind == 0 {
        return ints::signed(x);
    }
    let i = x as usize;
    if i < n {
        return ints::signed(mem[layout::NUMBERS + layout::STRIDE * i]);
    }
    0
}

// The number of node j, where the nodes before it have theirs.
fn number_at(mem: &[u32], k: usize, j: usize) -> i32
    requires { (k ≤ 8) × Room mem.now (j + 1) }
    ensures { result ≡ number_at mem.now k j }
{
    let kind = mem[layout::NODES + layout::STRIDE * j];
    let x = mem[layout::NODE_LEFTS + layout::STRIDE * j];
    let y = mem[layout::NODE_RIGHTS + layout::STRIDE * j];
    let op = kind % kinds::NODE_LEFT;
    if op == kinds::FREE {
        return value(mem, k, x as usize);
    }
    ints::operate(
        op - kinds::OPERATION,
        number(mem, j, kind / kinds::NODE_LEFT % 2, x),
        number(mem, j, kind / kinds::NODE_RIGHT, y),
    )
}

// Whether a comparison of two cells holds, each by whether it is open and its second word, where n nodes have their numbers.
fn compared(mem: &[u32], n: usize, c: Comparison, left: u32, x: u32, right: u32, y: u32) -> bool
    requires { Room mem.now n }
    ensures { result ≡ holds (of_comparison c) (number_in (numbers_in mem.now n) (cell_read_as left x)) (number_in (numbers_in mem.now n) (cell_read_as right y)) }
{
    c.holds(number(mem, n, left, x), number(mem, n, right, y))
}

// Whether a test holds, by its three words. There is an arm for each kind that a path makes, so that a kind is looked at once.
fn holds_by(mem: &[u32], n: usize, kind: u32, x: u32, y: u32) -> bool
    requires { Room mem.now n }
    ensures { result ≡ holds_by mem.now n (test_as kind x y) }
{
    match kind {
        arms::LT_OPEN_KNOWN => compared(mem, n, Comparison::Less, arms::OPEN, x, arms::KNOWN, y),
        arms::LE_OPEN_KNOWN => compared(mem, n, Comparison::AtMost, arms::OPEN, x, arms::KNOWN, y),
        arms::GT_OPEN_KNOWN => compared(mem, n, Comparison::Greater, arms::OPEN, x, arms::KNOWN, y),
        arms::GE_OPEN_KNOWN => compared(mem, n, Comparison::AtLeast, arms::OPEN, x, arms::KNOWN, y),
        arms::EQ_OPEN_KNOWN => compared(mem, n, Comparison::Equal, arms::OPEN, x, arms::KNOWN, y),
        arms::NE_OPEN_KNOWN => compared(mem, n, Comparison::Unequal, arms::OPEN, x, arms::KNOWN, y),
        arms::LT_KNOWN_OPEN => compared(mem, n, Comparison::Less, arms::KNOWN, x, arms::OPEN, y),
        arms::LE_KNOWN_OPEN => compared(mem, n, Comparison::AtMost, arms::KNOWN, x, arms::OPEN, y),
        arms::GT_KNOWN_OPEN => compared(mem, n, Comparison::Greater, arms::KNOWN, x, arms::OPEN, y),
        arms::GE_KNOWN_OPEN => compared(mem, n, Comparison::AtLeast, arms::KNOWN, x, arms::OPEN, y),
        arms::EQ_KNOWN_OPEN => compared(mem, n, Comparison::Equal, arms::KNOWN, x, arms::OPEN, y),
        arms::NE_KNOWN_OPEN => compared(mem, n, Comparison::Unequal, arms::KNOWN, x, arms::OPEN, y),
        arms::LT_OPEN_OPEN => compared(mem, n, Comparison::Less, arms::OPEN, x, arms::OPEN, y),
        arms::LE_OPEN_OPEN => compared(mem, n, Comparison::AtMost, arms::OPEN, x, arms::OPEN, y),
        arms::GT_OPEN_OPEN => compared(mem, n, Comparison::Greater, arms::OPEN, x, arms::OPEN, y),
        arms::GE_OPEN_OPEN => compared(mem, n, Comparison::AtLeast, arms::OPEN, x, arms::OPEN, y),
        arms::EQ_OPEN_OPEN => compared(mem, n, Comparison::Equal, arms::OPEN, x, arms::OPEN, y),
        arms::NE_OPEN_OPEN => compared(mem, n, Comparison::Unequal, arms::OPEN, x, arms::OPEN, y),
        _ => compared(
            mem,
            n,
            Comparison::from(kind % kinds::TEST_LEFT),
            kind / kinds::TEST_LEFT % 2,
            x,
            kind / kinds::TEST_RIGHT,
            y,
        ),
    }
}

// Whether test j holds.
fn holds_at(mem: &[u32], n: usize, j: usize) -> bool
    requires { Room mem.now n × Room mem.now (j + 1) }
    ensures { result ≡ holds_at mem.now n j }
{
    let kind = mem[layout::TESTS + layout::STRIDE * j];
    let x = mem[layout::TEST_LEFTS + layout::STRIDE * j];
    let y = mem[layout::TEST_RIGHTS + layout::STRIDE * j];
    holds_by(mem, n, kind, x, y)
}

// Whether free variable i is below its window's high end.
fn below(mem: &[u32], i: usize) -> bool
    requires { (i < 8) × (tables_place ≤ length mem.now) }
    ensures { result ≡ lt_z (value_at mem.now i) (window_at mem.now i).high }
{
    ints::signed(mem[layout::SETTING + i])
        < ints::signed(mem[layout::WINDOW_HIGHS + layout::WINDOW * i])
}

// Whether the window of free variable i has a number.
fn has_number(mem: &[u32], i: usize) -> bool
    requires { (i < 8) × (tables_place ≤ length mem.now) }
    ensures { result ≡ le_z (window_at mem.now i).low (window_at mem.now i).high }
{
    ints::signed(mem[layout::WINDOWS + layout::WINDOW * i])
        <= ints::signed(mem[layout::WINDOW_HIGHS + layout::WINDOW * i])
}

// Free variable i, which is below its window's high end, goes up by one.
fn raise(mem: &mut [u32], i: usize)
    requires { (i < 8) × (tables_place ≤ length mem.old) × T (lt_z (value_at mem.old i) (window_at mem.old i).high) }
    ensures { Wrote mem.old mem.new (value_place i) (suc_ℤ (value_at mem.old i)) }
{
    mem[layout::SETTING + i] = ints::word(ints::signed(mem[layout::SETTING + i]) + 1);
}

// Node j gets its number.
fn write_number(mem: &mut [u32], k: usize, j: usize)
    requires { (k ≤ 8) × Room mem.old (j + 1) }
    ensures { Wrote mem.old mem.new (number_place j) (number_at mem.old k j) }
{
    mem[layout::NUMBERS + layout::STRIDE * j] = ints::word(number_at(mem, k, j));
}

// The nodes from i to n get their numbers under the present setting of k free variables; those before have theirs.
fn work(mem: &mut [u32], i: usize, n: usize, k: usize)
    requires { (k ≤ 8) × Room mem.old n × Worked mem.old i k }
    ensures { Worked mem.new n k × Renumbered mem.old mem.new }
{
    for j in i..n {
        write_number(mem, k, j);
    }
}

// Whether the setting under which the nodes have their numbers meets the tests.
fn meets(mem: &[u32], n: usize, tests: usize) -> bool
    requires { Room mem.now n × Room mem.now tests }
    ensures { result ≡ meets_in (numbers_in mem.now n) (tests_in mem.now tests) }
{
    for j in (0..tests).rev() {
        if !holds_at(mem, n, j) {
            return false;
        }
    }
    true
}

// The free variables from i on start anew, each at its window's low end.
fn start_from(mem: &mut [u32], i: usize, k: usize)
    requires { (i ≤ k) × (k ≤ 8) × (tables_place ≤ length mem.old) }
    ensures { Anew mem.old mem.new i k }
{
    for j in i..k {
        mem[layout::SETTING + j] = mem[layout::WINDOWS + layout::WINDOW * j];
    }
}

// Whether there is a setting of k free variables: each window has a number.
fn filled(mem: &[u32], k: usize) -> bool
    requires { (k ≤ 8) × (tables_place ≤ length mem.now) }
    ensures { result ≡ filledS (windows_in mem.now k) }
{
    for i in 0..k {
        if !has_number(mem, i) {
            return false;
        }
    }
    true
}

// The first setting of k free variables.
fn first_setting(mem: &mut [u32], k: usize)
    requires { (k ≤ 8) × (tables_place ≤ length mem.old) }
    ensures { First mem.old mem.new k }
{
    start_from(mem, 0, k);
}

// The next setting of k free variables, if there is one: the last variable that is below its window's high end goes up by one, and those behind it start anew.
fn next_setting(mem: &mut [u32], k: usize) -> bool
    requires { (k ≤ 8) × (tables_place ≤ length mem.old) }
    ensures { Follows mem.old mem.new k result }
{
    for i in (0..k).rev() {
        if below(mem, i) {
            raise(mem, i);
            start_from(mem, i + 1, k);
            return true;
        }
    }
    false
}

// Whether node j is free variable i.
fn is_free(mem: &[u32], i: usize, j: usize) -> bool
    requires { Room mem.now (j + 1) }
    ensures { Decides result (node_at mem.now j ≡ unknown i) (NotFree i (node_at mem.now j)) }
{
    let kind = mem[layout::NODES + layout::STRIDE * j];
    let x = mem[layout::NODE_LEFTS + layout::STRIDE * j] as usize;
    kind % kinds::NODE_LEFT == kinds::FREE && x == i
}

// The first of n nodes that is free variable i; n, where none is.
// n and no Option where none is: then no node goes up in `rise`, since n is not before `first`.
fn free_node(mem: &[u32], i: usize, n: usize) -> usize
    requires { Room mem.now n }
    ensures { FreeNode mem.now i n result }
{
    for j in 0..n {
        if is_free(mem, i, j) {
            return j;
        }
    }
    n
}

// Whether a cell, by its two words, is node a.
fn names(kind: u32, x: u32, a: usize) -> bool
    ensures { result ≡ false → Off a (cell_read_as kind x) }
{
    kind != 0 && x as usize == a
}

// Whether node j may differ where node a, which lies before it, does: it is a free variable, or one of its sides is node a.
fn depends(mem: &[u32], a: usize, j: usize) -> bool
    requires { Room mem.now (j + 1) }
    ensures { result ≡ false → Clear a (node_at mem.now j) }
{
    let kind = mem[layout::NODES + layout::STRIDE * j];
    let x = mem[layout::NODE_LEFTS + layout::STRIDE * j];
    let y = mem[layout::NODE_RIGHTS + layout::STRIDE * j];
    kind % kinds::NODE_LEFT == kinds::FREE
        || names(kind / kinds::NODE_LEFT % 2, x, a)
        || names(kind / kinds::NODE_RIGHT, y, a)
}

// The first node behind node a, of n, that may differ where node a does; n, where none may.
// n and no Option where none may: then the nodes from there to the end are none.
fn first_behind(mem: &[u32], a: usize, n: usize) -> usize
    requires { Room mem.now n }
    ensures { FirstBehind mem.now a n result }
{
    if n <= a {
        return n;
    }
    for j in a + 1..n {
        if depends(mem, a, j) {
            return j;
        }
    }
    n
}

// Where the nodes end on which a cell rests, by its two words.
fn cell_end(kind: u32, x: u32) -> usize
    ensures { Within result (cell_read_as kind x) }
{
    if kind == 0 {
        return 0;
    }
    x as usize + 1
}

// Where the nodes end on which test j rests.
fn test_end(mem: &[u32], j: usize) -> usize
    requires { Room mem.now (j + 1) }
    ensures { Rests result (test_at mem.now j) }
{
    let kind = mem[layout::TESTS + layout::STRIDE * j];
    let x = mem[layout::TEST_LEFTS + layout::STRIDE * j];
    let y = mem[layout::TEST_RIGHTS + layout::STRIDE * j];
    cell_end(kind / kinds::TEST_LEFT % 2, x).max(cell_end(kind / kinds::TEST_RIGHT, y))
}

// Where the nodes, of n, end on which the tests rest, from the newest test back. Once that is the end of all, no further test is looked at: a path may have made hundreds, and its newest ones rest on its newest nodes.
fn tests_end(mem: &[u32], n: usize, tests: usize) -> usize
    requires { Room mem.now tests }
    ensures { Front mem.now n tests result }
{
    let mut end: usize = 0;
    for j in (0..tests).rev() {
        end = end.max(test_end(mem, j));
        if n <= end {
            return n;
        }
    }
    end
}

// What is worked for the settings of k free variables.
fn plan_of(mem: &[u32], nodes: usize, tests: usize, k: usize) -> Plan
    requires { Holding mem.now nodes tests k }
    ensures { Planned mem.now nodes tests (k - 1) result }
{
    let upto = tests_end(mem, nodes, tests);
    let moving = free_node(mem, k.saturating_sub(1), upto);
    let first = first_behind(mem, moving, upto);
    Plan {
        moving,
        first,
        upto,
    }
}

// Node a gets the number of free variable i.
fn copy_value(mem: &mut [u32], i: usize, a: usize)
    requires { (i < 8) × Room mem.old (a + 1) }
    ensures { Wrote mem.old mem.new (number_place a) (value_at mem.old i) }
{
    mem[layout::NUMBERS + layout::STRIDE * a] = mem[layout::SETTING + i];
}

// The last of k free variables goes up by one, and node a with it, if it is among those before `first`.
fn rise(mem: &mut [u32], a: usize, first: usize, k: usize)
    requires { Rising mem.old a first k }
    ensures { Rose mem.old mem.new first k }
{
    raise(mem, k - 1);
    if a < first {
        copy_value(mem, k - 1, a);
    }
}

// Whether the last of k free variables is below its window's high end.
fn can_rise(mem: &[u32], k: usize) -> bool
    requires { (k ≤ 8) × (tables_place ≤ length mem.now) }
    ensures { CanRise mem.now k result }
{
    0 < k && below(mem, k - 1)
}

// From the present setting on, as only the last free variable goes up, the first one that meets the tests, with so many moves at the most. The nodes before the first that then differs have their numbers.
fn sweep(mem: &mut [u32], plan: Plan, tests: usize, k: usize, most: u32) -> Swept
    requires { Holding mem.old plan.upto tests k × Apart mem.old (k - 1) plan.moving plan.first × (plan.first ≤ plan.upto) × Worked mem.old plan.first k }
    ensures { Sweeping mem.old mem.new plan.upto tests k most result × Steady mem.old mem.new }
{
    for left in (0..most).rev() {
        work(mem, plan.first, plan.upto, k);
        if meets(mem, plan.upto, tests) {
            return Swept::Here(left + 1);
        }
        if !can_rise(mem, k) {
            return Swept::Top(left);
        }
        rise(mem, plan.moving, plan.first, k);
    }
    Swept::Short
}

// From the present setting on, the first one that meets the tests, with so many moves at the most.
fn seek(mem: &mut [u32], plan: Plan, tests: usize, k: usize, most: u32) -> Sought
    requires { Holding mem.old plan.upto tests k × Apart mem.old (k - 1) plan.moving plan.first × (plan.first ≤ plan.upto) }
    ensures { Seeking mem.old mem.new plan.upto tests k most result × Steady mem.old mem.new }
{
    let mut left = most;
    // A budget, and no count: a sweep makes more than one move of it.
    while 0 < left {
        work(mem, 0, plan.first, k);
        match sweep(mem, plan, tests, k, left) {
            Swept::Here(n) => return Sought::Met(n),
            Swept::Top(n) => {
                if !next_setting(mem, k) {
                    return Sought::Over(n);
                }
                left = n;
            }
            Swept::Short => return Sought::Out,
        }
    }
    Sought::Out
}

// What a value is, where n nodes have their numbers.
fn result(mem: &[u32], n: usize, v: Value) -> i32
    requires { Room mem.now n }
    ensures { result ≡ number_in (numbers_in mem.now n) (cell_of v) }
{
    match v {
        Value::Known(z) => z,
        Value::Open(j) => {
            if j < n {
                return ints::signed(mem[layout::NUMBERS + layout::STRIDE * j]);
            }
            0
        }
    }
}

// Word j of the row that the present setting of k free variables gives with this result.
fn row_word(res: i32, mem: &[u32], k: usize, j: usize) -> i32
    requires { (k ≤ 8) × (tables_place ≤ length mem.now) × (j < 10) }
    ensures { result ≡ get_or (words_of (row_with res (setting_in mem.now k))) j (pos 0) }
{
    match j {
        0 => res,
        1 => k as i32,
        _ => value(mem, k, j - 2),
    }
}

// Writes a row after n others: the result, and the present setting of k free variables.
fn write_row(rows: &mut [i32], n: usize, res: i32, mem: &[u32], k: usize)
    requires { (k ≤ 8) × (tables_place ≤ length mem.now) × (10 * n + 10 ≤ length rows.old) }
    ensures { Written rows.old rows.new n (row_with res (setting_in mem.now k)) }
{
    for j in 0..10 {
        rows[10 * n + j] = row_word(res, mem, k, j);
    }
}

impl Tally {
    // One move more, which the budget allows.
    fn spend(self) -> Tally
        requires { (0 < self.budget) × (self.moves + self.budget < 4294967296) }
        ensures { result ≡ spending self }
    {
        Tally {
            budget: self.budget - 1,
            moves: self.moves + 1,
            ..self
        }
    }

    // One move more, or the budget is spent.
    pub fn charge(self) -> Result<Tally, Stopped>
        requires { self.moves + self.budget < 4294967296 }
        ensures { Charged self (λ rows. chargeS (tally_of rows self)) result }
    {
        if self.budget == 0 {
            return Err(Stopped::Spent(self));
        }
        Ok(self.spend())
    }

    // What was counted, where so many moves are left of the budget.
    pub fn leaving(self, left: u32) -> Tally
        requires { (left ≤ self.budget) × (self.moves + self.budget < 4294967296) }
        ensures { result ≡ leavingS self left }
    {
        Tally {
            budget: left,
            moves: self.moves + (self.budget - left),
            ..self
        }
    }

    // What was counted, where a cut run was found.
    fn with_cut(self) -> Tally
        ensures { result ≡ cutting self true }
    {
        Tally { cut: true, ..self }
    }
}

// A row found: it is skipped, or written, or has no place.
fn place(rows: &mut [i32], t: Tally, res: i32, mem: &[u32], k: usize) -> Result<Tally, Stopped>
    requires { (k ≤ 8) × (tables_place ≤ length mem.now) × (10 * (t.written + t.room) ≤ length rows.old) }
    ensures { Placing rows.old rows.new t (placeS (row_with res (setting_in mem.now k)) (tally_of rows.old t)) result }
{
    if 0 < t.skip {
        return Ok(Tally {
            skip: t.skip - 1,
            ..t
        });
    }
    if t.room == 0 {
        return Err(Stopped::Full(t));
    }
    write_row(rows, t.written, res, mem, k);
    Ok(Tally {
        room: t.room - 1,
        written: t.written + 1,
        ..t
    })
}

// A setting that meets the tests, at a return of v: its row. The nodes before `from` have their numbers.
fn found(
    mem: &mut [u32],
    from: usize,
    nodes: usize,
    k: usize,
    v: Value,
    t: Tally,
    rows: &mut [i32],
) -> Result<Tally, Stopped>
    requires { (k ≤ 8) × Room mem.old nodes × Worked mem.old from k × (10 * (t.written + t.room) ≤ length rows.old) }
    ensures { Placing rows.old rows.new t (placeS (row_with (under (setting_in mem.old k) (meaning (nodes_in mem.old nodes) (cell_of v))) (setting_in mem.old k)) (tally_of rows.old t)) result × Renumbered mem.old mem.new }
{
    work(mem, from, nodes, k);
    place(rows, t, result(mem, nodes, v), mem, k)
}

// All settings of k free variables in their windows tried at a return.
// Three numbers and no struct: they are a point's, and `seek` takes the plan's end in place of the first.
pub fn trials(
    mem: &mut [u32],
    nodes: usize,
    tests: usize,
    k: usize,
    v: Value,
    t: Tally,
    rows: &mut [i32],
) -> Result<Tally, Stopped>
    requires { Holding mem.old nodes tests k × Fair (length rows.old) t }
    ensures { AllTrials mem.old mem.new nodes tests k v rows.old rows.new t result }
{
    if !filled(mem, k) {
        return Ok(t);
    }
    first_setting(mem, k);
    let p = plan_of(mem, nodes, tests, k);
    let mut u = t;
    loop {
        match seek(mem, p, tests, k, u.budget) {
            Sought::Met(left) => {
                u = found(mem, p.upto, nodes, k, v, u.leaving(left - 1), rows)?;
                if !next_setting(mem, k) {
                    return Ok(u);
                }
            }
            Sought::Over(left) => return Ok(u.leaving(left)),
            Sought::Out => return Err(Stopped::Spent(u.leaving(0))),
        }
    }
}

// Settings of k free variables in their windows tried at a cut, until one meets the tests; none, where a cut run was found before.
pub fn probes(
    mem: &mut [u32],
    nodes: usize,
    tests: usize,
    k: usize,
    t: Tally,
) -> Result<Tally, Stopped>
    requires { Holding mem.old nodes tests k × (t.moves + t.budget < 4294967296) }
    ensures { AllProbes mem.old mem.new nodes tests k t result }
{
    if t.cut || !filled(mem, k) {
        return Ok(t);
    }
    first_setting(mem, k);
    let p = plan_of(mem, nodes, tests, k);
    match seek(mem, p, tests, k, t.budget) {
        Sought::Met(left) => Ok(t.leaving(left - 1).with_cut()),
        Sought::Over(left) => Ok(t.leaving(left)),
        Sought::Out => Err(Stopped::Spent(t.leaving(0))),
    }
}
