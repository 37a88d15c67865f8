// The search: path after path, up to its answer.
#![tactic(auto)]

ghost use Rattle.std.specs.Prelude.{◌≡◌, List, ◌+◌, ◌*◌, ◌<◌, ◌≤◌, ◌/◌, length, ℤ, Ok};
ghost use Rattle.simulation.specs.Path as path;
ghost use Rattle.simulation.specs.Lister.{closing};
ghost use Rattle.intervals.specs.Meaning.{Filled, of_window};
ghost use Rattle.machine.specs.Terms.{Room, meant};
ghost use Rattle.settings.specs.Tries.{Fair};
ghost use Rattle.paths.specs.Point.{Standing};
ghost use Rattle.walks.specs.Walk.{Begins, end_of};
ghost use Rattle.search.specs.Loop.{NewestBack, close_of, closes, stopping, Backed, Finished, Round, ahead, Resumes, Lists};

use code::Code;
use intervals::Window;
use machine::{Value, layout};
use paths::Point;
use settings::{Stopped, Tally};
use walks::{End, Stack};

// How the search closes: it has ended, without a cut run or with one; a row has no place; or the budget is spent.
#[derive(Clone, Copy, PartialEq, Eq, Debug)]
pub enum Ending {
    Whole,
    Cuts,
    Full,
    Spent,
}

// The answer: the rows written, the moves made, and how the search closed.
#[derive(Drop)]
pub struct Answered {
    pub written: usize,
    pub moves: u32,
    pub ending: Ending,
}

impl From<Stopped> for Answered {
    ghost from_gives = { λ e a. a ≡ stopping e };

    fn from(e: Stopped) -> Answered {
        match e {
            Stopped::Full(t) => close(t, Ending::Full),
            Stopped::Spent(t) => close(t, Ending::Spent),
        }
    }
}

// The next path: how many outcomes are forced on it, the checkpoints before it, and what has been counted.
#[derive(Drop)]
pub struct Next {
    pub forced: usize,
    pub stack: Stack,
    pub tally: Tally,
}

// Takes back the newest choice that went true, of n: it goes false, and those after it are dropped. The outcomes up to it are forced on the next path, by their count; there is no next path where none went true.
fn take_back(mem: &mut [u32], n: usize) -> Option<usize>
    requires { Room mem.old n }
    ensures { NewestBack mem.old mem.new n result }
{
    for i in (0..n).rev() {
        let place = layout::OUTCOMES + layout::STRIDE * i;
        if mem[place] != 0 {
            mem[place] = 0;
            return Some(i + 1);
        }
    }
    None
}

// The answer, where so much was counted.
fn close(t: Tally, ending: Ending) -> Answered
    ensures { result ≡ closes t ending }
{
    Answered {
        written: t.written,
        moves: t.moves,
        ending,
    }
}

// How a search closes that has ended.
fn ended(cut: bool) -> Ending
    ensures { close_of result ≡ closing cut }
{
    if cut { Ending::Cuts } else { Ending::Whole }
}

// With no choice left the search has ended; else the newest is taken back, which is a move.
fn go_back(mem: &mut [u32], n: usize, t: Tally) -> Result<(usize, Tally), Answered>
    requires { Room mem.old n × (t.moves + t.budget < 4294967296) }
    ensures { Backed mem.old mem.new n (Ok t) result }
{
    let Some(forced) = take_back(mem, n) else {
        let ending = ended(t.cut);
        return Err(close(t, ending));
    };
    let charged = t.charge()?;
    Ok((forced, charged))
}

// At a return: the settings are tried, then the way to the next path.
fn at_return(
    mem: &mut [u32],
    p: Point,
    v: Value,
    t: Tally,
    rows: &mut [i32],
) -> Result<(usize, Tally), Answered>
    requires { Standing mem.old p × Room mem.old p.choices × Fair (length rows.old) t }
    ensures { Finished mem.old mem.new rows.old rows.new (path.returned (meant mem.old p.run.nodes v)) p t result }
{
    let u = settings::trials(mem, p.run.nodes, p.choices, p.windows, v, t, rows)?;
    go_back(mem, p.choices, u)
}

// At a cut: settings are tried until one meets the tests, then the way to the next path.
fn at_cut(mem: &mut [u32], p: Point, t: Tally) -> Result<(usize, Tally), Answered>
    requires { Standing mem.old p × Room mem.old p.choices × (t.moves + t.budget < 4294967296) }
    ensures { (rows : List ℤ) → Finished mem.old mem.new rows rows path.cut p t result }
{
    let u = settings::probes(mem, p.run.nodes, p.choices, p.windows, t)?;
    go_back(mem, p.choices, u)
}

// At a path's end.
fn finish(
    mem: &mut [u32],
    end: End,
    p: Point,
    t: Tally,
    rows: &mut [i32],
) -> Result<(usize, Tally), Answered>
    requires { Standing mem.old p × Room mem.old p.choices × Fair (length rows.old) t }
    ensures { Finished mem.old mem.new rows.old rows.new (end_of mem.old p end) p t result }
{
    match end {
        End::Returned(v) => at_return(mem, p, v, t, rows),
        End::Failed => go_back(mem, p.choices, t),
        End::Cut => at_cut(mem, p, t),
    }
}

// One path, and what is done at its end: another path follows, or the search is over.
fn round(
    code: &Code,
    mem: &mut [u32],
    job: Window,
    path: Next,
    rows: &mut [i32],
) -> Result<Next, Answered>
    requires { Begins code.now (of_window job) mem.old path.forced path.stack × Filled (of_window job) × Fair (length rows.old) path.tally }
    ensures { Round code.now (of_window job) path.stack.limit mem.old mem.new rows.old rows.new path.forced path.tally (ahead result) × Resumes code.now (of_window job) mem.new path.stack.limit result }
{
    let Next {
        forced,
        stack,
        tally,
    } = path;
    let Some(ended) = walks::run_path(code, mem, job, stack, forced, tally.budget) else {
        return Err(close(tally.leaving(0), Ending::Spent));
    };
    let paid = tally.leaving(ended.left);
    let (forced, tally) = finish(mem, ended.end, ended.point, paid, rows)?;
    Ok(Next {
        forced,
        stack: ended.stack,
        tally,
    })
}

// The whole search, path after path, on a job's program, window and step limit: its rows are written from the start of the slice.
// `Filled` stands in clauses and not in the type: a `Window` may be empty, and its functions take such a one too.
pub fn run(
    code: &Code,
    mem: &mut [u32],
    job: Window,
    limit: usize,
    skip: u32,
    budget: u32,
    rows: &mut [i32],
) -> Answered
    requires { Room mem.old (limit + 1) × Filled (of_window job) }
    ensures { Lists code.now (of_window job) limit skip (length rows.old / 10) budget rows.old rows.new result }
{
    let mut path = Next {
        forced: 0,
        stack: Stack {
            height: 0,
            limit,
            cells: walks::cells::in_use(code.entries()),
        },
        tally: Tally {
            budget,
            skip,
            room: rows.len() / 10,
            written: 0,
            moves: 0,
            cut: false,
        },
    };
    loop {
        match round(code, mem, job, path, rows) {
            Ok(next) => path = next,
            Err(answered) => return answered,
        }
    }
}
