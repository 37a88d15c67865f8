// Which cells of a frame a code uses.
ghost use Rattle.std.specs.Prelude.{◌≤◌, List, ℕ, map};
ghost use Rattle.simulation.specs.Cells.{Fills, Uses};
ghost use Rattle.machine.specs.Layout.{frame_cells};
ghost use Rattle.code.specs.Meaning.{as_entry};

use code::Entry;
use machine::layout;

// How many cells an entry may put values into, up to the last of them.
fn filled(entry: Entry) -> usize
    ensures { (result ≤ frame_cells) × Fills result (as_entry entry) }
{
    match entry {
        Entry::Call { count, .. } => count.min(layout::CELLS),
        Entry::Ask(a) | Entry::Own(a) | Entry::Store(a) => a.0 % layout::CELLS + 1,
        _ => 0,
    }
}

// How many cells of a frame a code with these entries uses, wherever its functions begin.
pub fn in_use(entries: &[Entry]) -> usize
    ensures { ((starts : List ℕ) → Uses (record { entries = map as_entry entries.now; starts = starts }) result) × (result ≤ frame_cells) }
{
    let mut n: usize = 0;
    for &entry in entries {
        n = n.max(filled(entry));
    }
    n
}
