// The windows of a path in memory: eight pairs, two words each. Eight pairs by value: this form is named for this place.
#![tactic(auto)]

ghost use Rattle.std.specs.Prelude.{◌≡◌, ◌+◌, ◌<◌, ◌≤◌, length};
ghost use Rattle.window_memory.specs.Memory.{pair_at, pairs_at, put_pair, put_pairs};

// A pair in memory: the words at a place and after it.
fn pair_at(mem: &[u32], at: usize) -> [i32; 2]
    requires { at + 1 < length mem.now }
    ensures { result ≡ pair_at mem.now at }
{
    [ints::signed(mem[at]), ints::signed(mem[at + 1])]
}

// The windows of a path, from the sixteen words at a place.
// A literal and no loop: a loop would start from eight pairs that are none of the path's.
pub fn load(mem: &[u32], at: usize) -> [[i32; 2]; 8]
    requires { at + 16 ≤ length mem.now }
    ensures { result ≡ pairs_at mem.now at 8 }
{
    [
        pair_at(mem, at),
        pair_at(mem, at + 2),
        pair_at(mem, at + 4),
        pair_at(mem, at + 6),
        pair_at(mem, at + 8),
        pair_at(mem, at + 10),
        pair_at(mem, at + 12),
        pair_at(mem, at + 14),
    ]
}

fn put_pair(mem: &mut [u32], at: usize, p: [i32; 2])
    requires { at + 1 < length mem.old }
    ensures { mem.new ≡ put_pair mem.old at p }
{
    mem[at] = ints::word(p[0]);
    mem[at + 1] = ints::word(p[1]);
}

// The windows of a path, into the sixteen words at a place.
pub fn put(mem: &mut [u32], at: usize, ws: [[i32; 2]; 8])
    requires { at + 16 ≤ length mem.old }
    ensures { mem.new ≡ put_pairs mem.old at ws }
{
    for (i, p) in ws.iter().enumerate() {
        put_pair(mem, at + 2 * i, *p);
    }
}
