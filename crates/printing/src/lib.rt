// Bytes and numbers written into a lent slice, one after the other. What lies past the slice's end is counted and not written.
#![tactic(auto)]

ghost use Rattle.std.specs.Prelude.{[], ◌∷◌, ◌≡◌, ◌+◌, ◌<◌};
ghost use Rattle.printing.specs.Decimal.{natural, integer};
ghost use Rattle.printing.specs.Written.{blanks, Put};

pub fn put_byte(out: &mut [u8], at: usize, b: u8) -> usize
    ensures { Put out.old at (b ∷ []) out.new result }
{
    if at < out.len() {
        out[at] = b;
    }
    at.saturating_add(1)
}

pub fn put_bytes(out: &mut [u8], at: usize, word: &[u8]) -> usize
    ensures { Put out.old at word.now out.new result }
{
    let mut p = at;
    for &b in word {
        p = put_byte(out, p, b);
    }
    p
}

pub fn put_blanks(out: &mut [u8], at: usize, n: usize) -> usize
    ensures { Put out.old at (blanks n) out.new result }
{
    let mut p = at;
    for _ in 0..n {
        p = put_byte(out, p, b' ');
    }
    p
}

fn digit(n: u32) -> u8
    requires { n < 10 }
    ensures { result ≡ 48 + n }
{
    b'0' + (n as u8)
}

// A number in decimal.
// By hand and not by `write!`: what lies past the slice's end is counted too.
pub fn put_natural(out: &mut [u8], at: usize, n: u32) -> usize
    ensures { Put out.old at (natural n) out.new result }
{
    if n < 10 {
        return put_byte(out, at, digit(n));
    }
    let p = put_natural(out, at, n / 10);
    put_byte(out, p, digit(n % 10))
}

// A number in decimal.
pub fn put_integer(out: &mut [u8], at: usize, z: i32) -> usize
    ensures { Put out.old at (integer z) out.new result }
{
    if z < 0 {
        let p = put_bytes(out, at, b"-");
        return put_natural(out, p, z.unsigned_abs());
    }
    put_natural(out, at, z.unsigned_abs())
}
