// What breaks a rule.
ghost use Rattle.std.specs.Prelude.{◌≡◌};
ghost use Rattle.text_rules.specs.Scan as S;

// The lesser of the token i and what was found before.
#[tactic(auto, unfolding(crate::specs::Scan::lesser))]
pub fn lesser(i: usize, best: Option<usize>) -> Option<usize>
    ensures { result ≡ S.lesser i best }
{
    match best {
        Some(j) => Some(i.min(j)),
        None => Some(i),
    }
}
