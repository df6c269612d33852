// The quantifier descent: fixes one variable and calls itself with one letter fewer.
#![tactic(auto)]

ghost use Rattle.std.specs.Prelude.{◌≡◌, map};
ghost use Rattle.meaning.specs.Tree.{letter_of};
ghost use Rattle.descent.specs.Descent.{descended, DescentReady};

// Whether the sentence holds by the letters that are left, yes for `E`, where the variables before them have the states whose number is
// base.
pub fn holds_from(letters: &[bool], states: usize, base: usize, layer: &[u64]) -> bool
    requires { DescentReady letters.now states base layer.now }
    ensures { result ≡ descended states (map letter_of letters.now) base layer.now }
{
    match letters {
        [] => layer[base] != 0,
        [exists, rest @ ..] => {
            for s in 0..states {
                if holds_from(rest, states, base * states + s, layer) == *exists {
                    return *exists;
                }
            }
            !*exists
        }
    }
}
