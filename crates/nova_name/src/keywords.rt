//! The keywords of scripts, which name no column.
ghost use Rattle.std.specs.Prelude.{◌≡◌, map};
ghost use Rattle.nova_name.specs.Keywords as spec;

/// The keywords of scripts.
const KEYWORDS: [&[u8]; 18] = [
    b"AND",
    b"AS",
    b"BY",
    b"DISTINCT",
    b"FILTER",
    b"FLATTEN",
    b"FOREACH",
    b"GENERATE",
    b"GROUP",
    b"INTO",
    b"IS",
    b"JOIN",
    b"LOAD",
    b"NOT",
    b"NULL",
    b"OR",
    b"STORE",
    b"UNION",
];

/// Whether both are the same text in any case.
#[tactic(auto, unfolding(crate::specs::Keywords::same_in_any_case))]
fn same_in_any_case(a: &[u8], b: &[u8]) -> bool
    ensures { result ≡ spec.same_in_any_case a.now b.now }
{
    a.eq_ignore_ascii_case(b)
}

/// Whether a text is one of these words, in any case.
fn is_any_of(words: &[&[u8]], text: &[u8]) -> bool
    ensures { result ≡ spec.is_any_of (map (λ w. w.now) words.now) text.now }
{
    for word in words {
        if same_in_any_case(word, text) {
            return true;
        }
    }
    false
}

/// Whether a text is a keyword of scripts, in any case.
pub fn is_keyword(text: &[u8]) -> bool
    ensures { result ≡ spec.is_keyword text.now }
{
    is_any_of(&KEYWORDS, text)
}
