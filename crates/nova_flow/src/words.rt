//! Words of the texts of a workflow.
ghost use Rattle.std.specs.Prelude.{◌≡◌, option_map};
ghost use Rattle.nova_name.specs.Keywords as keywords;
ghost use Rattle.nova_flow.specs.Words as spec;

use nova_name::is_name;
use nova_value::{Kind, Name};

/// Whether both are the same text.
pub(crate) fn same_text(a: &str, b: &str) -> bool
    ensures { result ≡ keywords.same_text a.now b.now }
{
    a == b
}

/// The name that a fault keeps: the text, or `?` where it is no name.
pub(crate) fn kept(text: &str) -> Name
    ensures { result ≡ spec.kept text.now }
{
    if is_name(text.as_bytes()) {
        Name::new(text)
    } else {
        Name::new("?")
    }
}

/// Whether a text holds no space.
fn is_spaceless(text: &[u8]) -> bool
    ensures { result ≡ spec.is_spaceless text.now }
{
    for b in text {
        if *b == b' ' {
            return false;
        }
    }
    true
}

/// Whether a text isn't empty and holds no space.
fn is_word(text: &str) -> bool
    ensures { result ≡ spec.is_word text.now }
{
    !text.is_empty() && is_spaceless(text.as_bytes())
}

/// The two words of a text that is two words parted by one space.
pub(crate) fn two_words(text: &str) -> Option<(&str, &str)>
    ensures { option_map (λ p. (p.0.now, p.1.now)) result ≡ spec.two_words text.now }
{
    match text.split_once(' ') {
        Some((first, second)) => {
            if is_word(first) && is_word(second) {
                Some((first, second))
            } else {
                None
            }
        }
        None => None,
    }
}

/// The kind of a column that a word names.
pub(crate) fn kind_of(word: &str) -> Option<Kind>
    ensures { result ≡ spec.kind_of word.now }
{
    match word {
        "long" => Some(Kind::Long),
        "int" => Some(Kind::Long),
        "chararray" => Some(Kind::Text),
        _ => None,
    }
}
