//! What the words of a call ask for.
ghost use Rattle.std.specs.Prelude.{◌≡◌, ◌↔◌, codes, map, string_bytes};
ghost use Rattle.nova_engine.specs.Call.{AsksInit, AsksRun};

/// What the words ask for.
pub enum Call {
    Init,
    Run,
    Other,
}

/// The call that a word asks for.
fn call_of_word(word: &str) -> Call
    ensures init { result ≡ Call.Init ↔ (word.now ≡ codes "init") }
    ensures run { result ≡ Call.Run ↔ (word.now ≡ codes "run") }
{
    match word {
        "init" => Call::Init,
        "run" => Call::Run,
        _ => Call::Other,
    }
}

/// The call that the words ask for.
pub fn call_of(words: &[String]) -> Call
    ensures init { (result ≡ Call.Init → AsksInit (map string_bytes words.now)) × (AsksInit (map string_bytes words.now) → result ≡ Call.Init) }
    ensures run { (result ≡ Call.Run → AsksRun (map string_bytes words.now)) × (AsksRun (map string_bytes words.now) → result ≡ Call.Run) }
{
    match words {
        [word] => call_of_word(word.as_str()),
        _ => Call::Other,
    }
}
