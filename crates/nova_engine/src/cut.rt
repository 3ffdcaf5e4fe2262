//! Bytes, cut into lines.
ghost use Rattle.std.specs.Prelude.{◌≡◌, ◌≢◌, ◌<◌, ◌≤◌, ℕ, length, slice_index, MatchOption, false};
ghost use Rattle.nova_value.specs.Text.{has_newline};
ghost use Rattle.nova_engine.specs.Positions.{IsNextLine};

/// How many bytes stand before the first newline.
fn line_length(bytes: &[u8]) -> usize
    ensures within { result ≤ length bytes.now }
    ensures before { (k : ℕ) → k < result → slice_index bytes.now k ≢ 10 }
    ensures end { result < length bytes.now → slice_index bytes.now result ≡ 10 }
{
    bytes
        .iter()
        .position(|b| *b == b'\n')
        .unwrap_or(bytes.len())
}

/// The first line that a newline ends, and what follows it.
pub fn next_line(bytes: &[u8]) -> Option<(&[u8], &[u8])>
    ensures { MatchOption result (has_newline bytes.now ≡ false) (λ p. IsNextLine bytes.now p.0.now p.1.now) }
{
    let length = line_length(bytes);
    if length == bytes.len() {
        return None;
    }
    Some((&bytes[..length], &bytes[length + 1..]))
}
