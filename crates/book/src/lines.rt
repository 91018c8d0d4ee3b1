//! The lines of a text, one after another.
ghost use Rattle.std.specs.Prelude.{◌≡◌, ℕ, ◌<◌, ◌≤◌, [], length, MatchOption, ◌≢◌, slice_index};
ghost use Rattle.book.specs.Lines.{FirstLine, OneSplit, newline};

/// The first line of a text, without the byte 10 that ends it, and the text after that byte. An empty
/// text has no line.
#[tactic(auto, using(crate::proofs::Texts::one_split))]
pub fn first_line(text: &[u8]) -> Option<(&[u8], &[u8])>
    ensures once { OneSplit }
    ensures cases { MatchOption result (text.now ≡ []) (λ p. FirstLine text.now p.0.now p.1.now) }
{
    if text.is_empty() {
        return None;
    }
    let end = line_end(text);
    if end < text.len() {
        Some((&text[0..end], &text[end + 1..]))
    } else {
        Some((text, &[]))
    }
}

// Where the first line of a text ends: at the first byte 10, or where the text does.
fn line_end(text: &[u8]) -> usize
    ensures within { result ≤ length text.now }
    ensures before { (k : ℕ) → k < result → slice_index text.now k ≢ newline }
    ensures found { result < length text.now → slice_index text.now result ≡ newline }
{
    text.iter()
        .position(|byte| *byte == b'\n')
        .unwrap_or(text.len())
}
