ghost use Rattle.std.specs.Prelude.{◌≡◌, ◌⊎◌, ◌<◌, ◌≤◌, ◌+◌, [], ◌∷◌, ◌++◌, ◌==◌, not, length, IsTrue};
ghost use Rattle.std.specs.List.{list_all, prefix_len};
ghost use Rattle.unit_tree.specs.Lines.{lines_of, size_of};

/// The byte that ends a line.
const LINE_END: u8 = b'\n';

/// How many bytes come before the first line's end, or before the text's.
fn line_length(text: &[u8]) -> usize
    ensures length { result ≡ prefix_len (λ byte. not (byte == 10)) text.now }
    ensures within { result ≤ length text.now }
{
    text.iter().take_while(|byte| **byte != LINE_END).count()
}

/// The first line, without its end, and the text after it. Where the text has no line feed, the line is all of it and
/// nothing follows.
#[tactic(auto, using(crate::proofs::LineLemmas::line_laws))]
pub fn cut_line(text: &[u8]) -> (&[u8], &[u8])
    requires { 0 < length text.now }
    ensures cut { lines_of text.now ≡ result.0.now ∷ lines_of result.1.now }
    ensures one_line { IsTrue (list_all (λ byte. not (byte == 10)) result.0.now) }
    ensures behind { (text.now ≡ result.0.now ++ 10 ∷ result.1.now) ⊎ ((text.now ≡ result.0.now) × (result.1.now ≡ [])) }
    ensures shorter { length result.1.now < length text.now }
{
    let length = line_length(text);
    let (line, behind) = text.split_at(length);
    if behind.is_empty() {
        (line, behind)
    } else {
        (line, text.split_at(length + 1).1)
    }
}

/// How many bytes the text has, where each line counts a line end, also a last line without one.
#[tactic(auto, using(crate::proofs::LineLemmas::size_of_snoc))]
pub fn size(text: &[u8]) -> usize
    ensures { result ≡ size_of text.now }
{
    match text.split_last() {
        Some((&last, _)) if last != LINE_END => text.len() + 1,
        _ => text.len(),
    }
}
