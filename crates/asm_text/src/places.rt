//! Tables of names.

ghost use Rattle.std.specs.Prelude.{◌≡◌, ◌<◌, IfSome, map, length};
ghost use Rattle.asm_text.specs.Places.{place_in};

/// The place of a text in a table of names, from 0.
pub fn find_place(text: &[u8], names: &[&str]) -> Option<usize>
    ensures place { result ≡ place_in text.now (map (λ name. name.now) names.now) }
    ensures within { IfSome result (λ place. place < length names.now) }
{
    for (place, name) in names.iter().enumerate() {
        if name.as_bytes() == text {
            return Some(place);
        }
    }
    None
}
