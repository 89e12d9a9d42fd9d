// What stands between spaces.
ghost use Rattle.std.specs.Prelude.{◌≡◌, ◌+◌, drop};
ghost use Rattle.tokens.specs.Pieces.{piece_length};

// The place of the first space from a place on, or of the text's end.
pub fn piece_end(text: &[u8], from: usize) -> usize
    ensures { result ≡ from + piece_length (drop from text.now) }
{
    for at in from..text.len() {
        if text[at] == b' ' {
            return at;
        }
    }
    from.max(text.len())
}
