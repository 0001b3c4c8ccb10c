//! Bytes cut at a separator.
ghost use Rattle.std.specs.Prelude.{◌≡◌, ◌==◌, ◌<◌, [], ◌∷◌, length, MatchOption};
ghost use Rattle.std.specs.List.{position};
ghost use Rattle.room_entry.specs.Pieces.{pieces};

/// What stands before the first separator and what stands after it, or nothing where there is
/// none.
pub fn cut<'a>(bytes: &'a [u8], separator: &u8) -> Option<(&'a [u8], &'a [u8])>
    ensures { MatchOption result (pieces separator.now bytes.now ≡ bytes.now ∷ []) (λ parts.
        (pieces separator.now bytes.now ≡ parts.0.now ∷ pieces separator.now parts.1.now)
        × (length parts.1.now < length bytes.now)) }
{
    match place_of(bytes, separator) {
        None => None,
        Some(place) => Some((&bytes[..place], &bytes[place + 1..])),
    }
}

// Where the separator first stands.
fn place_of(bytes: &[u8], separator: &u8) -> Option<usize>
    ensures { result ≡ position (λ byte. byte == separator.now) bytes.now }
{
    bytes.iter().position(|byte| byte == separator)
}
