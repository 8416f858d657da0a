//! The bytes that stand for themselves in a spelled byte string.
ghost use Rattle.std.specs.Prelude.{◌≡◌, not, position};
ghost use Rattle.script_words.specs.Words.{is_plain, HasPlainFront};

/// Whether a byte stands for itself.
pub fn is_itself(byte: u8) -> bool
    ensures { result ≡ is_plain byte }
{
    byte.is_ascii_alphanumeric() || byte == b'_' || byte == b'.'
}

// Where the first byte stands that doesn't stand for itself.
fn place_of_other(bytes: &[u8]) -> Option<usize>
    ensures { result ≡ position (λ b. not (is_plain b)) bytes.now }
{
    bytes.iter().position(|byte| !is_itself(*byte))
}

/// The bytes before the first that doesn't stand for itself, and those from it on.
pub fn split_plain(bytes: &[u8]) -> (&[u8], &[u8])
    ensures { HasPlainFront bytes.now result.0.now result.1.now }
{
    match place_of_other(bytes) {
        None => (bytes, &[]),
        Some(place) => bytes.split_at(place),
    }
}
