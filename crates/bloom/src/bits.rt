// Bits of a byte string, by their index.
ghost use Rattle.std.specs.Prelude.{◌≡◌, ◌⊎◌, ◌↔◌, ◌*◌, ◌<◌, ℕ, length, IsTrue};
ghost use Rattle.bloom.specs.Filters.{HasBit};

/// The number of bits in the bytes.
pub fn bits_of(bytes: &[u8]) -> u128
    ensures { result ≡ 8 * length bytes.now }
{
    bytes.len() as u128 * 8
}

/// Whether bit `place` is set.
pub fn has_bit(bytes: &[u8], place: u128) -> bool
    requires { place < 8 * length bytes.now }
    ensures { IsTrue result ↔ HasBit bytes.now place }
{
    bytes[(place / 8) as usize] & (1 << (place % 8)) != 0
}

/// Sets bit `place`, and no other.
pub fn set_bit(bytes: &mut [u8], place: u128)
    requires { place < 8 * length bytes.old }
    ensures len { length bytes.new ≡ length bytes.old }
    ensures set { (p : ℕ) → p < 8 * length bytes.old →
        HasBit bytes.new p ↔ (HasBit bytes.old p ⊎ (p ≡ place)) }
{
    bytes[(place / 8) as usize] |= 1 << (place % 8);
}
