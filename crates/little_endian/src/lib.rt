// Numbers as bytes, least byte first: words of 4 bytes and values of 8, from bytes and back.
#![tactic(auto)]

ghost use Rattle.std.specs.Prelude.{◌≡◌, ◌+◌, ◌*◌, ◌≤◌, length, take, drop};
ghost use Rattle.std.proofs.lemmas.List.Edits.{sets};
ghost use Rattle.little_endian.specs.Numbers.{little_endian, numbers, bytes_of, bytes_of_words};

// The word of the four bytes at a place.
pub fn word_at(bytes: &[u8], at: usize) -> u32
    requires { at + 4 ≤ length bytes.now }
    ensures { result ≡ little_endian (take 4 (drop at bytes.now)) }
{
    u32::from_le_bytes(*bytes[at..].first_chunk().unwrap())
}

// The value of the eight bytes at a place.
pub fn value_at(bytes: &[u8], at: usize) -> u64
    requires { at + 8 ≤ length bytes.now }
    ensures { result ≡ little_endian (take 8 (drop at bytes.now)) }
{
    u64::from_le_bytes(*bytes[at..].first_chunk().unwrap())
}

// The words of the bytes, as many as there is room for.
pub fn unpack_words(bytes: &[u8], words: &mut [u32])
    requires { 4 * length words.old ≤ length bytes.now }
    ensures { words.new ≡ numbers 4 (length words.old) bytes.now }
{
    for (i, word) in words.iter_mut().enumerate() {
        *word = word_at(bytes, 4 * i);
    }
}

// The values of the bytes from a place on, as many as there is room for. One function for words and values would take a trait with the type's size, how
// it is read and what a clause says of it, for these three lines.
pub fn unpack_values(bytes: &[u8], from: usize, values: &mut [u64])
    requires { from + 8 * length values.old ≤ length bytes.now }
    ensures { values.new ≡ numbers 8 (length values.old) (drop from bytes.now) }
{
    for (i, value) in values.iter_mut().enumerate() {
        *value = value_at(bytes, from + 8 * i);
    }
}

// A value's eight bytes are written at a place.
pub fn put_value(bytes: &mut [u8], at: usize, value: u64)
    requires { at + 8 ≤ length bytes.old }
    ensures { bytes.new ≡ sets bytes.old at (bytes_of 8 value) }
{
    bytes[at..at + 8].copy_from_slice(&value.to_le_bytes());
}

// The bytes become those of the values.
pub fn pack_values(values: &[u64], bytes: &mut [u8])
    requires { length bytes.old ≡ 8 * length values.now }
    ensures { bytes.new ≡ bytes_of_words values.now }
{
    for (i, value) in values.iter().enumerate() {
        put_value(bytes, 8 * i, *value);
    }
}
