// A bit of the image, and numbers of two and of four bytes.
ghost use Rattle.std.specs.Prelude.{◌≡◌, ◌+◌, ◌^◌, ◌≤◌, ◌<◌, length, get_or, set, take, drop};
ghost use Rattle.std.proofs.lemmas.List.Edits.{sets};
ghost use Rattle.words.specs.Bits.{bit, with_bit};
ghost use Rattle.words.specs.Words.{little_endian, bytes_of};

pub fn get_bit(image: &[u8], at: usize, k: u32) -> u32
    requires { (at < length image.now) × (k < 8) }
    ensures { (result ≡ bit (get_or image.now at 0) k) × (result < 2) }
{
    words::bit(image[at], k as usize) as u32
}

// The number of N bytes, the least first.
pub fn get<const N: usize>(image: &[u8], at: usize) -> u32
    requires { (N ≤ 4) × (at + N ≤ length image.now) }
    ensures value { result ≡ little_endian (take N (drop at image.now)) }
    ensures bound { result < 256 ^ N }
{
    let mut word = [0; 4];
    word[..N].copy_from_slice(&image[at..at + N]);
    u32::from_le_bytes(word)
}

pub fn put_bit(image: &mut [u8], at: usize, k: u32, n: u32)
    requires { (at < length image.old) × (k < 8) × (n < 2) }
    ensures { image.new ≡ set image.old at (with_bit (get_or image.old at 0) k n) }
{
    image[at] = words::with_bit(image[at], k as usize, n != 0);
}

// The N lowest bytes of a number, the least first.
pub fn put<const N: usize>(image: &mut [u8], at: usize, n: u32)
    requires { (N ≤ 4) × (at + N ≤ length image.old) }
    ensures { image.new ≡ sets image.old at (bytes_of N n) }
{
    let word = n.to_le_bytes();
    image[at..at + N].copy_from_slice(&word[..N]);
}
