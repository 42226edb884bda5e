// The old image and the new one: the conversions, and what corresponds.
#![tactic(auto)]

ghost use Rattle.std.specs.Prelude.{◌≡◌, ◌++◌, ◌+◌, ◌*◌, ◌/◌, ◌%◌, ◌≤◌, length, get_or, take, drop};
ghost use Rattle.words.specs.Bits.{bit};
ghost use Rattle.memory.specs.Layout.{image_size};
ghost use Rattle.images.specs.Bytewise.{old_size};
ghost use Rattle.images.specs.Conversions.{truth_of, row, byte_of, conversion_answer, packed_into, unpacked_into};

use memory::IMAGE_SIZE;

pub const OLD_SIZE: usize = 3204;

// The bytes of X and C: in the old image one a bit, in the new one eight bits each.
const OLD_BITS: usize = 128;

const BITS: usize = 16;

// Any byte but 0 is on.
fn truth(byte: u8) -> u8
    ensures { result ≡ truth_of byte }
{
    u8::from(byte != 0)
}

// The byte of eight bits, the first lowest.
fn byte_of(old: &[u8], at: usize) -> u8
    requires { at + 8 ≤ length old.now }
    ensures { result ≡ byte_of old.now at 8 }
{
    let mut byte: u8 = 0;
    for k in (0..8).rev() {
        byte = byte * 2 + truth(old[at + k]);
    }
    byte
}

fn pack_bits(old: &[u8], image: &mut [u8])
    requires { (length old.now ≡ old_size) × (length image.old ≡ image_size) }
    ensures { image.new ≡ row (λ k. byte_of old.now (8 * k) 8) 0 16 ++ drop 16 image.old }
{
    for k in 0..BITS {
        image[k] = byte_of(old, 8 * k);
    }
}

fn unpack_bits(image: &[u8], old: &mut [u8])
    requires { (length image.now ≡ image_size) × (length old.old ≡ old_size) }
    ensures { old.new ≡ row (λ i. bit (get_or image.now (i / 8) 0) (i % 8)) 0 128 ++ drop 128 old.old }
{
    for i in 0..OLD_BITS {
        old[i] = words::bit(image[i / 8], i % 8);
    }
}

// What stands in one image from a place on, into the other from its own place on: as many bytes. Not by `copy_from_slice`, which calls memmove: the
// archives for C want memset and memcpy alone.
fn copy_rest(from: &[u8], at: usize, to: &mut [u8], place: usize)
    requires { (at ≤ length from.now) × (length from.now + place ≡ length to.old + at) }
    ensures { to.new ≡ take place to.old ++ drop at from.now }
{
    for k in 0..from.len() - at {
        to[place + k] = from[at + k];
    }
}

// Either conversion answers 0, or 1 where one of the two has the wrong size, and then nothing is written: the numbers of the C interface.
pub fn pack(old: &[u8], image: &mut [u8]) -> u32
    ensures { (result ≡ conversion_answer old.now image.old)
        × (image.new ≡ packed_into old.now image.old) }
{
    if old.len() != OLD_SIZE {
        return 1;
    }
    if image.len() != IMAGE_SIZE {
        return 1;
    }
    pack_bits(old, image);
    copy_rest(old, OLD_BITS, image, BITS);
    0
}

pub fn unpack(image: &[u8], old: &mut [u8]) -> u32
    ensures { (result ≡ conversion_answer old.old image.now)
        × (old.new ≡ unpacked_into image.now old.old) }
{
    if old.len() != OLD_SIZE {
        return 1;
    }
    if image.len() != IMAGE_SIZE {
        return 1;
    }
    unpack_bits(image, old);
    copy_rest(image, BITS, old, OLD_BITS);
    0
}
