// The conversions of a memory image for C.
ghost use Rattle.std.specs.Prelude.{◌≡◌};
ghost use Rattle.images.specs.Conversions.{conversion_answer, packed_into, unpacked_into};

#[unsafe(no_mangle)]
pub extern "C" fn formula_pack(old: &[u8], image: &mut [u8]) -> u32
    ensures { (result ≡ conversion_answer old.now image.old)
        × (image.new ≡ packed_into old.now image.old) }
{
    images::pack(old, image)
}

#[unsafe(no_mangle)]
pub extern "C" fn formula_unpack(image: &[u8], old: &mut [u8]) -> u32
    ensures { (result ≡ conversion_answer old.old image.now)
        × (old.new ≡ unpacked_into image.now old.old) }
{
    images::unpack(image, old)
}
