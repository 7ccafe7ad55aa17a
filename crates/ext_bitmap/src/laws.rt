//! Laws of the bytes that are written: reading them returns the bitmaps for which they were written. A law computes
//! nothing.

ghost use Rattle.std.specs.Prelude.{◌<◌, ◌≤◌, ◌^◌, ◌++◌, ℕ, Bool, List, All, Ok, length, map};
ghost use Rattle.ext_bitmap.specs.Bitmap.{Bitmap, IsBitmap};
ghost use Rattle.ext_bitmap.specs.Bits.{ListPlaces};
ghost use Rattle.ext_bitmap.specs.BitmapImage.{bitmap_bytes, IsSpellableBitmap};
ghost use Rattle.ext_bitmap.specs.EncodedBitmap.{encoded, set_from};

/// States that the bytes written for a bitmap are read as that bitmap, whatever follows them (`read`). It also states
/// that every bitmap that was read can be written this way (`spellable`).
pub fn bitmap_reads_back()
    ensures read { (b : Bitmap) (rest : List ℕ) → IsSpellableBitmap b
        → IsBitmap (bitmap_bytes b ++ rest) b rest }
    ensures spellable { (bytes : List ℕ) (b : Bitmap) (rest : List ℕ) → All (λ n. n < 256) bytes
        → IsBitmap bytes b rest → IsSpellableBitmap b }
{}

/// States that the bitmap made of bits lists the positions of the set ones, declares no more bits than there are, and
/// can be written.
pub fn bits_read_back()
    ensures places { (bits : List Bool) → length bits < 2 ^ 32
        → ListPlaces (map Ok (set_from 0 bits)) (encoded bits).words }
    ensures few { (bits : List Bool) → (encoded bits).num_bits ≤ length bits }
    ensures spellable { (bits : List Bool) → length bits < 2 ^ 32
        → IsSpellableBitmap (encoded bits) }
{}
