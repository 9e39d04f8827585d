//! What the tests of a scheme's cells say, chunk by chunk.

ghost use Rattle.std.specs.Prelude.{◌≡◌, ◌↔◌, ℕ, Bool, true, List};
ghost use Rattle.striped.specs.Layouts.{meaning_of};
ghost use Rattle.striped.specs.Striping.{striping, blank_page, IsCarried, IsGiven};

/// A page is what a first write gives exactly where each chunk decodes to its bits, and is one that the first code gives over
/// blank cells for them.
pub fn a_first_write_gives_each_chunk()
    ensures { (k m n bytes generations : ℕ) (f : List Bool → List Bool) (a : List Bool → List Bool → List Bool → Bool)
        (g : List Bool → List Bool) (b : List Bool → List Bool → List Bool → Bool) (page sector : List ℕ)
        → (meaning_of k m n bytes generations f a g b).decoding.first_gives page sector ≡ true
        ↔ (IsCarried (striping k m m bytes) m f page sector × IsGiven (striping k m m bytes) m a (blank_page (striping k m m bytes)) sector page) }
{}

/// A unit is what a later write gives exactly where each chunk is one that the second code gives over its old cells for its bits.
pub fn a_later_write_gives_each_chunk()
    ensures { (k m n bytes generations : ℕ) (f : List Bool → List Bool) (a : List Bool → List Bool → List Bool → Bool)
        (g : List Bool → List Bool) (b : List Bool → List Bool → List Bool → Bool) (old sector new : List ℕ)
        → (meaning_of k m n bytes generations f a g b).decoding.second_gives old sector new ≡ true ↔ IsGiven (striping k m n bytes) n b old sector new }
{}
