//! Laws of the definitions alone. No body does anything.
ghost use Rattle.std.specs.Prelude.{◌≡◌, ℕ, pos, neg_ℤ, ◌∷◌, [], Bool, if◌then◌else◌};
ghost use Rattle.band_shapes.specs.Bands.{sign_of};
ghost use Rattle.band_shapes.specs.Channels.{copied};
ghost use Rattle.band_shapes.specs.Frames.{Symbols, shapes_of};
ghost use Rattle.celt_base.specs.declared.kind.Kind.{Kind};

/// Neither the left channel nor the masks and the noise's state hang on the setting `invert`.
pub fn law_inversion()
    ensures left { (kind : Kind) (s : Symbols) (a b : Bool) (seed : ℕ) → (shapes_of kind s a seed).left ≡ (shapes_of kind s b seed).left }
    ensures left_masks { (kind : Kind) (s : Symbols) (a b : Bool) (seed : ℕ) → (shapes_of kind s a seed).left_masks ≡ (shapes_of kind s b seed).left_masks }
    ensures right_masks { (kind : Kind) (s : Symbols) (a b : Bool) (seed : ℕ) → (shapes_of kind s a seed).right_masks ≡ (shapes_of kind s b seed).right_masks }
    ensures seed { (kind : Kind) (s : Symbols) (a b : Bool) (seed : ℕ) → (shapes_of kind s a seed).seed ≡ (shapes_of kind s b seed).seed }
{}

/// The copy of one coefficient, which is 16384 or -16384, is a sixteenth of it.
pub fn law_copy()
    ensures { (negative : Bool) → copied (sign_of negative ∷ []) ≡ (if negative then neg_ℤ (pos 1024) else pos 1024) ∷ [] }
{}
