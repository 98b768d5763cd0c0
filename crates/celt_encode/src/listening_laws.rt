//! Laws of what is known of a frame before its first question.
ghost use Rattle.std.specs.Prelude.{◌≡◌, ℕ, ◌+◌, ◌^◌, ◌<◌, ◌≤◌, ℤ, pos, ◌≤ℤ◌, unsigned_abs, All, List, length, get_or, true, false};
ghost use Rattle.celt_base.specs.declared.kind.Kind.{Kind};
ghost use Rattle.fixed_math.specs.Items.{item};
ghost use Rattle.fixed_math.specs.Unit.{unit_of};
ghost use Rattle.celt_analysis.specs.Analyses.{Analysis, spectrum_of};
ghost use Rattle.celt_analysis.specs.Signals.{frame_size};
ghost use Rattle.celt_encode.specs.Listening.{settled, boosts_for, trim_for};
ghost use Rattle.celt_encode.specs.Outsets.{Outset};
ghost use Rattle.celt_encode.specs.Spreads.{spread_for};
ghost use Rattle.celt_encode.specs.Units.{band_of};
ghost use Rattle.celt_encode.specs.Vectors.{unit_in};

/// In each band that is coded the vector of a channel is its spectrum there, scaled to unit length: no item is greater than 2^14 in
/// size, and each is 0 where the spectrum is.
pub fn law_unit_vectors()
    ensures vector { (f : Outset) (a : Analysis) (c b : ℕ) → c < 2 → b < f.kind.end → length (spectrum_of a c) ≡ frame_size f.kind
        → unit_in (settled f a) c b ≡ unit_of (pos 32768) (band_of f.kind (spectrum_of a c) b) }
    ensures size { (kind : Kind) (spectrum : List ℤ) (b : ℕ) → b < 21 → All (λ x. unsigned_abs x < 2 ^ 38) spectrum
        → All (λ x. unsigned_abs x ≤ 2 ^ 14) (unit_of (pos 32768) (band_of kind spectrum b)) }
    ensures zero { (kind : Kind) (spectrum : List ℤ) (b p : ℕ) → item (band_of kind spectrum b) p ≡ pos 0
        → item (unit_of (pos 32768) (band_of kind spectrum b)) p ≡ pos 0 }
{}

/// What is wanted of the spreading and the tilt is one of their answers: a spreading of 0 to 3, and a tilt from 3 to 7. Neither
/// the first band nor the last one is ever boosted.
pub fn law_listening()
    ensures spread { (kind : Kind) (a : Analysis) → spread_for kind a ≤ 3 }
    ensures least_trim { (kind : Kind) (a : Analysis) → pos 3 ≤ℤ trim_for kind a }
    ensures most_trim { (kind : Kind) (a : Analysis) → trim_for kind a ≤ℤ pos 7 }
    ensures boosts { (kind : Kind) (a : Analysis) (b : ℕ) → get_or (boosts_for kind a) b false ≡ true → (0 < b) × (b + 1 < kind.end) }
{}
