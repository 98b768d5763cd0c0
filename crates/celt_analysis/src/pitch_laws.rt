//! Laws of the pitch, over the definitions alone. No body does anything.
ghost use Rattle.std.specs.Prelude.{◌≡◌, ◌⊎◌, ℕ, ℤ, ◌+◌, ◌-◌, ◌*◌, ◌<◌, ◌≤◌};
ghost use Rattle.celt_base.specs.declared.state.Setting.{Setting};
ghost use Rattle.celt_analysis.specs.Pitch.{correlation_at, energy_at, best_candidate, IsBestLag, IsGain, IsPitch};
ghost use Rattle.celt_analysis.specs.Sums.{energy};

/// Of the lags of 15 to 1022 samples the best is the one with the greatest square of the correlation over the energy, the
/// least on ties. There is one, or at each lag the correlation or the energy is 0.
pub fn law_best_lag()
    ensures found { (s : ℕ → ℤ) (f n : ℕ) → best_candidate s f n < 1008 → IsBestLag s f n (15 + best_candidate s f n) }
    ensures one { (s : ℕ → ℤ) (f n t : ℕ) → IsBestLag s f n t → 15 + best_candidate s f n ≡ t }
    ensures none { (s : ℕ → ℤ) (f n t : ℕ) → 1008 ≤ best_candidate s f n → 15 ≤ t → t ≤ 1022 → (correlation_at s f n t ≡ 0) ⊎ (energy_at s f n t ≡ 0) }
{}

/// A signal, a place and a number of samples fix the setting, and of the signal only those samples and the 1022 before
/// them. Its period is the best lag where it is on, with the gain of that lag, and 15 where it is off. Where the best lag
/// has a gain, it is on.
pub fn law_pitch()
    ensures one { (s : ℕ → ℤ) (f n : ℕ) (a b : Setting) → IsPitch s f n a → IsPitch s f n b → a ≡ b }
    ensures heard { (s u : ℕ → ℤ) (f g n : ℕ) (a : Setting) → 1022 ≤ f → 1022 ≤ g → ((i : ℕ) → i < 1022 + n → s (f - 1022 + i) ≡ u (g - 1022 + i)) → IsPitch s f n a → IsPitch u g n a }
    ensures best { (s : ℕ → ℤ) (f n : ℕ) (a : Setting) → IsPitch s f n a → 0 < a.gain → IsBestLag s f n a.period }
    ensures gain { (s : ℕ → ℤ) (f n : ℕ) (a : Setting) → IsPitch s f n a → 0 < a.gain → IsGain (correlation_at s f n a.period) (energy_at s f n a.period) (energy s f n) a.gain }
    ensures off { (s : ℕ → ℤ) (f n : ℕ) (a : Setting) → IsPitch s f n a → a.gain ≡ 0 → a.period ≡ 15 }
    ensures on { (s : ℕ → ℤ) (f n t gain : ℕ) (a : Setting) → IsPitch s f n a → IsBestLag s f n t → IsGain (correlation_at s f n t) (energy_at s f n t) (energy s f n) gain → a.gain ≡ gain }
{}
