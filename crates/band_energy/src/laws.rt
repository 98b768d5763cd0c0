//! Laws of the definitions alone. No body does anything.
ghost use Rattle.std.specs.Prelude.{◌≡◌, ℕ, ◌-◌, ◌*◌, ◌^◌, ◌<◌, ◌≤◌, ◌+ℤ◌, ◌-ℤ◌, ◌*ℤ◌, ℤ, pos, unsigned_abs, slice_index, Some, None, Bool, true, false, List, [], get_or};
ghost use Rattle.celt_base.specs.WalkOrders.{AtMost};
ghost use Rattle.celt_base.specs.declared.kind.Kind.{Kind};
ghost use Rattle.celt_base.specs.declared.state.Allocation.{Allocation};
ghost use Rattle.band_energy.specs.declared.energy.Energy.{Energy};
ghost use Rattle.band_energy.specs.EnergyScripts.{coarse_script, fine_script, last_script, rounds_script, is_in_round, bands_in, is_reached};
ghost use Rattle.band_energy.specs.EnergyValues.{last_of, energy_at, energies_of};
ghost use Rattle.band_energy.specs.WantedEnergies.{predicted, energy_by_coarse, wanted_coarse, energy_by_fine, wanted_fine, wanted_last};

/// Each entry of the energies: for the kind's bands and channels the energy by the answers, else the one before.
pub fn law_energy_entries()
    ensures { (kind : Kind) (intra : Bool) (a : Allocation) (e : Energy) (old : List (List ℤ)) (channel band : ℕ)
        → channel < 2 → band < 21
        → get_or (get_or (energies_of kind intra a e old) channel []) band (pos 0) ≡ energy_at kind intra a e old channel band }
{}

/// In an intra frame the energies of the kind's bands do not depend on those before.
pub fn law_intra_energies()
    ensures { (kind : Kind) (a : Allocation) (e : Energy) (old other : List (List ℤ)) (channel band : ℕ)
        → channel < kind.channels → band < kind.end
        → get_or (get_or (energies_of kind true a e old) channel []) band (pos 0)
        ≡ get_or (get_or (energies_of kind true a e other) channel []) band (pos 0) }
{}

/// However they are answered, the coarse energies ask at most 42 questions, and so do the fine ones and the last bits.
pub fn law_energy_questions()
    ensures coarse { (kind : Kind) (intra : Bool) (budget : ℕ) → AtMost 42 (coarse_script kind intra budget) }
    ensures fine { (kind : Kind) (a : Allocation) → AtMost 42 (fine_script kind a) }
    ensures last { (kind : Kind) (a : Allocation) (budget : ℕ) → AtMost 42 (last_script kind a budget) }
{}

/// The last bits: no band is in both rounds. With a band, all of its round below it are reached, and with one of the second
/// round all of the first. However they are answered, the two rounds ask no more questions than bits are left.
pub fn law_last_bits()
    ensures one_round { (a : Allocation) (band : ℕ) → is_in_round a false band ≡ true → is_in_round a true band ≡ true → ⊥ }
    ensures below { (channels : ℕ) (a : Allocation) (second : Bool) (left lower band : ℕ)
        → lower < band → is_in_round a second lower ≡ true → is_reached channels a second left band ≡ true
        → is_reached channels a second left lower ≡ true }
    ensures first { (channels end : ℕ) (a : Allocation) (left lower band : ℕ) → 1 ≤ channels
        → lower < end → is_in_round a false lower ≡ true
        → is_reached channels a true (left - channels * bands_in a false end) band ≡ true
        → is_reached channels a false left lower ≡ true }
    ensures within { (kind : Kind) (a : Allocation) (left : ℕ) → AtMost left (rounds_script kind a left) }
{}

/// The energies that an encoder goes by are those of the frame: an energy of the kind's bands is the one by the coarse values,
/// with its fine energy and its last bit.
pub fn law_single_energies()
    ensures { (kind : Kind) (intra : Bool) (a : Allocation) (e : Energy) (old : List (List ℤ)) (channel band : ℕ)
        → channel < kind.channels → band < kind.end
        → energy_at kind intra a e old channel band
        ≡ energy_by_fine (energy_by_coarse kind intra old e.coarse channel band) (slice_index a.fine band) (get_or (get_or e.fine channel []) band 0)
        +ℤ last_of (slice_index a.fine band) (get_or (get_or e.last channel []) band None) }
{}

/// What is wanted brings an energy nearest to its target. No coarse value comes nearer than the wanted one; a fine energy that
/// is the wanted one leaves at most half of a part; and of the two last bits the other one comes no nearer.
pub fn law_wanted_energies()
    ensures coarse { (kind : Kind) (intra : Bool) (old coarse : List (List ℤ)) (channel band : ℕ) (target value : ℤ)
        → unsigned_abs (predicted kind intra old coarse channel band
        +ℤ wanted_coarse kind intra old coarse channel band target *ℤ pos (2 ^ 17) -ℤ target *ℤ pos 128)
        ≤ unsigned_abs (predicted kind intra old coarse channel band +ℤ value *ℤ pos (2 ^ 17) -ℤ target *ℤ pos 128) }
    ensures fine { (target energy : ℤ) (bits fine : ℕ) → bits ≤ 8 → wanted_fine target energy bits ≡ pos fine
        → unsigned_abs (energy_by_fine energy bits fine -ℤ target) ≤ 2 ^ (9 - bits) }
    ensures last { (target energy : ℤ) (bits bit other : ℕ) → bits ≤ 8 → other < 2 → wanted_last target energy ≡ pos bit
        → unsigned_abs (energy +ℤ last_of bits (Some bit) -ℤ target) ≤ unsigned_abs (energy +ℤ last_of bits (Some other) -ℤ target) }
{}
