//! Laws of the tables, over all of their entries. Each is the clause of a function that does nothing.
ghost use Rattle.std.specs.Prelude.{◌≡◌, ℕ, ◌+◌, ◌<◌, ◌≤◌, Bool, sum};
ghost use Rattle.celt_base.specs.declared.question.Question.TheVariants.{Laplace};
ghost use Rattle.celt_base.specs.declared.question.TableId.{TableId};
ghost use Rattle.celt_base.specs.declared.question.TableId.TheVariants.{Tapset, Small, Spread, Trim};
ghost use Rattle.celt_base.specs.Questions.{IsValid, lengths_of};
ghost use Rattle.celt_tables.specs.declared.symbols.TheConstants.{TAPSET, SMALL, SPREAD, TRIM};
ghost use Rattle.celt_tables.specs.declared.bands.TheConstants.{EDGES, WIDTH_LOGARITHMS, BAND_CHOICE_BITS};
ghost use Rattle.celt_tables.specs.declared.bits.TheConstants.{CAPS, ALLOCATION};
ghost use Rattle.celt_tables.specs.declared.energies.TheConstants.{ENERGY_MODELS, MEANS};
ghost use Rattle.celt_tables.specs.declared.resolution.TheConstants.{CHANGES};
ghost use Rattle.celt_tables.specs.declared.window.TheConstants.{WINDOW};
ghost use Rattle.celt_tables.specs.Standard.{edge_list, width_logarithm_list, band_choice_list, mean_list, cap_rows, allocation_rows, model_rows, change_rows, window_list};
ghost use Rattle.celt_tables.specs.Tables.{
  edge_of,
  caps_entry,
  allocation_entry,
  fs_of,
  decay_of,
  window_entry,
};

/// The bands follow each other and end at 100.
pub fn law_edges()
    ensures rise { (i : ℕ) → i < 21 → edge_of i < edge_of (i + 1) }
    ensures end { edge_of 21 ≡ 100 }
{}

/// No entry of the greatest amounts is above 240.
pub fn law_caps()
    ensures { (row i : ℕ) → row < 8 → i < 21 → caps_entry row i ≤ 240 }
{}

/// No usual amount is above 200, and none falls from a quality to the next.
pub fn law_allocation()
    ensures most { (row i : ℕ) → row < 11 → i < 21 → allocation_entry row i ≤ 200 }
    ensures rise { (row i : ℕ) → row < 10 → i < 21
        → allocation_entry row i ≤ allocation_entry (row + 1) i }
{}

/// The question of each coarse energy is valid.
pub fn law_energy_models()
    ensures { (lm : ℕ) (intra : Bool) (band : ℕ) → lm < 4 → band < 21
        → IsValid (Laplace (fs_of lm intra band) (decay_of lm intra band)) }
{}

/// The lengths of the tables of answers are those that the questions name, and add up to 4, 4, 32 and 128.
pub fn law_table_lengths()
    ensures tapset { (TAPSET ≡ lengths_of Tapset) × (sum TAPSET ≡ 4) }
    ensures small { (SMALL ≡ lengths_of Small) × (sum SMALL ≡ 4) }
    ensures spread { (SPREAD ≡ lengths_of Spread) × (sum SPREAD ≡ 32) }
    ensures trim { (TRIM ≡ lengths_of Trim) × (sum TRIM ≡ 128) }
{}

/// The window never falls and stays below 32768.
pub fn law_window()
    ensures rise { (k : ℕ) → k < 119 → window_entry k ≤ window_entry (k + 1) }
    ensures most { (k : ℕ) → k < 120 → window_entry k < 32768 }
{}

/// The tables are those of the standard.
pub fn law_tables()
    ensures edges { EDGES ≡ edge_list }
    ensures widths { WIDTH_LOGARITHMS ≡ width_logarithm_list }
    ensures choices { BAND_CHOICE_BITS ≡ band_choice_list }
    ensures caps { CAPS ≡ cap_rows }
    ensures allocation { ALLOCATION ≡ allocation_rows }
    ensures models { ENERGY_MODELS ≡ model_rows }
    ensures means { MEANS ≡ mean_list }
    ensures changes { CHANGES ≡ change_rows }
    ensures window { WINDOW ≡ window_list }
{}
