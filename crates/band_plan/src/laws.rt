//! Laws of the walk of the bands. Each is the clause of a function that does nothing.
ghost use Rattle.std.specs.Prelude.{◌≡◌, ◌≤◌, ℕ, Bool, true, false, ℤ, pos, neg_ℤ, ◌≤ℤ◌, List, length};
ghost use Rattle.band_plan.specs.Parts.{Halves, part_script};
ghost use Rattle.band_plan.specs.Plans.{Planned, IsChange, band_of, bands_script};
ghost use Rattle.band_plan.specs.Shapes.{IsPart, IsBandTree, AreBandTrees};
ghost use Rattle.band_plan.specs.Trees.{Tree, nodes_of};
ghost use Rattle.band_plan.specs.declared.orders.Share.{Share};
ghost use Rattle.band_plan.specs.declared.pieces.Piece.{Piece};
ghost use Rattle.band_plan.specs.declared.symbols.BandSettings.{BandSettings};
ghost use Rattle.celt_base.specs.declared.kind.Kind.{Kind};
ghost use Rattle.celt_base.specs.declared.state.Allocation.{Allocation};
ghost use Rattle.celt_base.specs.WalkOrders.{AtMost, MayGive};

/// However it is answered, a part's tree has its shape.
pub fn law_parts()
    ensures { (level : ℕ) (p : Piece) (s : Share) (tree : Tree) → Halves level p.n → MayGive (part_script level p s) tree → IsPart tree level p.n }
{}

/// However it is answered, each band's tree has its shape.
pub fn law_trees()
    ensures { (kind : Kind) (settings : BandSettings) (a : Allocation) (total : ℤ) (plans : List Planned)
        → MayGive (bands_script kind settings a total) plans → AreBandTrees kind settings a.intensity a.dual 0 plans }
{}

/// The tree of a band has at most 63 nodes.
pub fn law_nodes()
    ensures { (kind : Kind) (settings : BandSettings) (intensity band : ℕ) (dual : Bool) (tree : Tree)
        → IsBandTree (band_of kind settings intensity band) dual kind.channels tree → length (nodes_of tree) ≤ 63 }
{}

/// However it is answered, at most 63 questions a band and 1323 in all are asked.
pub fn law_questions()
    ensures { (kind : Kind) (settings : BandSettings) (a : Allocation) (total : ℤ) → AtMost 1323 (bands_script kind settings a total) }
{}

/// The time-frequency changes are -3 to 0 in long blocks, and -1 to the frame's size exponent in short ones.
pub fn law_changes()
    ensures long { (lm : ℕ) (change : ℤ) → lm ≤ 3 → IsChange lm false change → neg_ℤ (pos 3) ≤ℤ change }
    ensures long_most { (lm : ℕ) (change : ℤ) → lm ≤ 3 → IsChange lm false change → change ≤ℤ pos 0 }
    ensures short { (lm : ℕ) (change : ℤ) → lm ≤ 3 → IsChange lm true change → neg_ℤ (pos 1) ≤ℤ change }
    ensures short_most { (lm : ℕ) (change : ℤ) → lm ≤ 3 → IsChange lm true change → change ≤ℤ pos lm }
{}
