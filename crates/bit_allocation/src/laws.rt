//! Laws of the allocation (RFC 6716, section 4.3.3). Each is the clause of a function that does nothing.
ghost use Rattle.std.specs.Prelude.{◌≡◌, ◌+◌, ◌*◌, ◌<◌, ◌≤◌, ◌≤ℤ◌, ℕ, ℤ, pos, Bool, List, nat_le};
ghost use Rattle.bit_allocation.specs.declared.plan.Plan.{Plan};
ghost use Rattle.bit_allocation.specs.declared.request.Request.{Request};
ghost use Rattle.bit_allocation.specs.declared.stereo.Stereo.{Stereo};
ghost use Rattle.bit_allocation.specs.declared.turns.Skipped.{Skipped};
ghost use Rattle.bit_allocation.specs.Amounts.{raised, bit_each, most_of};
ghost use Rattle.bit_allocation.specs.Counts.{sum_below, counts_of, boosted_of, stepped_of, quality_of, step_of, IsGreatest};
ghost use Rattle.bit_allocation.specs.Requests.{AreBoosts, IsTrim};
ghost use Rattle.bit_allocation.specs.Scripts.{allocation_script};
ghost use Rattle.bit_allocation.specs.Shares.{split_of, balance_of};
ghost use Rattle.bit_allocation.specs.Totals.{given_of, shared_of, taken_of, IsBlank};
ghost use Rattle.celt_base.specs.declared.kind.Kind.{Kind};
ghost use Rattle.celt_base.specs.declared.state.Allocation.{Allocation};
ghost use Rattle.celt_base.specs.States.{IsAllocation};
ghost use Rattle.celt_base.specs.WalkOrders.{AtMost, MayGive};

/// What the amounts count for does not fall from a quality to the next, nor from a step to the next.
pub fn law_counts_rise()
    ensures quality { (r : Request) (quality : ℕ) → quality < 10
        → counts_of r.kind (boosted_of r quality) ≤ counts_of r.kind (boosted_of r (quality + 1)) }
    ensures step { (r : Request) (quality step : ℕ)
        → counts_of r.kind (stepped_of r quality step) ≤ counts_of r.kind (stepped_of r quality (step + 1)) }
{}

/// The quality is the greatest of 1 to 10 whose amounts fit, or 0; the step is the greatest of 0 to 63; there is one such
/// number; and what is counted at this step fits.
pub fn law_greatest()
    ensures quality { (r : Request) (rest : ℕ)
        → IsGreatest (λ quality. nat_le (counts_of r.kind (boosted_of r quality)) rest) 10 (quality_of r rest) }
    ensures step { (r : Request) (quality rest : ℕ)
        → IsGreatest (λ step. nat_le (counts_of r.kind (stepped_of r quality step)) rest) 63 (step_of r quality rest) }
    ensures one { (test : ℕ → Bool) (most m n : ℕ) → IsGreatest test most m → IsGreatest test most n → m ≡ n }
    ensures fits { (r : Request) (rest : ℕ)
        → counts_of r.kind (stepped_of r (quality_of r rest) (step_of r (quality_of r rest) rest)) ≤ rest }
{}

/// A band's split gives away just its bits and the balance before it.
pub fn law_split()
    ensures { (kind : Kind) (t : Stereo) (band bits before : ℕ) → band < 21
        → (split_of kind t band bits before).pulses + bit_each kind * (split_of kind t band bits before).fine
        + (split_of kind t band bits before).balance ≡ bits + before }
{}

/// The balance before a band is what the bands below it had and did not give to pulses and fine energy.
pub fn law_balance()
    ensures { (p : Plan) (s : Skipped) (t : Stereo) (n : ℕ) → n ≤ s.coded → s.coded ≤ 21
        → sum_below (taken_of p s t) n + balance_of p s t n ≡ sum_below (shared_of p s t) n }
{}

/// Whatever is answered, no more than the total is given; the allocation is valid for the kind; and a band from the
/// kind's end on has nothing.
pub fn law_total()
    ensures given { (kind : Kind) (total : ℤ) (boosts : List ℤ) (trim : ℤ) (a : Allocation)
        → total ≤ℤ pos 81600 → AreBoosts kind boosts → IsTrim trim
        → MayGive (allocation_script kind total boosts trim) a → given_of kind a ≤ raised total }
    ensures valid { (kind : Kind) (total : ℤ) (boosts : List ℤ) (trim : ℤ) (a : Allocation)
        → total ≤ℤ pos 81600 → AreBoosts kind boosts → IsTrim trim
        → MayGive (allocation_script kind total boosts trim) a → IsAllocation (λ band. pos (most_of kind band)) kind a }
    ensures blank { (kind : Kind) (total : ℤ) (boosts : List ℤ) (trim : ℤ) (a : Allocation)
        → total ≤ℤ pos 81600 → AreBoosts kind boosts → IsTrim trim
        → MayGive (allocation_script kind total boosts trim) a
        → (band : ℕ) → kind.end ≤ band → band < 21 → IsBlank a band }
{}

/// However it is answered, at most 22 questions are asked.
pub fn law_questions()
    ensures { (kind : Kind) (total : ℤ) (boosts : List ℤ) (trim : ℤ) → AtMost 22 (allocation_script kind total boosts trim) }
{}
