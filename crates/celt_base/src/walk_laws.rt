//! Laws over the scripts of a frame's questions, each of every script with values of any type `A`, and over the values of
//! coarse energies.
ghost use Rattle.std.specs.Prelude.{◌≡◌, ℕ, ◌+◌, ◌*◌, ◌<◌, ◌≤◌, ℤ, List, [], ◌∷◌, ◌++◌, length, Some};
ghost use Rattle.celt_base.specs.Paces.{Pace};
ghost use Rattle.celt_base.specs.Questions.{Answered};
ghost use Rattle.celt_base.specs.WalkCalls.{IsNearestValue, coarse_answer};
ghost use Rattle.celt_base.specs.WalkOrders.{Ends, next, outcome, InOrder, AtMost, MayGive, Decided};
ghost use Rattle.celt_base.specs.WalkScripts.{Script, and_then, table};
ghost use Rattle.celt_base.specs.Walks.{Event, Adds, answered_in, count_of};
ghost use Rattle.celt_base.specs.declared.question.Question.{Question};
ghost use Rattle.celt_base.specs.declared.question.Question.TheVariants.{Bit, Table};
ghost use Rattle.celt_base.specs.declared.question.TableId.TheVariants.{Small};

/// What a script adds is in its order, nothing follows it, and its answers decide the value.
pub fn law_script_order<A>()
    ensures order { (script : Script A) (pace : Pace) (events : List Event) (value : A)
        → Adds script pace events value → InOrder script pace (answered_in events) }
    ensures ends { (script : Script A) (pace : Pace) (events : List Event) (value : A)
        → Adds script pace events value → next script pace (answered_in events) ≡ Ends }
    ensures value { (script : Script A) (pace : Pace) (events : List Event) (value : A)
        → Adds script pace events value → outcome script pace (answered_in events) ≡ Some value }
{}

/// A script adds no more questions than it asks at most, and a list in its order has no more. Joined scripts ask at
/// most the sum, and a table over bands and channels the product.
pub fn law_script_count<A, B>()
    ensures most { (n : ℕ) (script : Script A) (pace : Pace) (events : List Event) (value : A)
        → AtMost n script → Adds script pace events value → count_of events ≤ n }
    ensures list { (n : ℕ) (script : Script A) (pace : Pace) (list : List Answered)
        → AtMost n script → InOrder script pace list → length list ≤ n }
    ensures sum { (m n : ℕ) (script : Script A) (follow : A → Script B) → AtMost m script
        → ((value : A) → MayGive script value → AtMost n (follow value)) → AtMost (m + n) (and_then script follow) }
    ensures product { (n channels bands : ℕ) (script : ℕ → ℕ → Script A)
        → ((band channel : ℕ) → band < bands → channel < channels → AtMost n (script band channel))
        → AtMost (bands * (channels * n)) (table script channels bands) }
{}

/// Where what stands before decides each answer, at most one list is in order up to the script's end.
pub fn law_one_list<A, S>()
    ensures { (decide : S → Question → ℤ) (after : S → Answered → S) (state : S) (script : Script A) (pace : Pace)
        (xs ys : List Answered)
        → InOrder script pace xs → next script pace xs ≡ Ends → Decided (λ before question answer. answer ≡ decide before question) after state xs
        → InOrder script pace ys → next script pace ys ≡ Ends → Decided (λ before question answer. answer ≡ decide before question) after state ys
        → xs ≡ ys }
{}

/// The answer that a small coarse energy or its bit gets, where this value is wanted, is the one whose value is nearest to
/// it. There are no ties: every other answer's value is farther away.
pub fn law_nearest_value()
    ensures small { (wanted : ℤ) → IsNearestValue (Table Small) wanted (coarse_answer (Table Small) wanted) }
    ensures bit { (p : ℕ) (wanted : ℤ) → IsNearestValue (Bit p) wanted (coarse_answer (Bit p) wanted) }
{}
