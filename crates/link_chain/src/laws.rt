//! Laws of the definitions alone. No body does anything.
ghost use Rattle.std.specs.Prelude.{◌≡◌, ℕ, ◌+◌, ◌<◌, List, [], ◌∷◌, ◌++◌, length, take, true, IsTrue, IsFalse};
ghost use Rattle.link_chain.specs.declared.chain.Chain.{Chain};
ghost use Rattle.link_chain.specs.Pages.{NotedPage, is_last, starts_link, link_behind};
ghost use Rattle.link_chain.specs.Noted.{HasNoted, place_in, starts_in};

/// Two chains that noted the same pages answer alike.
pub fn law_chain()
    ensures place { (pages : List NotedPage) (one other : Chain) → HasNoted one pages → HasNoted other pages →
        place_in one ≡ place_in other }
    ensures starts { (pages : List NotedPage) (one other : Chain) → HasNoted one pages → HasNoted other pages →
        starts_in one ≡ starts_in other }
{}

/// The first page begins a link, so does each page behind one with flag 4, and no other. Where a link begins, each
/// page before is of a link before it; elsewhere the page before is of the same link.
pub fn law_starts()
    ensures none { starts_link [] ≡ true }
    ensures last { (pages : List NotedPage) (page : NotedPage) → starts_link (pages ++ page ∷ []) ≡ is_last page }
    ensures first { (pages : List NotedPage) (i : ℕ) → IsTrue (starts_link pages) → i < length pages →
        link_behind (take i pages) < link_behind pages }
    ensures inside { (pages : List NotedPage) (n : ℕ) → IsFalse (starts_link pages) → length pages ≡ n + 1 →
        link_behind (take n pages) ≡ link_behind pages }
{}
