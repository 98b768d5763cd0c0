//! Laws of the definitions alone: what a page's bytes are (RFC 3533, section 6). No body does anything.
ghost use Rattle.std.specs.Prelude.{◌≡◌, ℕ, ◌<◌, List, ◌++◌, length, take, sum};
ghost use Rattle.std.specs.List.{All, flat_map};
ghost use Rattle.ogg_pages.specs.declared.page.PageFault.{PageFault};
ghost use Rattle.ogg_pages.specs.declared.page.Verdict.TheVariants.{Whole, Need, Fault};
ghost use Rattle.ogg_pages.specs.Checksum.{blanked, checksum};
ghost use Rattle.ogg_pages.specs.Fields.{Page, page_of};
ghost use Rattle.ogg_pages.specs.Lacings.{EndsPacket};
ghost use Rattle.ogg_pages.specs.Remainder.{IsRemainder};
ghost use Rattle.ogg_pages.specs.Spelling.{AreBytes, IsPage, packet_lacing, spelling};
ghost use Rattle.ogg_pages.specs.Stream.{Broken, Sound, stream};
ghost use Rattle.ogg_pages.specs.Verdicts.{checksum_in, verdict};

/// Whatever bytes follow, the spelling of a page is read as a page of just its bytes with just its
/// fields.
pub fn law_spelling_is_read()
    ensures taken { (p : Page) (more : List ℕ) → IsPage p → verdict (spelling p ++ more) ≡ Whole (length (spelling p)) }
    ensures fields { (p : Page) (more : List ℕ) → IsPage p → page_of (take (length (spelling p)) (spelling p ++ more)) ≡ p }
{}

/// Bytes that are read as a page are the spelling of its fields, and no two pages have one spelling.
pub fn law_page_is_spelled()
    ensures fields { (bytes : List ℕ) (n : ℕ) → AreBytes bytes → verdict bytes ≡ Whole n → IsPage (page_of (take n bytes)) }
    ensures bytes { (bytes : List ℕ) (n : ℕ) → AreBytes bytes → verdict bytes ≡ Whole n → take n bytes ≡ spelling (page_of (take n bytes)) }
    ensures only { (p q : Page) → IsPage p → IsPage q → spelling p ≡ spelling q → p ≡ q }
{}

/// A part of a spelling from its first byte on, which is not all of it, is less than a page.
pub fn law_part_is_cut()
    ensures { (p : Page) (k : ℕ) → IsPage p → k < length (spelling p) → verdict (take k (spelling p)) ≡ Need }
{}

/// The joined spellings of pages are read as just these pages, and nothing follows them.
pub fn law_joined_spellings()
    ensures pages { (pages : List Page) → All IsPage pages → (stream (flat_map spelling pages)).pages ≡ pages }
    ensures ending { (pages : List Page) → All IsPage pages → (stream (flat_map spelling pages)).ending ≡ Sound }
{}

/// The lacing values of a packet are the only values 255 and then one below 255 that add up to its
/// length.
pub fn law_packet_lacing()
    ensures ends { (len : ℕ) → EndsPacket (packet_lacing len) }
    ensures total { (len : ℕ) → sum (packet_lacing len) ≡ len }
    ensures only { (len : ℕ) (values : List ℕ) → EndsPacket values → sum values ≡ len → values ≡ packet_lacing len }
{}

/// The checksum of a page is the remainder of its polynomial times x^32, its own field taken as 0. So
/// is the checksum that stands in each page that is read. Bytes have one remainder.
pub fn law_checksum()
    ensures remainder { (page : List ℕ) → AreBytes page → IsRemainder (blanked page) (checksum page) }
    ensures held { (bytes : List ℕ) (n : ℕ) → AreBytes bytes → verdict bytes ≡ Whole n → IsRemainder (blanked (take n bytes)) (checksum_in (take n bytes)) }
    ensures only { (bytes : List ℕ) (q r : ℕ) → IsRemainder bytes q → IsRemainder bytes r → q ≡ r }
{}

/// No later byte changes a page or a fault.
pub fn law_later_bytes()
    ensures page { (bytes more : List ℕ) (n : ℕ) → verdict bytes ≡ Whole n → verdict (bytes ++ more) ≡ Whole n }
    ensures fields { (bytes more : List ℕ) (n : ℕ) → verdict bytes ≡ Whole n → page_of (take n (bytes ++ more)) ≡ page_of (take n bytes) }
    ensures fault { (bytes more : List ℕ) (fault : PageFault) → verdict bytes ≡ Fault fault → verdict (bytes ++ more) ≡ Fault fault }
{}

/// Later bytes change no page of a stream, and nothing where a test is broken.
pub fn law_stream_goes_on()
    ensures pages { (bytes more : List ℕ) → take (length (stream bytes).pages) (stream (bytes ++ more)).pages ≡ (stream bytes).pages }
    ensures broken { (bytes more : List ℕ) (fault : PageFault) → (stream bytes).ending ≡ Broken fault → stream (bytes ++ more) ≡ stream bytes }
{}
