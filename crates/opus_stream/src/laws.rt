//! Laws of the definitions alone: what whole streams of pages are (RFC 3533, RFC 7845). No body does anything.
ghost use Rattle.std.specs.Prelude.{◌≡◌, ℕ, ℤ, ◌≤◌, ◌-◌, ◌*◌, ◌++◌, List, [], ◌∷◌, length, take, drop, Option, None, Some, true, false};
ghost use Rattle.std.specs.List.{All, AllPairs, flat_map};
ghost use Rattle.celt_base.specs.declared.status.Fault.{Fault};
ghost use Rattle.ogg_pages.specs.Fields.{Page};
ghost use Rattle.ogg_pages.specs.Spelling.{AreBytes, IsPage, spelling};
ghost use Rattle.opus_stream.specs.declared.answers.Accept.{Accept};
ghost use Rattle.opus_stream.specs.Audio.{IsPlayable, samples_in};
ghost use Rattle.opus_stream.specs.Granules.{samples_on, given_on};
ghost use Rattle.opus_stream.specs.Tests.{is_ended, is_first};
ghost use Rattle.opus_stream.specs.Acceptance.{accepted, fault_of, is_end_name, audio_in, audio_packets, before_last, last_packets, last_span, head_in, preskip_of, size_of, given_pages};
ghost use Rattle.opus_stream.specs.Spans.{places_after, written_in, written_of};
ghost use Rattle.opus_stream.specs.Links.{IsLink};
ghost use Rattle.opus_stream.specs.Carrying.{is_none_of, Carries, AreSound, IsSpelled};
ghost use Rattle.opus_stream.specs.Readers.{Reader, StandsFor, IsAnswer, IsPacket, IsHeld, IsEnd, packets_of, is_ended_in};

/// A fault that is not one of the end stays whatever bytes follow, and no further page is accepted.
pub fn law_fault_stays()
    ensures fault { (bytes more : List ℕ) (fault : Fault) → fault_of bytes ≡ Some fault → is_end_name fault.name ≡ false
        → fault_of (bytes ++ more) ≡ Some fault }
    ensures pages { (bytes more : List ℕ) (fault : Fault) → fault_of bytes ≡ Some fault → is_end_name fault.name ≡ false
        → accepted (bytes ++ more) ≡ accepted bytes }
{}

/// The accepted pages of a list of bytes are the first of those of every longer list.
pub fn law_pages_go_on()
    ensures first { (bytes more : List ℕ) → take (length (accepted bytes)) (accepted (bytes ++ more)) ≡ accepted bytes }
    ensures more { (bytes more : List ℕ) →
        accepted (bytes ++ more) ≡ accepted bytes ++ drop (length (accepted bytes)) (accepted (bytes ++ more)) }
{}

/// What is written of the pages stands in order among the samples of all packets, and apart. It is all that is
/// given but the pre-skip: cut out of the samples and joined, it is those that are given without the first ones.
/// What is not given is cut off the end of the last page alone, and no page writes more than the samples of its
/// own packets.
pub fn law_spans()
    ensures apart { (bytes : List ℕ) → AllPairs (λ s t. s.to ≤ t.from) (places_after [] (accepted bytes)) }
    ensures total { (bytes : List ℕ) → written_in (accepted bytes)
        ≡ given_on (audio_in (accepted bytes)) - preskip_of (head_in (accepted bytes)) }
    ensures joined { (bytes : List ℕ) (samples : List ℤ) → length samples ≡ samples_on (audio_in (accepted bytes)) →
        written_of samples (accepted bytes) ≡ drop (preskip_of (head_in (accepted bytes))) (take (given_on (audio_in (accepted bytes))) samples) }
    ensures kept { (bytes : List ℕ) → given_on (audio_in (accepted bytes)) ≤ samples_on (audio_in (accepted bytes)) }
    ensures uncut { (bytes : List ℕ) → is_ended (accepted bytes) ≡ false → given_on (audio_in (accepted bytes)) ≡ samples_on (audio_in (accepted bytes)) }
    ensures trimmed { (bytes : List ℕ) → samples_on (audio_in (before_last (accepted bytes))) ≤ given_on (audio_in (accepted bytes)) }
    ensures reach { (bytes : List ℕ) (given : ℕ) →
        (last_span (given_pages bytes given)).to ≤ samples_in (last_packets (given_pages bytes given)) }
{}

/// Every packet of the accepted pages may be played, also where a later page has a fault.
pub fn law_packets_are_sound()
    ensures all { (bytes : List ℕ) → All IsPlayable (audio_packets (accepted bytes)) }
    ensures given { (bytes : List ℕ) (given : ℕ) → All IsPlayable (last_packets (given_pages bytes given)) }
{}

/// A page has 27 bytes at least, and at most 255 packets end on it. There are no more packets than bytes, a packet has
/// at most 5760 samples per channel, and no more pages are given than are accepted.
pub fn law_counts()
    ensures pages { (bytes : List ℕ) → 27 * length (accepted bytes) ≤ length bytes }
    ensures packets { (bytes : List ℕ) → length (audio_packets (accepted bytes)) ≤ length bytes }
    ensures samples { (bytes : List ℕ) → samples_on (audio_in (accepted bytes)) ≤ 5760 * length (audio_packets (accepted bytes)) }
    ensures on_page { (bytes : List ℕ) (given : ℕ) → AreBytes bytes → length (last_packets (given_pages bytes given)) ≤ 255 }
    ensures given { (reader : Reader) (bytes : List ℕ) (given : ℕ) → StandsFor reader bytes given → given ≤ length (accepted bytes) }
{}

/// Of the accepted pages just page 0 has the flag of a first page.
pub fn law_first_page()
    ensures { (bytes : List ℕ) (before rest : List Page) (page : Page) → accepted bytes ≡ before ++ page ∷ rest → is_first page ≡ is_none_of before }
{}

/// The pages up to one that ends a stream are the shortest front of the bytes that has no fault, and where there is
/// such a front, it is theirs: behind it a reader begins again.
pub fn law_links()
    ensures given { (bytes : List ℕ) (given : ℕ) → is_ended (given_pages bytes given) ≡ true → IsLink bytes (size_of (given_pages bytes given)) }
    ensures reader { (reader : Reader) (bytes : List ℕ) (given : ℕ) → StandsFor reader bytes given → is_ended_in reader ≡ true →
        IsLink bytes (size_of (given_pages bytes given)) }
    ensures ended { (bytes : List ℕ) (len : ℕ) → IsLink bytes len → is_ended (accepted bytes) ≡ true }
    ensures size { (bytes : List ℕ) (len : ℕ) → IsLink bytes len → size_of (accepted bytes) ≡ len }
{}

/// Two readers that were fed the same bytes, in whatever pieces, and gave as many pages answer alike, and show the
/// same page.
pub fn law_readers_alike()
    ensures answer { (first second : Reader) (bytes : List ℕ) (given : ℕ) (a b : Accept) →
        StandsFor first bytes given → StandsFor second bytes given → IsAnswer first a → IsAnswer second b → a ≡ b }
    ensures page { (first second : Reader) (bytes : List ℕ) (given : ℕ) →
        StandsFor first bytes given → StandsFor second bytes given → first.page ≡ second.page }
    ensures packets { (first second : Reader) (bytes : List ℕ) (given : ℕ) →
        StandsFor first bytes given → StandsFor second bytes given → packets_of first ≡ packets_of second }
    ensures packet { (first second : Reader) (bytes : List ℕ) (given i : ℕ) (a b : List ℕ) →
        StandsFor first bytes given → StandsFor second bytes given → IsPacket first i a → IsPacket second i b → a ≡ b }
    ensures written { (first second : Reader) (bytes : List ℕ) (given : ℕ) →
        StandsFor first bytes given → StandsFor second bytes given → first.given.written ≡ second.given.written }
    ensures head { (first second : Reader) (bytes : List ℕ) (given : ℕ) →
        StandsFor first bytes given → StandsFor second bytes given → first.progress.head ≡ second.progress.head }
    ensures ended { (first second : Reader) (bytes : List ℕ) (given : ℕ) →
        StandsFor first bytes given → StandsFor second bytes given → is_ended_in first ≡ is_ended_in second }
    ensures held { (first second : Reader) (bytes : List ℕ) (given a b : ℕ) →
        StandsFor first bytes given → StandsFor second bytes given → IsHeld first a → IsHeld second b → a ≡ b }
    ensures end { (first second : Reader) (bytes : List ℕ) (given : ℕ) (a b : Option Fault) →
        StandsFor first bytes given → StandsFor second bytes given → IsEnd first a → IsEnd second b → a ≡ b }
{}

/// However headers and sound audio packets are cut into pages, with the flags, numbers and granule positions that are
/// asked, the joined spellings of the pages are read without a fault as just these packets.
pub fn law_streams_are_read()
    ensures fault { (pages : List Page) (head tags : List ℕ) (packets : List (List ℕ)) → All IsPage pages →
        Carries pages head tags packets → AreSound head tags packets → fault_of (flat_map spelling pages) ≡ None }
    ensures pages { (pages : List Page) (head tags : List ℕ) (packets : List (List ℕ)) → All IsPage pages →
        Carries pages head tags packets → AreSound head tags packets → accepted (flat_map spelling pages) ≡ pages }
    ensures packets { (pages : List Page) (head tags : List ℕ) (packets : List (List ℕ)) → All IsPage pages →
        Carries pages head tags packets → AreSound head tags packets → audio_packets (accepted (flat_map spelling pages)) ≡ packets }
{}

/// Bytes without a fault are the joined spellings of just one list of pages: the accepted ones, which carry headers
/// and the packets that are given, all sound.
pub fn law_streams_are_spelled()
    ensures spelled { (bytes : List ℕ) → AreBytes bytes → fault_of bytes ≡ None →
        IsSpelled bytes (accepted bytes) (audio_packets (accepted bytes)) }
    ensures only { (ps qs : List Page) → All IsPage ps → All IsPage qs → flat_map spelling ps ≡ flat_map spelling qs → ps ≡ qs }
{}
