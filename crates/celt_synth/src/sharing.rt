//! What an encoder and its decoder share after a frame (RFC 6716, sections 4.3.2, 4.3.4.3 and 4.3.7.1).
ghost use Rattle.std.specs.Prelude.{◌≡◌, ℕ, Option, nat_eq, if◌then◌else◌};
ghost use Rattle.celt_base.specs.Energies.{AreEnergies};
ghost use Rattle.frame_symbols.specs.Frames.{Sound};
ghost use Rattle.frame_symbols.specs.Held.{HoldsFrame};
ghost use Rattle.frame_symbols.specs.HeldSymbols.{AreOf, answers_in};
ghost use Rattle.celt_base.specs.declared.kind.Kind.{Kind as FrameKind};
ghost use Rattle.celt_synth.specs.Readings.{heard_of, share_by};
ghost use Rattle.celt_synth.specs.Shared.{shared_in, energies_in, setting_in};
ghost use Rattle.celt_synth.specs.Shared.{share as shared_by};

use crate::rows::{keep_energies, silence, take_greater};
use band_energy::apply;
use celt_base::kind::Kind;
use celt_base::state::{Setting, Shared};
use frame_symbols::Symbols;

// The setting from which the first fade of the next frame goes.
pub fn setting_before(kind: Kind, now: Setting, frame: Setting) -> Setting
    ensures { result ≡ (if nat_eq kind.lm 0 then now else frame) }
{
    if kind.lm == 0 { now } else { frame }
}

// The energies of a frame that was read, from those of the frame before.
pub fn hear_energies(energies: &mut [[i64; 21]; 2], kind: Kind, s: &Symbols)
    requires energies { AreEnergies energies.old }
    requires held { (value : Option Sound) × HoldsFrame kind s.now.fields value }
    ensures value { (value : Option Sound) → HoldsFrame kind s.now.fields value → energies.new ≡ energies_in kind (heard_of kind s.now.range value) energies.old }
    ensures bounds { AreEnergies energies.new }
{
    take_greater(energies, kind);
    if s.silent() {
        return silence(energies, kind);
    }
    apply(energies, kind, s.intra(), s.allocation(), s.energy());
}

// The setting of its post-filter.
fn hear_setting(s: &Symbols) -> Setting
    ensures { (kind : FrameKind) (value : Option Sound) → HoldsFrame kind s.now.fields value → result ≡ setting_in (heard_of kind s.now.range value) }
{
    if s.silent() {
        return Setting::off();
    }
    s.setting()
}

/// What an encoder and its decoder share after a frame, from what they shared before it and from its symbols. `s` holds the
/// symbols of a frame of this kind. No sample and no shape counts for it.
pub fn share(kind: Kind, s: &Symbols, before: &Shared) -> Shared
    requires held { (value : Option Sound) × HoldsFrame kind s.now.fields value }
    ensures held { (value : Option Sound) → HoldsFrame kind s.now.fields value → shared_in result ≡ shared_by kind (heard_of kind s.now.range value) (shared_in before.entry.now) }
    ensures of { (len : ℕ) → AreOf kind len s.now → shared_in result ≡ share_by kind len (answers_in s.now) (shared_in before.entry.now) }
{
    let mut energies = before.energies;
    hear_energies(&mut energies, kind, s);
    keep_energies(&mut energies, kind);
    let setting = hear_setting(s);
    Shared {
        range: s.range(),
        energies,
        seed: s.range(),
        before: setting_before(kind, before.now, setting),
        now: setting,
    }
}
