//! The plan that the settings and the channels of a file give.
ghost use Rattle.std.specs.Prelude.{◌≡◌, ◌≤◌, ◌⊎◌};
ghost use Rattle.celt_session.specs.Frames.{kind_of};
ghost use Rattle.celt_session.specs.Encoding.{coding_of as coding_for, toc_of};
ghost use Rattle.celt_session.specs.Encodings.{AreSettings};

use crate::batching::samples_in;
use crate::coding::{coding_of, toc};
use crate::lines::end_of;
use crate::plan::Plan;
use crate::settings::Settings;
use celt_base::kind::Kind;

/// The kind that the first byte of a packet names.
fn kind_from(toc: u8) -> Kind
    ensures { result ≡ kind_of toc }
{
    let config = toc / 8;
    Kind {
        lm: config % 4,
        channels: 1 + toc / 4 % 2,
        end: end_of(u32::from(config)),
    }
}

/// How a file of so many channels is cut with these settings.
pub(crate) fn plan_of(settings: Settings, channels: u8) -> Plan
    requires settings { AreSettings settings }
    requires channels { (channels ≡ 1) ⊎ (channels ≡ 2) }
    ensures toc { result.toc ≡ toc_of (coding_for settings) channels }
    ensures bytes { result.bytes ≡ settings.bytes }
    ensures group { result.group ≡ settings.group }
    ensures channels { result.kind.channels ≡ channels }
{
    let toc = toc(coding_of(settings), channels);
    let kind = kind_from(toc);
    Plan {
        toc,
        kind,
        samples: samples_in(kind),
        bytes: settings.bytes as usize,
        group: settings.group as usize,
    }
}
