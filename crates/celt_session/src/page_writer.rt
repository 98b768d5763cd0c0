//! The pages of a stream: those of the two headers, and that of a packet (RFC 7845, sections 3 to 5).
ghost use Rattle.std.specs.Prelude.{◌≡◌, ◌^◌, ◌≤◌, ◌<◌, ◌⊎◌, ◌++◌, length};
ghost use Rattle.celt_base.specs.Outside.{HasCause, WritesAll};
ghost use Rattle.ogg_pages.specs.Spelling.{packet_page, spelling};
ghost use Rattle.celt_session.specs.Encoding.{head_page, tags_page, audio_page};

use celt_base::outside::{Failed, Sink};
use ogg_pages::writer::write_page;
use opus_packets::{write_head, write_tags};

/// Writes one page of one packet, made in the room.
fn write_one<K: Sink>(
    flags: u8,
    granule: i64,
    sequence: u32,
    packet: &[u8],
    room: &mut [u8],
    output: &mut K,
) -> Result<(), Failed>
    requires len { length packet.now ≤ 61440 }
    requires room { length room.old ≡ 65307 }
    ensures bytes { WritesAll (K.held output.old) (K.held output.new) result (spelling (packet_page flags granule sequence packet.now)) }
    ensures cause { HasCause (K.faults output.old) (K.faults output.new) result }
    ensures room { length room.new ≡ 65307 }
{
    let len = write_page(flags, granule, sequence, packet, room);
    let (page, _) = room.split_at(len);
    output.write_all(page)
}

/// Writes the pages of the two headers.
pub(crate) fn write_headers<K: Sink>(
    channels: u8,
    room: &mut [u8],
    output: &mut K,
) -> Result<(), Failed>
    requires channels { (channels ≡ 1) ⊎ (channels ≡ 2) }
    requires room { length room.old ≡ 65307 }
    ensures bytes { WritesAll (K.held output.old) (K.held output.new) result (spelling (head_page channels) ++ spelling tags_page) }
    ensures cause { HasCause (K.faults output.old) (K.faults output.new) result }
    ensures room { length room.new ≡ 65307 }
{
    let mut head = [0; 19];
    write_head(channels, 48_000, &mut head);
    let Ok(()) = write_one(2, 0, 0, &head, room, output) else {
        return Err(Failed);
    };
    let mut tags = [0; 20];
    write_tags(&mut tags);
    write_one(0, 0, 1, &tags, room, output)
}

/// Writes the page of the packet with this number, counted from 0.
pub(crate) fn write_audio<K: Sink>(
    flags: u8,
    granule: u64,
    number: u64,
    packet: &[u8],
    room: &mut [u8],
    output: &mut K,
) -> Result<(), Failed>
    requires granule { granule < 2 ^ 63 }
    requires number { number < 2 ^ 63 }
    requires len { length packet.now ≤ 61440 }
    requires room { length room.old ≡ 65307 }
    ensures bytes { WritesAll (K.held output.old) (K.held output.new) result (spelling (audio_page packet.now flags granule number)) }
    ensures cause { HasCause (K.faults output.old) (K.faults output.new) result }
    ensures room { length room.new ≡ 65307 }
{
    let sequence = ((number + 2) % (1 << 32)) as u32;
    write_one(flags, granule as i64, sequence, packet, room, output)
}
