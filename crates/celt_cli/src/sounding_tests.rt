//! Files of sound, encoded by a program apart from this one: for each row a sum over the whole stream.
use crate::music_tests::sum;
use crate::tests::{NONE_FAILS, attempt};
use celt_base::status::Status;
use std::alloc::{AllocError, Global};
use std::process::Abort;
use std::thread::Threads;

/// A file and its stream: the samples per channel, the signal, the bandwidth, the frames of a packet, the bytes of a frame,
/// and a sum over the stream.
type Row = (u32, u8, &'static str, &'static str, &'static str, u64);

/// Files of one channel in frames of 120 samples.
const MONO_120: [Row; 12] = [
    (240, 0, "nb", "1", "2", 0xba43_6446_1a64_92ae),
    (719, 1, "nb", "1", "160", 0xd798_a593_c23b_c80a),
    (481, 2, "nb", "1", "12", 0xe361_5793_8555_7cf6),
    (360, 4, "wb", "2", "8", 0xe7b6_d161_0beb_b1ea),
    (239, 0, "wb", "2", "80", 0xa813_72db_f817_2f53),
    (721, 1, "wb", "2", "3", 0x4633_c699_ad18_4693),
    (480, 2, "swb", "3", "37", 0xb579_70b7_cf2c_1998),
    (359, 4, "swb", "3", "40", 0xe1c0_23aa_2778_dd53),
    (241, 0, "swb", "3", "2", 0x3255_6297_c112_b4a3),
    (720, 1, "fb", "6", "160", 0xfbf1_6c14_9f98_1218),
    (479, 2, "fb", "6", "12", 0xc454_296e_41d6_1842),
    (361, 4, "fb", "6", "8", 0x5ca1_b1ff_bd5d_262a),
];

/// Files of two channels in frames of 120 samples.
const STEREO_120: [Row; 12] = [
    (240, 0, "nb", "1", "80", 0xe542_3bf5_b8bb_46d8),
    (719, 1, "nb", "1", "3", 0xfd1c_a82f_6755_dee6),
    (481, 2, "nb", "1", "37", 0xd9e7_00e2_0429_3e80),
    (360, 4, "wb", "2", "40", 0x1925_bbf5_b5e3_fe75),
    (239, 0, "wb", "2", "2", 0xa01f_fce9_9e64_7dc7),
    (721, 1, "wb", "2", "160", 0x23a6_585d_a03e_9a19),
    (480, 2, "swb", "3", "12", 0x7e51_e6b9_336b_dd96),
    (359, 4, "swb", "3", "8", 0x1c0a_0d20_e243_c480),
    (241, 0, "swb", "3", "80", 0xf697_6346_1fa9_aee6),
    (720, 1, "fb", "6", "3", 0x362b_5fe0_4f2c_1cf6),
    (479, 2, "fb", "6", "37", 0xec43_5c9e_a610_9995),
    (361, 4, "fb", "6", "40", 0xa2d6_dd1e_cf5f_9ef1),
];

/// Files of one channel in frames of 240 samples.
const MONO_240: [Row; 12] = [
    (600, 0, "nb", "1", "2", 0x49e4_d74c_2692_811b),
    (1559, 1, "nb", "1", "160", 0xb941_0cd3_c0b5_2959),
    (1081, 2, "nb", "1", "12", 0x16ca_9523_e859_105f),
    (840, 4, "wb", "2", "8", 0xe9b4_2d61_9caf_93b5),
    (599, 0, "wb", "2", "80", 0x2726_6cc0_b134_db69),
    (1561, 1, "wb", "2", "3", 0xd201_dbf0_dfa8_4914),
    (1080, 2, "swb", "3", "37", 0x740d_841d_33ef_ea81),
    (839, 4, "swb", "3", "40", 0x5cdb_408c_088b_bc0d),
    (601, 0, "swb", "3", "2", 0x0b09_69d8_0997_591c),
    (1560, 1, "fb", "6", "160", 0x8b92_0aef_2124_5531),
    (1079, 2, "fb", "6", "12", 0x10c0_378f_d06e_75f6),
    (841, 4, "fb", "6", "8", 0xf12b_58c8_4ff6_8ee9),
];

/// Files of two channels in frames of 240 samples.
const STEREO_240: [Row; 12] = [
    (600, 0, "nb", "1", "80", 0xa335_33b3_d211_4d1a),
    (1559, 1, "nb", "1", "3", 0x3dd3_9e82_c16a_5780),
    (1081, 2, "nb", "1", "37", 0x558d_c659_2387_cfda),
    (840, 4, "wb", "2", "40", 0x9c26_6dd5_3c20_ae41),
    (599, 0, "wb", "2", "2", 0xfbff_f700_690a_6f03),
    (1561, 1, "wb", "2", "160", 0x52ed_084d_3fa2_ea48),
    (1080, 2, "swb", "3", "12", 0xb492_d2a6_c078_db67),
    (839, 4, "swb", "3", "8", 0xab14_a7a1_d2ce_2a75),
    (601, 0, "swb", "3", "80", 0x55df_f9b4_d10f_0e2f),
    (1560, 1, "fb", "6", "3", 0x6831_e7b5_2a4c_1632),
    (1079, 2, "fb", "6", "37", 0xf75b_c88c_975a_4032),
    (841, 4, "fb", "6", "40", 0xa45c_8100_ace3_d4ce),
];

/// Files of one channel in frames of 480 samples.
const MONO_480: [Row; 12] = [
    (1320, 0, "nb", "1", "2", 0x18fe_9652_3b03_cf91),
    (3239, 1, "nb", "1", "160", 0x3279_e6e3_5662_0e2d),
    (2281, 2, "nb", "1", "12", 0x1e4b_0cbe_cc8f_0aa9),
    (1800, 4, "wb", "2", "8", 0x2586_7ea9_29cf_ed22),
    (1319, 0, "wb", "2", "80", 0x39e7_5559_5c4b_f71b),
    (3241, 1, "wb", "2", "3", 0x087b_3c8b_04be_9d4b),
    (2280, 2, "swb", "3", "37", 0x2010_fb65_06ee_2e92),
    (1799, 4, "swb", "3", "40", 0x3519_e17b_4ff4_a988),
    (1321, 0, "swb", "3", "2", 0x0235_6358_accc_da10),
    (3240, 1, "fb", "6", "160", 0x4cf8_f362_de63_c866),
    (2279, 2, "fb", "6", "12", 0x259e_e86f_0384_323c),
    (1801, 4, "fb", "6", "8", 0xdae3_ac8f_6127_65cc),
];

/// Files of two channels in frames of 480 samples.
const STEREO_480: [Row; 12] = [
    (1320, 0, "nb", "1", "80", 0x14bd_c017_8ca6_b0dc),
    (3239, 1, "nb", "1", "3", 0x6425_7afb_3fe5_e163),
    (2281, 2, "nb", "1", "37", 0x319f_8c29_c75d_2311),
    (1800, 4, "wb", "2", "40", 0x122a_f136_3381_d4aa),
    (1319, 0, "wb", "2", "2", 0x23ba_b687_4cda_3950),
    (3241, 1, "wb", "2", "160", 0x301a_f89f_08f4_0337),
    (2280, 2, "swb", "3", "12", 0x143e_821e_d097_0309),
    (1799, 4, "swb", "3", "8", 0xf163_6148_be33_f798),
    (1321, 0, "swb", "3", "80", 0x4cc3_588e_66cf_b2cd),
    (3240, 1, "fb", "6", "3", 0x5de4_74f2_d006_d150),
    (2279, 2, "fb", "6", "37", 0xa197_5105_61a2_07b1),
    (1801, 4, "fb", "6", "40", 0x7b24_e4cb_54b8_2ff9),
];

/// Files of one channel in frames of 960 samples.
const MONO_960: [Row; 12] = [
    (2760, 0, "nb", "1", "2", 0x6b46_e7bc_66d7_c591),
    (6599, 1, "nb", "1", "160", 0x5c3f_4fa2_8e00_c02b),
    (4681, 2, "nb", "1", "12", 0x54b5_f0a6_1ac6_e303),
    (3720, 4, "wb", "2", "8", 0x542e_992a_a67c_b7ea),
    (2759, 0, "wb", "2", "80", 0xd543_c21d_b268_bbc9),
    (6601, 1, "wb", "2", "3", 0xda8d_d3c0_d419_7205),
    (4680, 2, "swb", "3", "37", 0xf045_626e_1b97_c59e),
    (3719, 4, "swb", "3", "40", 0x736d_db27_c4db_ee6f),
    (2761, 0, "swb", "3", "2", 0xcc26_971a_84c1_16fb),
    (6600, 1, "fb", "6", "160", 0x3172_606b_c362_df60),
    (4679, 2, "fb", "6", "12", 0x6b81_4956_8b4f_3cdf),
    (3721, 4, "fb", "6", "8", 0x3c39_ae0f_3ecb_a611),
];

/// Files of two channels in frames of 960 samples.
const STEREO_960: [Row; 12] = [
    (2760, 0, "nb", "1", "80", 0x14a2_01fc_945a_dac4),
    (6599, 1, "nb", "1", "3", 0xe43f_752a_6965_be2c),
    (4681, 2, "nb", "1", "37", 0x8fc7_6f25_a1fa_9fa9),
    (3720, 4, "wb", "2", "40", 0xc4dd_41a8_b649_f515),
    (2759, 0, "wb", "2", "2", 0x8556_c128_5e68_0b44),
    (6601, 1, "wb", "2", "160", 0xfeb8_9b19_5eae_6565),
    (4680, 2, "swb", "3", "12", 0xe65d_3cc5_f86e_85e1),
    (3719, 4, "swb", "3", "8", 0x0b1f_4eb8_d3a6_6d5b),
    (2761, 0, "swb", "3", "80", 0x4dbb_8657_0915_ee81),
    (6600, 1, "fb", "6", "3", 0x6f05_3893_90c9_629d),
    (4679, 2, "fb", "6", "37", 0x26e2_ea49_6a93_1781),
    (3721, 4, "fb", "6", "40", 0x0d82_1432_5b8e_b502),
];

// A sample of noise, of a square wave, of a triangle in noise, or of noise that sets in.
fn sample_of(signal: u8, place: u32, number: u32) -> i16 {
    let noise = ((number >> 17) as i16).wrapping_sub(16_384);
    match signal {
        0 => noise,
        1 => {
            if place / 100 % 2 == 0 {
                32_767
            } else {
                -32_768
            }
        }
        2 => {
            let way = (place.wrapping_mul(40) % 8000) as i16;
            let triangle = way.wrapping_sub(4000).wrapping_abs().wrapping_sub(2000);
            triangle.wrapping_add(noise >> 8)
        }
        _ => { if place >= 1500 { noise } else { noise >> 9 } }
    }
}

// The header of a file of so many channels, whose samples go on to its end.
fn header(alloc: Global, channels: u8) -> Result<Vec<u8>, AllocError> {
    let mut bytes = Vec::from_slice(alloc, b"RIFF\xff\xff\xff\xffWAVEfmt \x10\0\0\0\x01\0")?;
    bytes.extend_from_slice(&[channels, 0, 0x80, 0xbb, 0, 0, 0, 0, 0, 0])?;
    bytes.extend_from_slice(&[2 * channels.min(2), 0, 16, 0])?;
    bytes.extend_from_slice(b"data\xff\xff\xff\xff")?;
    Ok(bytes)
}

// A file of so many channels, and so many samples of a signal in each.
fn file_of(alloc: Global, channels: u8, count: u32, signal: u8) -> Result<Vec<u8>, AllocError> {
    let mut bytes = header(alloc, channels)?;
    let mut number = 1000u32;
    for place in 0..count {
        for _ in 0..channels {
            number = number.wrapping_mul(1_664_525).wrapping_add(1_013_904_223);
            let sample = sample_of(signal, place, number);
            bytes.extend_from_slice(&sample.to_le_bytes())?;
        }
    }
    Ok(bytes)
}

// Encodes the file of a row, of so many channels and in frames of this size, and compares the sum over its stream.
fn expect_row(
    rt: &(impl Threads + Abort + AllocGlobal),
    channels: u8,
    frame: &'static str,
    row: Row,
) -> Result<(), AllocError> {
    let alloc = rt.alloc();
    let (count, signal, band, group, bytes, want) = row;
    let file = file_of(alloc, channels, count, signal)?;
    let words = [
        "encode", "--bytes", bytes, "--frame", frame, "--band", band, "--group", group,
    ];
    let got = attempt(rt, alloc, &words, &file, 1021, NONE_FAILS)?;
    assert_eq!(rt; got.status, Status::Done, "{count} samples");
    assert_eq!(rt; sum(&got.output), want, "{count} samples");
    Ok(())
}

fn expect_rows(
    rt: &(impl Threads + Abort + AllocGlobal),
    channels: u8,
    frame: &'static str,
    rows: &[Row],
) -> Result<(), AllocError> {
    for row in rows {
        expect_row(rt, channels, frame, *row)?;
    }
    Ok(())
}

#[test]
fn shortest_frames(rt: HostRuntime) -> Result<(), AllocError> {
    expect_rows(&rt, 1, "120", &MONO_120)?;
    expect_rows(&rt, 2, "120", &STEREO_120)
}

#[test]
fn short_frames(rt: HostRuntime) -> Result<(), AllocError> {
    expect_rows(&rt, 1, "240", &MONO_240)?;
    expect_rows(&rt, 2, "240", &STEREO_240)
}

#[test]
fn long_frames(rt: HostRuntime) -> Result<(), AllocError> {
    expect_rows(&rt, 1, "480", &MONO_480)?;
    expect_rows(&rt, 2, "480", &STEREO_480)
}

#[test]
fn longest_frames(rt: HostRuntime) -> Result<(), AllocError> {
    expect_rows(&rt, 1, "960", &MONO_960)?;
    expect_rows(&rt, 2, "960", &STEREO_960)
}
