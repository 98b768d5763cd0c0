//! Rows: streams of few pages, each with what it gives.
//!
//! A row is a line of words. First its name and the number of its pages. Then each page: a word of `known_page`, or
//! these: what is broken (letters of `C` capture, `V` version, `K` a bit of the checksum, `S` serial number, or `-`
//! for nothing), flags, granule position, sequence number, the number of packets, and each packet. A packet is
//! hexadecimal digits, behind a point how many bytes 0 follow them, and `+` where it is open behind the page; `-` is
//! one of no bytes. Then what stands behind the pages: `.` for nothing, digits, or `-` and how many bytes are missing
//! at the end. Then the digest of the stream's bytes; how many pages are accepted; the digest of what they give; and
//! the fault, that of the end too: number, place, and rule or configuration.
//!
//! A digest begins at 0. Each number makes it 31 times itself plus the number, modulo 2^32. What pages give is for
//! each of them how many packets end on it, the digest of their lengths and bytes, and both numbers of the span.
//!
//! Streams of more than 60,000 bytes stand in a table of their own.
//!
//! # Where the numbers come from
//!
//! From a program apart from this one, which wrote the pages of each row and decoded them.
//!
//! - The first digest is that of the bytes which it wrote. The packets are those that it was given to write.
//! - The fault is the one that it tells. As many pages are accepted as it decodes, one more each time, without a
//!   fault but that they end there.
//! - As many samples of a page are written as it writes more of the pages up to that one than of those before. Their
//!   places are those at which they stand among all samples of the page, which it writes of the same packets with
//!   pre-skip 0 and no last page. These are all of them on 267 pages in 257 rows, and some of them on 9 pages in
//!   8 rows, whose packets are noise: what is written stands at one place alone among all.
//! - Of every other page nothing is written: of 15 pages on which audio packets end, in 12 rows, of those on which
//!   none does, and of headers. Both numbers are 0 there by the definition of a span.
//!
//! # Tests in pairs
//!
//! The rows `page-0:`, `page-1:` and `page-3:` of both tables break each test that such a page can be given, alone and
//! with each other one. A test of headers that has several causes stands with each of them; of the rules of packets
//! one stands for all, which have rows of their own. Where packets break two tests the row stands in both orders, and
//! with one packet for both. `not-there` has the broken byte cut off. Page 3 is an audio page behind another.
//!
//! | Word | What is broken |
//! |---|---|
//! | `capture`, `version`, `checksum`, `serial`, `gap` | that field; the sequence number |
//! | `cut` | the page is cut |
//! | `first` | flag 2 behind page 0 |
//! | `continued`, `not-continued` | flag 1 where no packet is open, no flag 1 where one is |
//! | `left-open` | flag 4 where a packet stays open |
//! | `too-long`, `open-too-long` | a packet of 61441 bytes, an open one of 61455 |
//! | `rule`, `mode` | a packet of code 1 with an even length, a packet of configuration 0 |
//! | `granule-below` | a last page keeps fewer samples than were given before |
//! | `granule-start` | the stream would begin before 0 |
//! | `ended` | the page before was the last |
//!
//! On page 0 there are further `not-first` (no flag 2), `empty` (no segments), `unfinished` (its packet stays open),
//! `packets` (two), `short` (18 bytes), `letters`, `version-16`, `family`, `channels` and `last` (flag 4). On page 1
//! there are `short` (seven bytes), `letters`, `behind` (a segment behind the comment header) and `no-end` (flag 4, and
//! the comment header does not end).
//!
//! These pairs cannot be on one page:
//!
//! - `continued` and `not-continued`: a packet is open or none is.
//! - On page 0 `serial`, `gap`, `not-continued` and `ended` with any: they speak of pages before.
//! - On page 0 `short` and `family`: 18 bytes have no family.
//! - On page 0 `empty` with all that speak of its packets.
//! - On page 1 `not-continued` and `ended` with any: an accepted page 0 leaves no packet open and is not the last.
//!   `not-continued` stands in the rows `page-2:` instead, on a second page of the comment header, but for `short`,
//!   since 255 bytes are there already.
//! - On page 1 `no-end` with `short`, `letters` and `behind`: these are tested where the comment header ends.
//! - On page 3 `ended` and `not-continued`: a last page leaves no packet open.
//! - On page 3 `granule-start` with `granule-below` and `left-open`: it asks for no flag 4, and they for flag 4.
//!
//! And these cannot be without a third: on page 0 `left-open` is `last` too, and `unfinished` or `packets`, so that
//! `unfinished` with `last` is `left-open`, and `short` with either is `packets` too; on page 1 it is `no-end`,
//! or `behind` where the comment header ends, and `short` is `letters` too; on page 3 `open-too-long` with
//! `granule-below` is `left-open` too.

/// A page that many rows have, as words, or nothing.
pub(crate) fn known_page(word: &str) -> &'static str {
    match word {
        "head" => "- 2 0 0 1 4f707573486561640101000080bb.5",
        "tags" => "- 0 0 1 1 4f70757354616773",
        "audio" => "- 0 960 2 1 f8fffe",
        "last" => "- 4 960 2 1 f8fffe",
        _ => "",
    }
}

#[rattlefmt::skip]
pub(crate) const ROWS: &str = "\
one-packet 3 head tags last . 1071024826 3 322792211 0 0 0
two-pages-from-granule-10000-trimmed 4 head tags - 0 10000 2 1 f8e0b773bac3e4fe2b4b6f0905448c94deb7e58a01ff79f9a4b2 - 4 10500 3 1 f8811b7ebee9073fa7c6be601741a66fb41850b6885487 . 4006210777 4 2283492309 0 0 0
pre-skip 4 - 2 0 0 1 4f707573486561640101780080bb.5 tags - 0 960 2 1 f8145c2ac7954a64fc3b524f08ea3dc298fd6f83 - 4 1920 3 1 f82c27cf2d34ad4668c006539f3d783aaa4f8100bd . 2059754165 4 4236842635 0 0 0
pre-skip-across-pages 4 - 2 0 0 1 4f707573486561640101e80380bb.5 tags - 0 960 2 1 f8684d9c422c5b74a79ecf444b7b93903e3bac97d519ceb89e70db9aa63f - 4 1920 3 1 f8d08c304895045b50bbf28c406fd0d96788d748454cc55c . 4190323338 4 3703577460 0 0 0
pre-skip-of-one-page 4 - 2 0 0 1 4f707573486561640101c00380bb.5 tags audio - 4 1920 3 1 f8fffe . 3290490354 4 4026593510 0 0 0
pre-skip-beyond-the-end 4 - 2 0 0 1 4f707573486561640101881380bb.5 tags audio - 4 1920 3 1 f8fffe . 3282725977 4 4026592550 0 0 0
pre-skip-of-all 4 - 2 0 0 1 4f707573486561640101800780bb.5 tags audio - 4 1920 3 1 f8fffe . 1547065773 4 4026592550 0 0 0
pre-skip-of-all-but-one 4 - 2 0 0 1 4f7075734865616401017f0780bb.5 tags - 0 960 2 1 f826ad7890d1ba5e4ba2c152c6c4daab00379fa4 - 4 1920 3 1 f8146192b0159b03835f34d4fe917e8d4ee7420f355900ea1b6abf37e8b62d . 261828166 4 2395398929 0 0 0
pre-skip-and-trimming 4 - 2 0 0 1 4f707573486561640101640080bb.5 tags - 0 960 2 1 f868a3b8d3ddc4b3476c8aebd0e8ac99deaeac1339f0312ae7377f0974b854 - 4 1000 3 1 f8951489c8082884d488fd999776ff42b01347c33a7101d79fce . 1178315517 4 1986721150 0 0 0
pre-skip-beyond-a-trimmed-end 4 - 2 0 0 1 4f707573486561640101e80380bb.5 tags audio - 4 1000 3 1 f8fffe . 870030786 4 4026592550 0 0 0
pre-skip-into-the-last-page 4 - 2 0 0 1 4f707573486561640101d40380bb.5 tags - 0 960 2 1 f805fc7de1f4c29aeb2f5483e12a939b275950723a - 4 1000 3 1 f83de806d2d5523104d4242886076ab7c673e715b1b6de275bd707cc2f4f6b . 15498069 4 602164097 0 0 0
greatest-pre-skip 3 - 2 0 0 1 4f707573486561640101ffff80bb.5 tags last . 2523696521 3 322791251 0 0 0
trimmed-to-the-pages-before 4 head tags audio - 4 960 3 1 f8fffe . 1830017458 4 618205414 0 0 0
trimmed-below-the-pages-before 4 head tags audio - 4 959 3 1 f8fffe . 381141104 3 322792211 13 3 0
trimmed-to-one-sample 4 head tags - 0 960 2 1 f8bccb20c39caa221e3a94d2b5834bd1ff8f7090882f4a0c1fc52d713f80c395 - 4 961 3 1 f8a06ca6d773db8b8cedddd5fcfc6d1801a246f6222dee4e2f . 542119468 4 1019129237 0 0 0
only-page-trimmed-to-0 3 head tags - 4 0 2 1 f8fffe . 2628171718 3 322791251 0 0 0
only-page-trimmed-to-1 3 head tags - 4 1 2 1 f85fccb57e9ca6cf0a2d10617418c1f1830736fcbef3f166779a3d . 1176640086 3 3695194028 0 0 0
only-page-with-granule--1 3 head tags - 4 -1 2 1 f8fffe . 3041790651 2 0 13 2 0
only-page-past-its-samples 3 head tags - 4 5000 2 1 f8fffe . 2972373901 3 322792211 0 0 0
last-granule-past-the-samples 4 head tags audio - 4 99999 3 1 f8fffe . 793994800 4 618206374 0 0 0
granules-between-are-passed-over 5 head tags audio - 0 -5 3 1 f8fffe - 4 2880 4 1 f8fffe . 189682358 5 1183825081 0 0 0
first-granule-below-its-samples 4 head tags - 0 959 2 1 f8fffe - 4 1919 3 1 f8fffe . 4244014653 2 0 13 2 0
first-granule-0 4 head tags - 0 0 2 1 f8fffe - 4 960 3 1 f8fffe . 2138334436 2 0 13 2 0
least-granule-on-a-first-page 4 head tags - 0 -9223372036854775808 2 1 f8fffe - 4 960 3 1 f8fffe . 3962462467 2 0 13 2 0
least-granule-on-the-only-page 3 head tags - 4 -9223372036854775808 2 1 f8fffe . 1204185413 2 0 13 2 0
least-granule-on-a-later-last-page 4 head tags audio - 4 -9223372036854775808 3 1 f8fffe . 233408147 3 322792211 13 3 0
greatest-granule-on-a-first-page 4 head tags - 0 9223372036854775807 2 1 f8fffe - 4 9223372036854775807 3 1 f8fffe . 2107157452 4 618205414 0 0 0
greatest-granule-on-the-only-page 3 head tags - 4 9223372036854775807 2 1 f8fffe . 2199649618 3 322792211 0 0 0
greatest-granule-on-a-last-page 4 head tags audio - 4 9223372036854775807 3 1 f8fffe . 2663431050 4 618206374 0 0 0
far-start-last-granule-0 4 head tags - 0 9223372036854775807 2 1 f8fffe - 4 0 3 1 f8fffe . 1991561752 3 322792211 13 3 0
sequence-numbers-over-the-end 4 - 2 0 4294967294 1 4f707573486561640101000080bb.5 - 0 0 4294967295 1 4f70757354616773 - 0 960 0 1 f8fffe - 4 1920 1 1 f8fffe . 1160125955 4 618206374 0 0 0
sequence-number-not-over-the-end 3 - 2 0 4294967294 1 4f707573486561640101000080bb.5 - 0 0 4294967295 1 4f70757354616773 - 4 960 4294967295 1 f8fffe . 1368433948 2 0 5 2 0
further-flags 3 - 250 0 0 1 4f707573486561640101000080bb.5 - 248 0 1 1 4f70757354616773 - 252 960 2 1 f8fffe . 78671491 3 322792211 0 0 0
longer-header 3 - 2 0 0 1 4f707573486561640101000080bb0000000000616263 tags last . 623467451 3 322792211 0 0 0
version-15 3 - 2 0 0 1 4f707573486561640f01000080bb.5 tags last . 1857522846 3 322792211 0 0 0
version-0 3 - 2 0 0 1 4f707573486561640001000080bb.5 tags last . 411846353 3 322792211 0 0 0
two-channels 3 - 2 0 0 1 4f707573486561640102000080bb.5 tags last . 498940663 3 322792211 0 0 0
long-comments 3 head - 0 0 1 1 4f70757354616773.300 last . 432036154 3 322792211 0 0 0
comments-over-two-pages 4 head - 0 0 1 1 4f70757354616773.247+ - 1 0 2 1 616263 - 4 960 3 1 f8fffe . 433473380 4 322792211 0 0 0
comments-over-three-pages 5 head - 0 0 1 1 4f70757354616773.502+ - 1 0 2 1 .255+ - 1 0 3 1 - - 4 960 4 1 f8fffe . 4129162274 5 322792211 0 0 0
comments-pages-without-segments 10 head - 0 0 1 0 - 0 0 2 0 - 0 0 3 1 4f70757354616773.247+ - 1 0 4 0 - 1 0 5 1 78 - 0 0 6 0 - 0 960 7 1 f8fffe - 0 0 8 0 - 4 7 9 0 . 2430356753 10 565618707 0 0 0
no-audio 2 head - 4 0 1 1 4f70757354616773 . 3971584223 2 0 0 0 0
no-audio-last-page-without-segments 3 head tags - 4 0 2 0 . 419230321 3 0 0 0 0
comments-end-on-a-last-page 3 head - 0 0 1 1 4f70757354616773.247+ - 5 0 2 1 616263 . 3529801642 3 0 0 0 0
comments-without-segments-on-a-last-page 2 head - 4 0 1 0 . 141117062 1 0 9 1 0
comments-go-on-on-a-last-page-without-segments 3 head - 0 0 1 1 4f70757354616773.247+ - 5 0 2 0 . 4152233300 2 0 6 2 0
comments-of-7-bytes 3 head - 0 0 1 1 4f707573546167 last . 3672934942 1 0 9 1 0
empty-comments 3 head - 0 0 1 1 - last . 2641799421 1 0 9 1 0
other-comments 3 head - 0 0 1 1 4f7075735461677a last . 1858967505 1 0 9 1 0
lower-case-comments 3 head - 0 0 1 1 6f70757354616773 last . 2493966270 1 0 9 1 0
segment-behind-the-comments 3 head - 0 0 1 2 4f70757354616773 f8fffe last . 1696727417 1 0 9 1 0
empty-segment-behind-the-comments 3 head - 0 0 1 2 4f70757354616773 - last . 2215103906 1 0 9 1 0
open-segment-behind-the-comments 3 head - 0 0 1 2 4f70757354616773 .255+ last . 1302102708 1 0 9 1 0
other-comments-over-two-pages 4 head - 0 0 1 1 4f7075735461677a.247+ - 1 0 2 1 616263 - 4 960 3 1 f8fffe . 1269052725 2 0 9 2 0
segment-behind-comments-over-two-pages 4 head - 0 0 1 1 4f70757354616773.247+ - 1 0 2 2 616263 f8fffe - 4 960 3 1 f8fffe . 871565810 2 0 9 2 0
comments-left-open-on-a-last-page 2 head - 4 0 1 1 4f70757354616773.247+ . 2601643746 1 0 6 1 0
first-flag-clear 3 - 0 0 0 1 4f707573486561640101000080bb.5 tags last . 3078743523 0 0 7 0 0
page-0-continued 3 - 3 0 0 1 4f707573486561640101000080bb.5 tags last . 4052463883 0 0 6 0 0
page-0-continued-first-flag-clear 3 - 1 0 0 1 4f707573486561640101000080bb.5 tags last . 3637301466 0 0 6 0 0
page-0-continued-and-family-1 3 - 3 0 0 1 4f707573486561640101000080bb0000000001 tags last . 1569038653 0 0 6 0 0
page-0-last 1 - 6 0 0 1 4f707573486561640101000080bb.5 . 3061080548 0 0 9 0 0
page-0-last-and-family-1 1 - 6 0 0 1 4f707573486561640101000080bb0000000001 . 3895586900 0 0 8 0 0
page-0-last-and-3-channels 1 - 6 0 0 1 4f707573486561640103000080bb.5 . 1515243859 0 0 7 0 0
page-0-last-left-open 1 - 6 0 0 1 4f707573486561640101000080bb.241+ . 1715611679 0 0 6 0 0
page-0-left-open 2 - 2 0 0 1 4f707573486561640101000080bb.241+ - 1 0 1 1 78 . 1895772417 0 0 7 0 0
page-0-without-segments 2 - 2 0 0 0 tags . 1611650637 0 0 7 0 0
page-0-with-two-packets 2 - 2 0 0 2 4f707573486561640101000080bb.5 78 tags . 2312653147 0 0 7 0 0
page-0-with-an-empty-packet-behind 2 - 2 0 0 2 4f707573486561640101000080bb.5 - tags . 35027179 0 0 7 0 0
header-of-18-bytes 2 - 2 0 0 1 4f707573486561640101000080bb.4 tags . 2100363114 0 0 7 0 0
empty-header 2 - 2 0 0 1 - tags . 1685108242 0 0 7 0 0
other-letters 2 - 2 0 0 1 4f707573486561780101000080bb.5 tags . 2629770463 0 0 7 0 0
version-16 2 - 2 0 0 1 4f707573486561641001000080bb.5 tags . 1715925152 0 0 7 0 0
version-16-and-family-1 2 - 2 0 0 1 4f707573486561641001000080bb0000000001 tags . 1213381698 0 0 7 0 0
family-1 2 - 2 0 0 1 4f707573486561640101000080bb0000000001 tags . 3728281994 0 0 8 0 0
family-255 2 - 2 0 0 1 4f707573486561640101000080bb00000000ff tags . 1750164267 0 0 8 0 0
family-1-and-3-channels 2 - 2 0 0 1 4f707573486561640103000080bb0000000001 tags . 3530056767 0 0 8 0 0
no-channel 2 - 2 0 0 1 4f707573486561640100000080bb.5 tags . 1113419980 0 0 7 0 0
three-channels 2 - 2 0 0 1 4f707573486561640103000080bb.5 tags . 2444927825 0 0 7 0 0
first-flag-clear-and-family-1 2 - 0 0 0 1 4f707573486561640101000080bb0000000001 tags . 3574647785 0 0 7 0 0
header-over-two-segments 3 - 2 0 0 1 4f707573486561640101000080bb.305 tags last . 3514217430 3 322792211 0 0 0
two-packets-a-page 3 head tags - 4 1920 2 2 f8fffe f8fffe . 1150086452 3 2283813926 0 0 0
packets-of-all-durations 3 head tags - 4 3000 2 4 e000 e800 f000 f800 . 2143775300 3 1793185780 0 0 0
packet-of-one-byte 3 head tags - 4 960 2 1 f8 . 3501489916 3 298870 0 0 0
48-frames-of-one-byte 3 head tags - 4 5760 2 1 e330.48 . 1612324276 3 3869092990 0 0 0
four-frames-of-lengths-given 3 head tags - 4 3840 2 1 fb84010002.4 . 2392837059 3 896127088 0 0 0
stereo-packet-in-a-mono-stream 3 head tags - 4 960 2 1 fcfffe . 4063962945 3 326486295 0 0 0
bad-packet-rule-1 3 head tags - 4 960 2 1 - . 3209025794 2 0 11 0 1
bad-packet-rule-2 3 head tags - 4 960 2 1 f8.1276 . 4217354166 2 0 11 0 2
bad-packet-rule-3 3 head tags - 4 960 2 1 f900 . 601410902 2 0 11 0 3
bad-packet-rule-4 3 head tags - 4 960 2 1 fa . 2481172822 2 0 11 0 4
bad-packet-rule-5 3 head tags - 4 960 2 1 fb00 . 3526796617 2 0 11 0 5
bad-packet-rule-6 3 head tags - 4 960 2 1 fb . 552677974 2 0 11 0 6
bad-packet-rule-7 3 head tags - 4 960 2 1 fb8205 . 3650802198 2 0 11 0 7
49-frames 3 head tags - 4 5760 2 1 e331.49 . 4016694673 2 0 11 0 5
longest-frame 3 head tags - 4 960 2 1 f8.1275 . 912146699 3 2409328163 0 0 0
configuration-0 3 head tags - 4 960 2 1 00fffe . 3947371829 2 0 12 0 0
configuration-12 3 head tags - 4 960 2 1 60fffe . 3395499493 2 0 12 0 12
configuration-15 3 head tags - 4 960 2 1 78fffe . 633524415 2 0 12 0 15
configuration-16 3 head tags - 4 960 2 1 80fffe . 143595370 3 211968851 0 0 0
third-packet-of-configuration-0 5 head tags audio - 0 1920 3 1 f8fffe - 4 2880 4 1 00fffe . 96402972 4 618206374 12 2 0
bad-packet-before-another-mode 3 head tags - 4 960 2 2 f900 00ff . 2714677856 2 0 11 0 3
another-mode-before-a-bad-packet 3 head tags - 4 960 2 2 00ff f900 . 1026890122 2 0 12 0 0
bad-packet-of-another-mode 3 head tags - 4 960 2 1 0100 . 986832688 2 0 11 0 3
packet-of-253-bytes 3 head tags - 4 960 2 1 f8.252 . 1386314767 3 2359845498 0 0 0
packet-of-254-bytes 3 head tags - 4 960 2 1 f8.253 . 1091884963 3 4040407333 0 0 0
packet-of-255-bytes 3 head tags - 4 960 2 1 f8.254 . 4134310492 3 1356036088 0 0 0
packet-of-255-bytes-over-two-pages 4 head tags - 0 -1 2 1 f8.254+ - 5 960 3 1 - . 1981509989 4 1356036088 0 0 0
packet-of-256-bytes 3 head tags - 4 960 2 1 f8.255 . 3490475438 3 2316523303 0 0 0
packet-of-256-bytes-over-two-pages 4 head tags - 0 -1 2 1 f8.254+ - 5 960 3 1 00 . 1136926955 4 2316523303 0 0 0
packet-of-257-bytes 3 head tags - 4 960 2 1 f8.256 . 3581998450 3 142610038 0 0 0
packet-of-257-bytes-over-two-pages 4 head tags - 0 -1 2 1 f8.254+ - 5 960 3 1 0000 . 3697729986 4 142610038 0 0 0
packet-of-508-bytes 3 head tags - 4 960 2 1 f8.507 . 1418129665 3 814754595 0 0 0
packet-of-508-bytes-over-two-pages 4 head tags - 0 -1 2 1 f8.254+ - 5 960 3 1 .253 . 2761130200 4 814754595 0 0 0
packet-of-509-bytes 3 head tags - 4 960 2 1 f8.508 . 3676718452 3 3689079162 0 0 0
packet-of-509-bytes-over-two-pages 4 head tags - 0 -1 2 1 f8.254+ - 5 960 3 1 .254 . 970975202 4 3689079162 0 0 0
packet-of-510-bytes 3 head tags - 4 960 2 1 f8.509 . 3776429689 3 4117166629 0 0 0
packet-of-510-bytes-over-two-pages 4 head tags - 0 -1 2 1 f8.254+ - 5 960 3 1 .255 . 3744676080 4 4117166629 0 0 0
packet-of-510-bytes-over-many-pages 5 head tags - 0 -1 2 1 f8.254+ - 1 -1 3 1 .255+ - 5 960 4 1 - . 846238479 5 4117166629 0 0 0
packet-of-511-bytes 3 head tags - 4 960 2 1 f8.510 . 4267096072 3 31880952 0 0 0
packet-of-511-bytes-over-two-pages 4 head tags - 0 -1 2 1 f8.254+ - 5 960 3 1 .256 . 2301863470 4 31880952 0 0 0
packet-of-511-bytes-over-many-pages 5 head tags - 0 -1 2 1 f8.254+ - 1 -1 3 1 .255+ - 5 960 4 1 00 . 3355608396 5 31880952 0 0 0
packet-of-512-bytes 3 head tags - 4 960 2 1 f8.511 . 1671063257 3 1072044071 0 0 0
packet-of-512-bytes-over-two-pages 4 head tags - 0 -1 2 1 f8.254+ - 5 960 3 1 .257 . 1341500243 4 1072044071 0 0 0
packet-of-512-bytes-over-many-pages 5 head tags - 0 -1 2 1 f8.254+ - 1 -1 3 1 .255+ - 5 960 4 1 0000 . 783710747 5 1072044071 0 0 0
packet-of-763-bytes 3 head tags - 4 960 2 1 f8.762 . 2276516898 3 3501665276 0 0 0
packet-of-763-bytes-over-two-pages 4 head tags - 0 -1 2 1 f8.254+ - 5 960 3 1 .508 . 3972581047 4 3501665276 0 0 0
packet-of-763-bytes-over-many-pages 5 head tags - 0 -1 2 1 f8.254+ - 1 -1 3 1 .255+ - 5 960 4 1 .253 . 3351994051 5 3501665276 0 0 0
packet-of-764-bytes 3 head tags - 4 960 2 1 f8.763 . 691753149 3 2849238051 0 0 0
packet-of-764-bytes-over-two-pages 4 head tags - 0 -1 2 1 f8.254+ - 5 960 3 1 .509 . 2362581537 4 2849238051 0 0 0
packet-of-764-bytes-over-many-pages 5 head tags - 0 -1 2 1 f8.254+ - 1 -1 3 1 .255+ - 5 960 4 1 .254 . 4141389588 5 2849238051 0 0 0
packet-of-765-bytes 3 head tags - 4 960 2 1 f8.764 . 1139267557 3 2740805754 0 0 0
packet-of-765-bytes-over-two-pages 4 head tags - 0 -1 2 1 f8.254+ - 5 960 3 1 .510 . 3672180306 4 2740805754 0 0 0
packet-of-765-bytes-over-many-pages 6 head tags - 0 -1 2 1 f8.254+ - 1 -1 3 1 .255+ - 1 -1 4 1 .255+ - 5 960 5 1 - . 3467796837 6 2740805754 0 0 0
packet-of-766-bytes 3 head tags - 4 960 2 1 f8.765 . 2171232548 3 230308645 0 0 0
packet-of-766-bytes-over-two-pages 4 head tags - 0 -1 2 1 f8.254+ - 5 960 3 1 .511 . 290939581 4 230308645 0 0 0
packet-of-766-bytes-over-many-pages 6 head tags - 0 -1 2 1 f8.254+ - 1 -1 3 1 .255+ - 1 -1 4 1 .255+ - 5 960 5 1 00 . 2551280851 6 230308645 0 0 0
packet-of-767-bytes 3 head tags - 4 960 2 1 f8.766 . 2520069035 3 322532856 0 0 0
packet-of-767-bytes-over-two-pages 4 head tags - 0 -1 2 1 f8.254+ - 5 960 3 1 .512 . 4244609905 4 322532856 0 0 0
packet-of-767-bytes-over-many-pages 6 head tags - 0 -1 2 1 f8.254+ - 1 -1 3 1 .255+ - 1 -1 4 1 .255+ - 5 960 5 1 0000 . 1611137424 6 322532856 0 0 0
packet-of-1018-bytes 3 head tags - 4 960 2 1 f8.1017 . 1518615075 3 1854262561 0 0 0
packet-of-1018-bytes-over-two-pages 4 head tags - 0 -1 2 1 f8.254+ - 5 960 3 1 .763 . 3951282784 4 1854262561 0 0 0
packet-of-1018-bytes-over-many-pages 6 head tags - 0 -1 2 1 f8.254+ - 1 -1 3 1 .255+ - 1 -1 4 1 .255+ - 5 960 5 1 .253 . 1002213674 6 1854262561 0 0 0
packet-of-1019-bytes 3 head tags - 4 960 2 1 f8.1018 . 2459100588 3 208218876 0 0 0
packet-of-1019-bytes-over-two-pages 4 head tags - 0 -1 2 1 f8.254+ - 5 960 3 1 .764 . 225876633 4 208218876 0 0 0
packet-of-1019-bytes-over-many-pages 6 head tags - 0 -1 2 1 f8.254+ - 1 -1 3 1 .255+ - 1 -1 4 1 .255+ - 5 960 5 1 .254 . 1004108352 6 208218876 0 0 0
packet-of-1020-bytes 3 head tags - 4 960 2 1 f8.1019 . 4288877957 3 517451043 0 0 0
packet-of-1020-bytes-over-two-pages 4 head tags - 0 -1 2 1 f8.254+ - 5 960 3 1 .765 . 3440996909 4 517451043 0 0 0
packet-of-1020-bytes-over-many-pages 7 head tags - 0 -1 2 1 f8.254+ - 1 -1 3 1 .255+ - 1 -1 4 1 .255+ - 1 -1 5 1 .255+ - 5 960 6 1 - . 1975113558 7 517451043 0 0 0
packet-of-1021-bytes 3 head tags - 4 960 2 1 f8.1020 . 672756478 3 3809992570 0 0 0
packet-of-1021-bytes-over-two-pages 4 head tags - 0 -1 2 1 f8.254+ - 5 960 3 1 .766 . 3527081849 4 3809992570 0 0 0
packet-of-1021-bytes-over-many-pages 7 head tags - 0 -1 2 1 f8.254+ - 1 -1 3 1 .255+ - 1 -1 4 1 .255+ - 1 -1 5 1 .255+ - 5 960 6 1 00 . 2389166372 7 3809992570 0 0 0
packet-of-1022-bytes 3 head tags - 4 960 2 1 f8.1021 . 577295394 3 969767973 0 0 0
packet-of-1022-bytes-over-two-pages 4 head tags - 0 -1 2 1 f8.254+ - 5 960 3 1 .767 . 82989848 4 969767973 0 0 0
packet-of-1022-bytes-over-many-pages 7 head tags - 0 -1 2 1 f8.254+ - 1 -1 3 1 .255+ - 1 -1 4 1 .255+ - 1 -1 5 1 .255+ - 5 960 6 1 0000 . 53161501 7 969767973 0 0 0
packet-of-1273-bytes 3 head tags - 4 960 2 1 f8.1272 . 3654788147 3 3786290814 0 0 0
packet-of-1273-bytes-over-two-pages 4 head tags - 0 -1 2 1 f8.254+ - 5 960 3 1 .1018 . 1893631190 4 3786290814 0 0 0
packet-of-1273-bytes-over-many-pages 7 head tags - 0 -1 2 1 f8.254+ - 1 -1 3 1 .255+ - 1 -1 4 1 .255+ - 1 -1 5 1 .255+ - 5 960 6 1 .253 . 3676064422 7 3786290814 0 0 0
packet-of-1274-bytes 3 head tags - 4 960 2 1 f8.1273 . 3351060166 3 3395948065 0 0 0
packet-of-1274-bytes-over-two-pages 4 head tags - 0 -1 2 1 f8.254+ - 5 960 3 1 .1019 . 4240156558 4 3395948065 0 0 0
packet-of-1274-bytes-over-many-pages 7 head tags - 0 -1 2 1 f8.254+ - 1 -1 3 1 .255+ - 1 -1 4 1 .255+ - 1 -1 5 1 .255+ - 5 960 6 1 .254 . 1021499332 7 3395948065 0 0 0
packet-of-1275-bytes 3 head tags - 4 960 2 1 f8.1274 . 2812242049 3 3629853180 0 0 0
packet-of-1275-bytes-over-two-pages 4 head tags - 0 -1 2 1 f8.254+ - 5 960 3 1 .1020 . 1247600457 4 3629853180 0 0 0
packet-of-1275-bytes-over-many-pages 8 head tags - 0 -1 2 1 f8.254+ - 1 -1 3 1 .255+ - 1 -1 4 1 .255+ - 1 -1 5 1 .255+ - 1 -1 6 1 .255+ - 5 960 7 1 - . 1890433908 8 3629853180 0 0 0
packet-of-1276-bytes 3 head tags - 4 960 2 1 f8.1275 . 912146699 3 2409328163 0 0 0
packet-of-1276-bytes-over-two-pages 4 head tags - 0 -1 2 1 f8.254+ - 5 960 3 1 .1021 . 2146928303 4 2409328163 0 0 0
packet-of-1276-bytes-over-many-pages 8 head tags - 0 -1 2 1 f8.254+ - 1 -1 3 1 .255+ - 1 -1 4 1 .255+ - 1 -1 5 1 .255+ - 1 -1 6 1 .255+ - 5 960 7 1 00 . 3043549351 8 2409328163 0 0 0
packet-over-pages-with-one-without-segments 5 head tags - 0 -1 2 1 f8.254+ - 1 -1 3 0 - 5 960 4 1 .10 . 1012535424 5 336196206 0 0 0
one-packet-ends-and-another-begins 5 head tags - 0 -1 2 1 f8.254+ - 1 960 3 2 000000 f8.254+ - 5 1920 4 1 .7 . 2511360751 5 4136579798 0 0 0
two-packets-end-where-one-was-open 4 head tags - 0 960 2 2 f8fffe f8.254+ - 5 2880 3 2 0000 f8fffe . 1900270542 4 476585884 0 0 0
continued-where-none-is-open 3 head tags - 5 960 2 1 f8fffe . 3965994025 2 0 6 2 0
not-continued-where-one-is-open 4 head tags - 0 -1 2 1 f8.254+ - 4 960 3 1 .10 . 1929278137 3 0 6 3 0
not-continued-over-a-page-without-segments 5 head tags - 0 -1 2 1 f8.254+ - 0 -1 3 0 - 5 960 4 1 .10 . 796393257 3 0 6 3 0
comments-continued-where-none-is-open 3 head - 1 0 1 1 4f70757354616773 last . 48988852 1 0 6 1 0
comments-not-continued 4 head - 0 0 1 1 4f70757354616773.247+ - 0 0 2 1 616263 - 4 960 3 1 f8fffe . 3005085105 2 0 6 2 0
left-open-on-a-last-page 3 head tags - 4 960 2 2 f8fffe f8.254+ . 1008180569 2 0 6 2 0
left-open-on-a-last-page-without-segments 4 head tags - 0 -1 2 1 f8.254+ - 5 0 3 0 . 1428883906 3 0 6 3 0
first-flag-on-page-1 3 head - 2 0 1 1 4f70757354616773 last . 3522647651 1 0 4 1 0
first-flag-on-page-2 3 head tags - 6 960 2 1 f8fffe . 3916913518 2 0 4 2 0
sequence-number-again 3 head tags - 4 960 1 1 f8fffe . 283398570 2 0 5 2 0
sequence-number-left-out 3 head tags - 4 960 3 1 f8fffe . 3660013016 2 0 5 2 0
comments-with-sequence-number-0 3 head - 0 0 0 1 4f70757354616773 - 4 960 1 1 f8fffe . 2882843760 1 0 5 1 0
last-page-without-segments 4 head tags audio - 4 960 3 0 . 4195620000 4 295414163 0 0 0
page-behind-the-last 4 head tags last - 4 1920 3 1 f8fffe . 2367229952 3 322792211 14 3 0
byte-behind-the-last 3 head tags last 78 3136998654 3 322792211 14 3 0
capture-behind-the-last 3 head tags last 4f676753 132388478 3 322792211 14 3 0
broken-page-behind-the-last 4 head tags last V 4 1920 3 1 f8fffe . 3864705582 3 322792211 14 3 0
no-last-page 4 head tags audio - 0 1920 3 1 f8fffe . 2646491706 4 618206374 15 4 0
left-open-at-the-end 3 head tags - 0 -1 2 1 f8.254+ . 3826937791 3 0 15 3 0
headers-alone 2 head tags . 2021246972 2 0 15 2 0
first-header-alone 1 head . 66982620 1 0 15 1 0
no-bytes 0 . 0 0 0 15 0 0
three-bytes-of-a-capture 2 head tags 4f6767 3822099443 2 0 15 2 0
wrong-byte-of-a-cut-capture 2 head tags 4f58 1093124837 2 0 1 2 0
cut-page-with-a-wrong-version 2 head tags 4f67675301 840529217 2 0 2 2 0
packet-of-one-byte-behind-a-sounding-one 4 head tags - 0 960 2 1 f8dd3c591b404be060837850b6e8e75e82d13c49d4cf6d3bc8a74e7f0c2d - 4 1920 3 1 f8 . 929486391 4 198007081 0 0 0
flipped-checksum-bit-on-the-last-page 4 head tags audio K 4 1920 3 1 f8fffe . 3270481241 3 322792211 3 3 0
last-page-cut 4 head tags audio - 4 1920 3 1 f8fffe -1 856541030 3 322792211 15 3 0
granule-below-the-start-and-the-pages-before 4 head tags - 0 10000 2 1 f8fffe - 4 9999 3 1 f8fffe . 2547416288 3 322792211 13 3 0
granule-of-the-pages-before 4 head tags - 0 10000 2 1 f8fffe - 4 10000 3 1 f8fffe . 1281713484 4 618205414 0 0 0
page-3:capture 4 head tags audio C 0 1920 3 1 f8fffe . 1129342931 3 322792211 1 3 0
page-3:version 4 head tags audio V 0 1920 3 1 f8fffe . 3816674062 3 322792211 2 3 0
page-3:cut 4 head tags audio - 0 1920 3 1 f8fffe -1 85370692 3 322792211 15 3 0
page-3:checksum 4 head tags audio K 0 1920 3 1 f8fffe . 158978873 3 322792211 3 3 0
page-3:serial 4 head tags audio S 0 1920 3 1 f8fffe . 1913051164 3 322792211 4 3 0
page-3:first 4 head tags audio - 2 1920 3 1 f8fffe . 48645766 3 322792211 4 3 0
page-3:gap 4 head tags audio - 0 1920 7 1 f8fffe . 2360713238 3 322792211 5 3 0
page-3:continued 4 head tags audio - 1 1920 3 1 f8fffe . 1612906753 3 322792211 6 3 0
page-3:not-continued 4 head tags - 0 960 2 2 f8fffe f8.254+ - 0 1920 3 2 .7 f8fffe . 1093651448 3 322792211 6 3 0
page-3:left-open 4 head tags audio - 4 1920 3 2 f8fffe .255+ . 683857757 3 322792211 6 3 0
page-3:rule 4 head tags audio - 0 1920 3 1 f900 . 1919669183 3 322792211 11 1 3
page-3:mode 4 head tags audio - 0 1920 3 1 00fffe . 723419729 3 322792211 12 1 0
page-3:granule-below 4 head tags audio - 4 959 3 1 f8fffe . 381141104 3 322792211 13 3 0
page-3:granule-start 4 head tags - 0 0 2 0 - 0 959 3 1 f8fffe . 592274279 3 0 13 3 0
page-3:ended 4 head tags last - 0 1920 3 1 f8fffe . 4230753250 3 322792211 14 3 0
page-3:capture,version 4 head tags audio CV 0 1920 3 1 f8fffe . 1452399625 3 322792211 1 3 0
page-3:capture,cut 4 head tags audio C 0 1920 3 1 f8fffe -27 1472649003 3 322792211 1 3 0
page-3:capture,cut,not-there 4 head tags audio C 0 1920 3 1 f8fffe -28 1432978125 3 322792211 15 3 0
page-3:capture,checksum 4 head tags audio CK 0 1920 3 1 f8fffe . 3616855764 3 322792211 1 3 0
page-3:capture,serial 4 head tags audio CS 0 1920 3 1 f8fffe . 2438473369 3 322792211 1 3 0
page-3:capture,first 4 head tags audio C 2 1920 3 1 f8fffe . 3351387467 3 322792211 1 3 0
page-3:capture,gap 4 head tags audio C 0 1920 7 1 f8fffe . 1164000869 3 322792211 1 3 0
page-3:capture,continued 4 head tags audio C 1 1920 3 1 f8fffe . 3498050420 3 322792211 1 3 0
page-3:capture,not-continued 4 head tags - 0 960 2 2 f8fffe f8.254+ C 0 1920 3 2 .7 f8fffe . 89712847 3 322792211 1 3 0
page-3:capture,left-open 4 head tags audio C 4 1920 3 2 f8fffe .255+ . 2784017869 3 322792211 1 3 0
page-3:capture,rule 4 head tags audio C 0 1920 3 1 f900 . 835098681 3 322792211 1 3 0
page-3:capture,mode 4 head tags audio C 0 1920 3 1 00fffe . 4155449686 3 322792211 1 3 0
page-3:capture,granule-below 4 head tags audio C 4 959 3 1 f8fffe . 3302557991 3 322792211 1 3 0
page-3:capture,granule-start 4 head tags - 0 0 2 0 C 0 959 3 1 f8fffe . 280107054 3 0 1 3 0
page-3:capture,ended 4 head tags last C 0 1920 3 1 f8fffe . 2713604475 3 322792211 14 3 0
page-3:version,cut 4 head tags audio V 0 1920 3 1 f8fffe -26 2702445979 3 322792211 2 3 0
page-3:version,cut,not-there 4 head tags audio V 0 1920 3 1 f8fffe -27 1472648998 3 322792211 15 3 0
page-3:version,checksum 4 head tags audio VK 0 1920 3 1 f8fffe . 2009219599 3 322792211 2 3 0
page-3:version,serial 4 head tags audio VS 0 1920 3 1 f8fffe . 4133816850 3 322792211 2 3 0
page-3:version,first 4 head tags audio V 2 1920 3 1 f8fffe . 4221663656 3 322792211 2 3 0
page-3:version,gap 4 head tags audio V 0 1920 7 1 f8fffe . 1852219732 3 322792211 2 3 0
page-3:version,continued 4 head tags audio V 1 1920 3 1 f8fffe . 3110721193 3 322792211 2 3 0
page-3:version,not-continued 4 head tags - 0 960 2 2 f8fffe f8.254+ V 0 1920 3 2 .7 f8fffe . 523185864 3 322792211 2 3 0
page-3:version,left-open 4 head tags audio V 4 1920 3 2 f8fffe .255+ . 555260190 3 322792211 2 3 0
page-3:version,rule 4 head tags audio V 0 1920 3 1 f900 . 2532934264 3 322792211 2 3 0
page-3:version,mode 4 head tags audio V 0 1920 3 1 00fffe . 638287093 3 322792211 2 3 0
page-3:version,granule-below 4 head tags audio V 4 959 3 1 f8fffe . 4043190404 3 322792211 2 3 0
page-3:version,granule-start 4 head tags - 0 0 2 0 V 0 959 3 1 f8fffe . 224184645 3 0 2 3 0
page-3:version,ended 4 head tags last V 0 1920 3 1 f8fffe . 1105968310 3 322792211 14 3 0
page-3:cut,checksum 4 head tags audio K 0 1920 3 1 f8fffe -1 2637527653 3 322792211 15 3 0
page-3:cut,serial 4 head tags audio S 0 1920 3 1 f8fffe -1 2555563298 3 322792211 15 3 0
page-3:cut,first 4 head tags audio - 2 1920 3 1 f8fffe -1 2079779192 3 322792211 15 3 0
page-3:cut,gap 4 head tags audio - 0 1920 7 1 f8fffe -1 353246696 3 322792211 15 3 0
page-3:cut,continued 4 head tags audio - 1 1920 3 1 f8fffe -1 3377165213 3 322792211 15 3 0
page-3:cut,not-continued 4 head tags - 0 960 2 2 f8fffe f8.254+ - 0 1920 3 2 .7 f8fffe -1 3498962374 3 322792211 15 3 0
page-3:cut,left-open 4 head tags audio - 4 1920 3 2 f8fffe .255+ -1 3624290563 3 322792211 15 3 0
page-3:cut,rule 4 head tags audio - 0 1920 3 1 f900 -1 754661473 3 322792211 15 3 0
page-3:cut,mode 4 head tags audio - 0 1920 3 1 00fffe -1 993167437 3 322792211 15 3 0
page-3:cut,granule-below 4 head tags audio - 4 959 3 1 f8fffe -1 4168714830 3 322792211 15 3 0
page-3:cut,granule-start 4 head tags - 0 0 2 0 - 0 959 3 1 f8fffe -1 1404578935 3 0 15 3 0
page-3:cut,ended 4 head tags last - 0 1920 3 1 f8fffe -1 1106307228 3 322792211 14 3 0
page-3:checksum,serial 4 head tags audio KS 0 1920 3 1 f8fffe . 105596701 3 322792211 3 3 0
page-3:checksum,first 4 head tags audio K 2 1920 3 1 f8fffe . 2536158599 3 322792211 3 3 0
page-3:checksum,gap 4 head tags audio K 0 1920 7 1 f8fffe . 553258775 3 322792211 3 3 0
page-3:checksum,continued 4 head tags audio K 1 1920 3 1 f8fffe . 3420361216 3 322792211 3 3 0
page-3:checksum,not-continued 4 head tags - 0 960 2 2 f8fffe f8.254+ K 0 1920 3 2 .7 f8fffe . 4035309047 3 322792211 3 3 0
page-3:checksum,left-open 4 head tags audio K 4 1920 3 2 f8fffe .255+ . 3114608222 3 322792211 3 3 0
page-3:checksum,rule 4 head tags audio K 0 1920 3 1 f900 . 3662479518 3 322792211 3 3 0
page-3:checksum,mode 4 head tags audio K 0 1920 3 1 00fffe . 2530874192 3 322792211 3 3 0
page-3:checksum,granule-below 4 head tags audio K 4 959 3 1 f8fffe . 2188595567 3 322792211 3 3 0
page-3:checksum,granule-start 4 head tags - 0 0 2 0 K 0 959 3 1 f8fffe . 3079787112 3 0 3 3 0
page-3:checksum,ended 4 head tags last K 0 1920 3 1 f8fffe . 1743240417 3 322792211 14 3 0
page-3:serial,first 4 head tags audio S 2 1920 3 1 f8fffe . 1908329664 3 322792211 4 3 0
page-3:serial,gap 4 head tags audio S 0 1920 7 1 f8fffe . 1002634526 3 322792211 4 3 0
page-3:serial,continued 4 head tags audio S 1 1920 3 1 f8fffe . 1589827903 3 322792211 4 3 0
page-3:serial,not-continued 4 head tags - 0 960 2 2 f8fffe f8.254+ S 0 1920 3 2 .7 f8fffe . 57824286 3 322792211 4 3 0
page-3:serial,left-open 4 head tags audio S 4 1920 3 2 f8fffe .255+ . 3638039839 3 322792211 4 3 0
page-3:serial,rule 4 head tags audio S 0 1920 3 1 f900 . 3871692075 3 322792211 4 3 0
page-3:serial,mode 4 head tags audio S 0 1920 3 1 00fffe . 1166519141 3 322792211 4 3 0
page-3:serial,granule-below 4 head tags audio S 4 959 3 1 f8fffe . 2875778436 3 322792211 4 3 0
page-3:serial,granule-start 4 head tags - 0 0 2 0 S 0 959 3 1 f8fffe . 3075548801 3 0 4 3 0
page-3:serial,ended 4 head tags last S 0 1920 3 1 f8fffe . 3497312708 3 322792211 14 3 0
page-3:first,gap 4 head tags audio - 2 1920 7 1 f8fffe . 56061196 3 322792211 4 3 0
page-3:first,continued 4 head tags audio - 3 1920 3 1 f8fffe . 2127588367 3 322792211 4 3 0
page-3:first,not-continued 4 head tags - 0 960 2 2 f8fffe f8.254+ - 2 1920 3 2 .7 f8fffe . 3236114513 3 322792211 4 3 0
page-3:first,left-open 4 head tags audio - 6 1920 3 2 f8fffe .255+ . 4143529454 3 322792211 4 3 0
page-3:first,rule 4 head tags audio - 2 1920 3 1 f900 . 2768437192 3 322792211 4 3 0
page-3:first,mode 4 head tags audio - 2 1920 3 1 00fffe . 4114916293 3 322792211 4 3 0
page-3:first,granule-below 4 head tags audio - 6 959 3 1 f8fffe . 1583956058 3 322792211 4 3 0
page-3:first,granule-start 4 head tags - 0 0 2 0 - 2 959 3 1 f8fffe . 4132638049 3 0 4 3 0
page-3:first,ended 4 head tags last - 2 1920 3 1 f8fffe . 1632907310 3 322792211 14 3 0
page-3:gap,continued 4 head tags audio - 1 1920 7 1 f8fffe . 498890701 3 322792211 5 3 0
page-3:gap,not-continued 4 head tags - 0 960 2 2 f8fffe f8.254+ - 0 1920 7 2 .7 f8fffe . 2564777867 3 322792211 5 3 0
page-3:gap,left-open 4 head tags audio - 4 1920 7 2 f8fffe .255+ . 1417360465 3 322792211 5 3 0
page-3:gap,rule 4 head tags audio - 0 1920 7 1 f900 . 1576377965 3 322792211 5 3 0
page-3:gap,mode 4 head tags audio - 0 1920 7 1 00fffe . 35940025 3 322792211 5 3 0
page-3:gap,granule-below 4 head tags audio - 4 959 7 1 f8fffe . 303166636 3 322792211 5 3 0
page-3:gap,granule-start 4 head tags - 0 0 2 0 - 0 959 7 1 f8fffe . 195015243 3 0 5 3 0
page-3:gap,ended 4 head tags last - 0 1920 7 1 f8fffe . 3944974782 3 322792211 14 3 0
page-3:continued,left-open 4 head tags audio - 5 1920 3 2 f8fffe .255+ . 1894739878 3 322792211 6 3 0
page-3:continued,rule 4 head tags audio - 1 1920 3 1 f900 . 4147368832 3 322792211 6 3 0
page-3:continued,mode 4 head tags audio - 1 1920 3 1 00fffe . 4141159398 3 322792211 6 3 0
page-3:continued,granule-below 4 head tags audio - 5 959 3 1 f8fffe . 3909163981 3 322792211 6 3 0
page-3:continued,granule-start 4 head tags - 0 0 2 0 - 1 959 3 1 f8fffe . 3349534528 3 0 6 3 0
page-3:continued,ended 4 head tags last - 1 1920 3 1 f8fffe . 3197168297 3 322792211 14 3 0
page-3:not-continued,left-open 4 head tags - 0 960 2 2 f8fffe f8.254+ - 4 1920 3 3 .7 f8fffe .255+ . 3403150376 3 322792211 6 3 0
page-3:not-continued,rule 4 head tags - 0 960 2 2 f8fffe f8.254+ - 0 1920 3 2 .7 f900 . 141415094 3 322792211 6 3 0
page-3:not-continued,mode 4 head tags - 0 960 2 2 f8fffe f8.254+ - 0 1920 3 2 .7 00fffe . 3259408993 3 322792211 6 3 0
page-3:not-continued,granule-below 4 head tags - 0 960 2 2 f8fffe f8.254+ - 4 959 3 2 .7 f8fffe . 638878422 3 322792211 6 3 0
page-3:not-continued,granule-start 4 head tags - 0 -1 2 1 f8.254+ - 0 959 3 2 .7 f8fffe . 3715596752 3 0 6 3 0
page-3:left-open,rule 4 head tags audio - 4 1920 3 2 f900 .255+ . 3527095577 3 322792211 6 3 0
page-3:left-open,mode 4 head tags audio - 4 1920 3 2 00fffe .255+ . 1657394548 3 322792211 6 3 0
page-3:left-open,granule-below 4 head tags audio - 4 959 3 2 f8fffe .255+ . 88823986 3 322792211 6 3 0
page-3:left-open,ended 4 head tags last - 4 1920 3 2 f8fffe .255+ . 179028229 3 322792211 14 3 0
page-3:rule,mode 4 head tags audio - 0 1920 3 2 f900 00fffe . 3826985063 3 322792211 11 1 3
page-3:rule,mode,turned 4 head tags audio - 0 1920 3 2 00fffe f900 . 4074383624 3 322792211 12 1 0
page-3:rule,mode,one-packet 4 head tags audio - 0 1920 3 1 0100 . 3227848011 3 322792211 11 1 3
page-3:rule,granule-below 4 head tags audio - 4 959 3 1 f900 . 540611299 3 322792211 11 1 3
page-3:rule,granule-start 4 head tags - 0 0 2 0 - 0 959 3 2 f900 f8fffe . 2624129675 3 0 11 0 3
page-3:rule,ended 4 head tags last - 0 1920 3 1 f900 . 2940605719 3 322792211 14 3 0
page-3:mode,granule-below 4 head tags audio - 4 959 3 1 00fffe . 2224212895 3 322792211 12 1 0
page-3:mode,granule-start 4 head tags - 0 0 2 0 - 0 959 3 2 00fffe f8fffe . 2319736633 3 0 12 0 0
page-3:mode,ended 4 head tags last - 0 1920 3 1 00fffe . 2307681273 3 322792211 14 3 0
page-3:granule-below,ended 4 head tags last - 4 959 3 1 f8fffe . 1965402648 3 322792211 14 3 0
page-3:granule-start,ended 4 head tags - 4 0 2 0 - 0 959 3 1 f8fffe . 3377589533 3 0 14 3 0
page-1:capture 2 head C 0 0 1 1 4f70757354616773 . 1125571222 1 0 1 1 0
page-1:version 2 head V 0 0 1 1 4f70757354616773 . 3155392165 1 0 2 1 0
page-1:cut 2 head tags -1 3805979479 1 0 15 1 0
page-1:checksum 2 head K 0 0 1 1 4f70757354616773 . 2526805597 1 0 3 1 0
page-1:serial 2 head S 0 0 1 1 4f70757354616773 . 351527627 1 0 4 1 0
page-1:first 2 head - 2 0 1 1 4f70757354616773 . 2508066163 1 0 4 1 0
page-1:gap 2 head - 0 0 7 1 4f70757354616773 . 4013816541 1 0 5 1 0
page-1:continued 2 head - 1 0 1 1 4f70757354616773 . 3510789954 1 0 6 1 0
page-1:short 2 head - 0 0 1 1 4f707573546167 . 1899963672 1 0 9 1 0
page-1:letters 2 head - 0 0 1 1 4f70757354617a73 . 2199608284 1 0 9 1 0
page-1:behind 2 head - 0 0 1 2 4f70757354616773 f8fffe . 899804445 1 0 9 1 0
page-1:no-end 2 head - 4 0 1 0 . 141117062 1 0 9 1 0
page-1:capture,version 2 head CV 0 0 1 1 4f70757354616773 . 2168956741 1 0 1 1 0
page-1:capture,cut 2 head C 0 0 1 1 4f70757354616773 -32 3739663781 1 0 1 1 0
page-1:capture,cut,not-there 2 head C 0 0 1 1 4f70757354616773 -33 2614486291 1 0 15 1 0
page-1:capture,checksum 2 head CK 0 0 1 1 4f70757354616773 . 1631129847 1 0 1 1 0
page-1:capture,serial 2 head CS 0 0 1 1 4f70757354616773 . 979813643 1 0 1 1 0
page-1:capture,first 2 head C 2 0 1 1 4f70757354616773 . 2411352045 1 0 1 1 0
page-1:capture,gap 2 head C 0 0 7 1 4f70757354616773 . 1057563613 1 0 1 1 0
page-1:capture,continued 2 head C 1 0 1 1 4f70757354616773 . 1788068532 1 0 1 1 0
page-1:capture,left-open 2 head C 4 0 1 1 4f70757354616773.247+ . 1852374922 1 0 1 1 0
page-1:capture,short 2 head C 0 0 1 1 4f707573546167 . 3185897616 1 0 1 1 0
page-1:capture,letters 2 head C 0 0 1 1 4f70757354617a73 . 3343104854 1 0 1 1 0
page-1:capture,behind 2 head C 0 0 1 2 4f70757354616773 f8fffe . 2924640891 1 0 1 1 0
page-1:capture,no-end 2 head C 4 0 1 0 . 4080304246 1 0 1 1 0
page-1:version,cut 2 head V 0 0 1 1 4f70757354616773 -31 4260427361 1 0 2 1 0
page-1:version,cut,not-there 2 head V 0 0 1 1 4f70757354616773 -32 3739663776 1 0 15 1 0
page-1:version,checksum 2 head VK 0 0 1 1 4f70757354616773 . 2649833540 1 0 2 1 0
page-1:version,serial 2 head VS 0 0 1 1 4f70757354616773 . 1666225740 1 0 2 1 0
page-1:version,first 2 head V 2 0 1 1 4f70757354616773 . 3295369824 1 0 2 1 0
page-1:version,gap 2 head V 0 0 7 1 4f70757354616773 . 1543922602 1 0 2 1 0
page-1:version,continued 2 head V 1 0 1 1 4f70757354616773 . 3070367959 1 0 2 1 0
page-1:version,left-open 2 head V 4 0 1 1 4f70757354616773.247+ . 1239158880 1 0 2 1 0
page-1:version,short 2 head V 0 0 1 1 4f707573546167 . 1394017778 1 0 2 1 0
page-1:version,letters 2 head V 0 0 1 1 4f70757354617a73 . 1293263877 1 0 2 1 0
page-1:version,behind 2 head V 0 0 1 2 4f70757354616773 f8fffe . 2625394236 1 0 2 1 0
page-1:version,no-end 2 head V 4 0 1 0 . 1459004808 1 0 2 1 0
page-1:cut,checksum 2 head K 0 0 1 1 4f70757354616773 -1 4099382486 1 0 15 1 0
page-1:cut,serial 2 head S 0 0 1 1 4f70757354616773 -1 3059380904 1 0 15 1 0
page-1:cut,first 2 head - 2 0 1 1 4f70757354616773 -1 3960230656 1 0 15 1 0
page-1:cut,gap 2 head - 0 0 7 1 4f70757354616773 -1 960761942 1 0 15 1 0
page-1:cut,continued 2 head - 1 0 1 1 4f70757354616773 -1 4269671249 1 0 15 1 0
page-1:cut,left-open 2 head - 4 0 1 1 4f70757354616773.247+ -1 2439228638 1 0 15 1 0
page-1:cut,short 2 head - 0 0 1 1 4f707573546167 -1 3940614447 1 0 15 1 0
page-1:cut,letters 2 head - 0 0 1 1 4f70757354617a73 -1 902239095 1 0 15 1 0
page-1:cut,behind 2 head - 0 0 1 2 4f70757354616773 f8fffe -1 3631256577 1 0 15 1 0
page-1:cut,no-end 2 head - 4 0 1 0 -1 2914046138 1 0 15 1 0
page-1:checksum,serial 2 head KS 0 0 1 1 4f70757354616773 . 4140936298 1 0 3 1 0
page-1:checksum,first 2 head K 2 0 1 1 4f70757354616773 . 3013624788 1 0 3 1 0
page-1:checksum,gap 2 head K 0 0 7 1 4f70757354616773 . 3508257916 1 0 3 1 0
page-1:checksum,continued 2 head K 1 0 1 1 4f70757354616773 . 4016348579 1 0 3 1 0
page-1:checksum,left-open 2 head K 4 0 1 1 4f70757354616773.247+ . 3832936289 1 0 3 1 0
page-1:checksum,short 2 head K 0 0 1 1 4f707573546167 . 1606560665 1 0 3 1 0
page-1:checksum,letters 2 head K 0 0 1 1 4f70757354617a73 . 2705166909 1 0 3 1 0
page-1:checksum,behind 2 head K 0 0 1 2 4f70757354616773 f8fffe . 4197699388 1 0 3 1 0
page-1:checksum,no-end 2 head K 4 0 1 0 . 140193541 1 0 3 1 0
page-1:serial,first 2 head S 2 0 1 1 4f70757354616773 . 3301005818 1 0 4 1 0
page-1:serial,gap 2 head S 0 0 7 1 4f70757354616773 . 3932573100 1 0 4 1 0
page-1:serial,continued 2 head S 1 0 1 1 4f70757354616773 . 2014163797 1 0 4 1 0
page-1:serial,left-open 2 head S 4 0 1 1 4f70757354616773.247+ . 2642225034 1 0 4 1 0
page-1:serial,short 2 head S 0 0 1 1 4f707573546167 . 1738188551 1 0 4 1 0
page-1:serial,letters 2 head S 0 0 1 1 4f70757354617a73 . 3566537059 1 0 4 1 0
page-1:serial,behind 2 head S 0 0 1 2 4f70757354616773 f8fffe . 4030554980 1 0 4 1 0
page-1:serial,no-end 2 head S 4 0 1 0 . 4250874234 1 0 4 1 0
page-1:first,gap 2 head - 2 0 7 1 4f70757354616773 . 1483813008 1 0 4 1 0
page-1:first,continued 2 head - 3 0 1 1 4f70757354616773 . 3063499603 1 0 4 1 0
page-1:first,left-open 2 head - 6 0 1 1 4f70757354616773.247+ . 2871853123 1 0 4 1 0
page-1:first,short 2 head - 2 0 1 1 4f707573546167 . 3677165778 1 0 4 1 0
page-1:first,letters 2 head - 2 0 1 1 4f70757354617a73 . 34641213 1 0 4 1 0
page-1:first,behind 2 head - 2 0 1 2 4f70757354616773 f8fffe . 2318184811 1 0 4 1 0
page-1:first,no-end 2 head - 6 0 1 0 . 314422302 1 0 4 1 0
page-1:gap,continued 2 head - 1 0 7 1 4f70757354616773 . 2983042279 1 0 5 1 0
page-1:gap,left-open 2 head - 4 0 7 1 4f70757354616773.247+ . 636870310 1 0 5 1 0
page-1:gap,short 2 head - 0 0 7 1 4f707573546167 . 704039905 1 0 5 1 0
page-1:gap,letters 2 head - 0 0 7 1 4f70757354617a73 . 1136110933 1 0 5 1 0
page-1:gap,behind 2 head - 0 0 7 2 4f70757354616773 f8fffe . 1846045865 1 0 5 1 0
page-1:gap,no-end 2 head - 4 0 7 0 . 2170453890 1 0 5 1 0
page-1:continued,left-open 2 head - 5 0 1 1 4f70757354616773.247+ . 3084882634 1 0 6 1 0
page-1:continued,short 2 head - 1 0 1 1 4f707573546167 . 2815479586 1 0 6 1 0
page-1:continued,letters 2 head - 1 0 1 1 4f70757354617a73 . 238403372 1 0 6 1 0
page-1:continued,behind 2 head - 1 0 1 2 4f70757354616773 f8fffe . 1898278301 1 0 6 1 0
page-1:continued,no-end 2 head - 5 0 1 0 . 2436556977 1 0 6 1 0
page-1:left-open,short 2 head - 4 0 1 2 4f707573546167 .255+ . 2258018853 1 0 6 1 0
page-1:left-open,letters 2 head - 4 0 1 2 4f70757354617a73 .255+ . 481692699 1 0 6 1 0
page-1:left-open,behind 2 head - 4 0 1 2 4f70757354616773 .255+ . 3932262680 1 0 6 1 0
page-1:left-open,no-end 2 head - 4 0 1 1 4f70757354616773.247+ . 2601643746 1 0 6 1 0
page-1:short,letters 2 head - 0 0 1 1 4f70757354617a . 2103226726 1 0 9 1 0
page-1:short,behind 2 head - 0 0 1 2 4f707573546167 f8fffe . 667623893 1 0 9 1 0
page-1:letters,behind 2 head - 0 0 1 2 4f70757354617a73 f8fffe . 4109812266 1 0 9 1 0
page-0:capture 1 C 2 0 0 1 4f707573486561640101000080bb.5 . 755545715 0 0 1 0 0
page-0:version 1 V 2 0 0 1 4f707573486561640101000080bb.5 . 1736505785 0 0 2 0 0
page-0:cut 1 head -1 2496012708 0 0 15 0 0
page-0:checksum 1 K 2 0 0 1 4f707573486561640101000080bb.5 . 2284740573 0 0 3 0 0
page-0:continued 1 - 3 0 0 1 4f707573486561640101000080bb.5 . 2071981611 0 0 6 0 0
page-0:not-first 1 - 0 0 0 1 4f707573486561640101000080bb.5 . 2960058451 0 0 7 0 0
page-0:packets 1 - 2 0 0 2 4f707573486561640101000080bb.5 78 . 4118632379 0 0 7 0 0
page-0:short 1 - 2 0 0 1 4f707573486561640101000080bb.4 . 2014013770 0 0 7 0 0
page-0:letters 1 - 2 0 0 1 4f707573486561780101000080bb.5 . 2816056639 0 0 7 0 0
page-0:version-16 1 - 2 0 0 1 4f707573486561641001000080bb.5 . 450149760 0 0 7 0 0
page-0:family 1 - 2 0 0 1 4f707573486561640101000080bb0000000001 . 323095402 0 0 8 0 0
page-0:channels 1 - 2 0 0 1 4f707573486561640103000080bb.5 . 1618506929 0 0 7 0 0
page-0:last 1 - 6 0 0 1 4f707573486561640101000080bb.5 . 3061080548 0 0 9 0 0
page-0:capture,version 1 CV 2 0 0 1 4f707573486561640101000080bb.5 . 3905165464 0 0 1 0 0
page-0:capture,cut 1 C 2 0 0 1 4f707573486561640101000080bb.5 -43 2455753 0 0 1 0 0
page-0:capture,cut,not-there 1 C 2 0 0 1 4f707573486561640101000080bb.5 -44 79215 0 0 15 0 0
page-0:capture,checksum 1 CK 2 0 0 1 4f707573486561640101000080bb.5 . 2832755058 0 0 1 0 0
page-0:capture,continued 1 C 3 0 0 1 4f707573486561640101000080bb.5 . 2155883398 0 0 1 0 0
page-0:capture,left-open 1 C 6 0 0 1 4f707573486561640101000080bb.241+ . 1940690107 0 0 1 0 0
page-0:capture,not-first 1 C 0 0 0 1 4f707573486561640101000080bb.5 . 3735099480 0 0 1 0 0
page-0:capture,packets 1 C 2 0 0 2 4f707573486561640101000080bb.5 78 . 4036365807 0 0 1 0 0
page-0:capture,short 1 C 2 0 0 1 4f707573486561640101000080bb.4 . 3705156181 0 0 1 0 0
page-0:capture,letters 1 C 2 0 0 1 4f707573486561780101000080bb.5 . 1294938652 0 0 1 0 0
page-0:capture,version-16 1 C 2 0 0 1 4f707573486561641001000080bb.5 . 3690452549 0 0 1 0 0
page-0:capture,family 1 C 2 0 0 1 4f707573486561640101000080bb0000000001 . 4179837211 0 0 1 0 0
page-0:capture,channels 1 C 2 0 0 1 4f707573486561640103000080bb.5 . 1551335714 0 0 1 0 0
page-0:capture,last 1 C 6 0 0 1 4f707573486561640101000080bb.5 . 3596276683 0 0 1 0 0
page-0:version,cut 1 V 2 0 0 1 4f707573486561640101000080bb.5 -42 76128189 0 0 2 0 0
page-0:version,cut,not-there 1 V 2 0 0 1 4f707573486561640101000080bb.5 -43 2455748 0 0 15 0 0
page-0:version,checksum 1 VK 2 0 0 1 4f707573486561640101000080bb.5 . 3954263738 0 0 2 0 0
page-0:version,continued 1 V 3 0 0 1 4f707573486561640101000080bb.5 . 97866034 0 0 2 0 0
page-0:version,left-open 1 V 6 0 0 1 4f707573486561640101000080bb.241+ . 607135271 0 0 2 0 0
page-0:version,not-first 1 V 0 0 0 1 4f707573486561640101000080bb.5 . 2873748744 0 0 2 0 0
page-0:version,packets 1 V 2 0 0 2 4f707573486561640101000080bb.5 78 . 4229163752 0 0 2 0 0
page-0:version,short 1 V 2 0 0 1 4f707573486561640101000080bb.4 . 984946281 0 0 2 0 0
page-0:version,letters 1 V 2 0 0 1 4f707573486561780101000080bb.5 . 248707028 0 0 2 0 0
page-0:version,version-16 1 V 2 0 0 1 4f707573486561641001000080bb.5 . 333666795 0 0 2 0 0
page-0:version,family 1 V 2 0 0 1 4f707573486561640101000080bb0000000001 . 2403687055 0 0 2 0 0
page-0:version,channels 1 V 2 0 0 1 4f707573486561640103000080bb.5 . 366277960 0 0 2 0 0
page-0:version,last 1 V 6 0 0 1 4f707573486561640101000080bb.5 . 1032758771 0 0 2 0 0
page-0:cut,checksum 1 K 2 0 0 1 4f707573486561640101000080bb.5 -1 2429005955 0 0 15 0 0
page-0:cut,continued 1 - 3 0 0 1 4f707573486561640101000080bb.5 -1 621027445 0 0 15 0 0
page-0:cut,left-open 1 - 6 0 0 1 4f707573486561640101000080bb.241+ -1 886626305 0 0 15 0 0
page-0:cut,not-first 1 - 0 0 0 1 4f707573486561640101000080bb.5 -1 649675085 0 0 15 0 0
page-0:cut,packets 1 - 2 0 0 2 4f707573486561640101000080bb.5 78 -1 4289279069 0 0 15 0 0
page-0:cut,short 1 - 2 0 0 1 4f707573486561640101000080bb.4 -1 4221388150 0 0 15 0 0
page-0:cut,letters 1 - 2 0 0 1 4f707573486561780101000080bb.5 -1 367935201 0 0 15 0 0
page-0:cut,version-16 1 - 2 0 0 1 4f707573486561641001000080bb.5 -1 14520960 0 0 15 0 0
page-0:cut,family 1 - 2 0 0 1 4f707573486561640101000080bb0000000001 -1 2919916407 0 0 15 0 0
page-0:cut,channels 1 - 2 0 0 1 4f707573486561640103000080bb.5 -1 2268967215 0 0 15 0 0
page-0:cut,last 1 - 6 0 0 1 4f707573486561640101000080bb.5 -1 2454049180 0 0 15 0 0
page-0:checksum,continued 1 K 3 0 0 1 4f707573486561640101000080bb.5 . 4149190954 0 0 3 0 0
page-0:checksum,left-open 1 K 6 0 0 1 4f707573486561640101000080bb.241+ . 2946904222 0 0 3 0 0
page-0:checksum,not-first 1 K 0 0 0 1 4f707573486561640101000080bb.5 . 882849108 0 0 3 0 0
page-0:checksum,packets 1 K 2 0 0 2 4f707573486561640101000080bb.5 78 . 785279100 0 0 3 0 0
page-0:checksum,short 1 K 2 0 0 1 4f707573486561640101000080bb.4 . 1947007017 0 0 3 0 0
page-0:checksum,letters 1 K 2 0 0 1 4f707573486561780101000080bb.5 . 738847296 0 0 3 0 0
page-0:checksum,version-16 1 K 2 0 0 1 4f707573486561641001000080bb.5 . 2527359103 0 0 3 0 0
page-0:checksum,family 1 K 2 0 0 1 4f707573486561640101000080bb0000000001 . 2400304745 0 0 3 0 0
page-0:checksum,channels 1 K 2 0 0 1 4f707573486561640103000080bb.5 . 3695716272 0 0 3 0 0
page-0:checksum,last 1 K 6 0 0 1 4f707573486561640101000080bb.5 . 983871205 0 0 3 0 0
page-0:continued,left-open 1 - 7 0 0 1 4f707573486561640101000080bb.241+ . 3187617595 0 0 6 0 0
page-0:continued,not-first 1 - 1 0 0 1 4f707573486561640101000080bb.5 . 1708753084 0 0 6 0 0
page-0:continued,packets 1 - 3 0 0 2 4f707573486561640101000080bb.5 78 . 1097984853 0 0 6 0 0
page-0:continued,short 1 - 3 0 0 1 4f707573486561640101000080bb.4 . 4113196823 0 0 6 0 0
page-0:continued,letters 1 - 3 0 0 1 4f707573486561780101000080bb.5 . 1137253374 0 0 6 0 0
page-0:continued,version-16 1 - 3 0 0 1 4f707573486561641001000080bb.5 . 1775520949 0 0 6 0 0
page-0:continued,family 1 - 3 0 0 1 4f707573486561640101000080bb0000000001 . 1398582073 0 0 6 0 0
page-0:continued,channels 1 - 3 0 0 1 4f707573486561640103000080bb.5 . 772322032 0 0 6 0 0
page-0:continued,last 1 - 7 0 0 1 4f707573486561640101000080bb.5 . 2073451323 0 0 6 0 0
page-0:left-open,not-first 1 - 4 0 0 1 4f707573486561640101000080bb.241+ . 152054034 0 0 6 0 0
page-0:left-open,packets 1 - 6 0 0 2 4f707573486561640101000080bb.5 .255+ . 3147271464 0 0 6 0 0
page-0:left-open,short 1 - 6 0 0 2 4f707573486561640101000080bb.4 .255+ . 4062764466 0 0 6 0 0
page-0:left-open,letters 1 - 6 0 0 1 4f707573486561780101000080bb.241+ . 1683951443 0 0 6 0 0
page-0:left-open,version-16 1 - 6 0 0 1 4f707573486561641001000080bb.241+ . 2041152588 0 0 6 0 0
page-0:left-open,family 1 - 6 0 0 1 4f707573486561640101000080bb0000000001.236+ . 2889753301 0 0 6 0 0
page-0:left-open,channels 1 - 6 0 0 1 4f707573486561640103000080bb.241+ . 2382067051 0 0 6 0 0
page-0:left-open,last 1 - 6 0 0 1 4f707573486561640101000080bb.241+ . 1715611679 0 0 6 0 0
page-0:not-first,packets 1 - 0 0 0 2 4f707573486561640101000080bb.5 78 . 1053682517 0 0 7 0 0
page-0:not-first,short 1 - 0 0 0 1 4f707573486561640101000080bb.4 . 755785529 0 0 7 0 0
page-0:not-first,letters 1 - 0 0 0 1 4f707573486561780101000080bb.5 . 1087042976 0 0 7 0 0
page-0:not-first,version-16 1 - 0 0 0 1 4f707573486561641001000080bb.5 . 3863342535 0 0 7 0 0
page-0:not-first,family 1 - 0 0 0 1 4f707573486561640101000080bb0000000001 . 1591937353 0 0 7 0 0
page-0:not-first,channels 1 - 0 0 0 1 4f707573486561640103000080bb.5 . 2399514260 0 0 7 0 0
page-0:not-first,last 1 - 4 0 0 1 4f707573486561640101000080bb.5 . 887004979 0 0 7 0 0
page-0:packets,short 1 - 2 0 0 2 4f707573486561640101000080bb.4 78 . 2406870134 0 0 7 0 0
page-0:packets,letters 1 - 2 0 0 2 4f707573486561780101000080bb.5 78 . 3422088777 0 0 7 0 0
page-0:packets,version-16 1 - 2 0 0 2 4f707573486561641001000080bb.5 78 . 3001816419 0 0 7 0 0
page-0:packets,family 1 - 2 0 0 2 4f707573486561640101000080bb0000000001 78 . 981649836 0 0 7 0 0
page-0:packets,channels 1 - 2 0 0 2 4f707573486561640103000080bb.5 78 . 2111437003 0 0 7 0 0
page-0:packets,last 1 - 6 0 0 2 4f707573486561640101000080bb.5 78 . 2988551194 0 0 7 0 0
page-0:short,letters 1 - 2 0 0 1 4f707573486561780101000080bb.4 . 145747251 0 0 7 0 0
page-0:short,version-16 1 - 2 0 0 1 4f707573486561641001000080bb.4 . 1276024136 0 0 7 0 0
page-0:short,channels 1 - 2 0 0 1 4f707573486561640103000080bb.4 . 527592058 0 0 7 0 0
page-0:short,last 1 - 6 0 0 1 4f707573486561640101000080bb.4 . 2881455558 0 0 7 0 0
page-0:letters,version-16 1 - 2 0 0 1 4f707573486561781001000080bb.5 . 3538136269 0 0 7 0 0
page-0:letters,family 1 - 2 0 0 1 4f707573486561780101000080bb0000000001 . 3411534269 0 0 7 0 0
page-0:letters,channels 1 - 2 0 0 1 4f707573486561780103000080bb.5 . 2958525750 0 0 7 0 0
page-0:letters,last 1 - 6 0 0 1 4f707573486561780101000080bb.5 . 2577258481 0 0 7 0 0
page-0:version-16,family 1 - 2 0 0 1 4f707573486561641001000080bb0000000001 . 597078562 0 0 7 0 0
page-0:version-16,channels 1 - 2 0 0 1 4f707573486561641003000080bb.5 . 607372781 0 0 7 0 0
page-0:version-16,last 1 - 6 0 0 1 4f707573486561641001000080bb.5 . 1338328900 0 0 7 0 0
page-0:family,channels 1 - 2 0 0 1 4f707573486561640103000080bb0000000001 . 2076382367 0 0 8 0 0
page-0:family,last 1 - 6 0 0 1 4f707573486561640101000080bb0000000001 . 3895586900 0 0 8 0 0
page-0:channels,last 1 - 6 0 0 1 4f707573486561640103000080bb.5 . 1515243859 0 0 7 0 0
page-0:empty 1 - 2 0 0 0 . 1377400237 0 0 7 0 0
page-0:empty,capture 1 C 2 0 0 0 . 1082659249 0 0 1 0 0
page-0:empty,version 1 V 2 0 0 0 . 2697158213 0 0 2 0 0
page-0:empty,cut 1 - 2 0 0 0 -1 1429905587 0 0 15 0 0
page-0:empty,checksum 1 K 2 0 0 0 . 1376476716 0 0 3 0 0
page-0:empty,continued 1 - 3 0 0 0 . 3733541686 0 0 6 0 0
page-0:empty,not-first 1 - 0 0 0 0 . 1114660493 0 0 7 0 0
page-0:empty,last 1 - 6 0 0 0 . 1828637639 0 0 7 0 0
page-0:unfinished 1 - 2 0 0 1 4f707573486561640101000080bb.241+ . 2789194865 0 0 7 0 0
page-0:unfinished,capture 1 C 2 0 0 1 4f707573486561640101000080bb.241+ . 305238563 0 0 1 0 0
page-0:unfinished,version 1 V 2 0 0 1 4f707573486561640101000080bb.241+ . 767645105 0 0 2 0 0
page-0:unfinished,cut 1 - 2 0 0 1 4f707573486561640101000080bb.241+ -1 3415109999 0 0 15 0 0
page-0:unfinished,checksum 1 K 2 0 0 1 4f707573486561640101000080bb.241+ . 1557902322 0 0 3 0 0
page-0:unfinished,continued 1 - 3 0 0 1 4f707573486561640101000080bb.241+ . 361651797 0 0 6 0 0
page-0:unfinished,not-first 1 - 0 0 0 1 4f707573486561640101000080bb.241+ . 249511724 0 0 7 0 0
page-0:unfinished,packets 1 - 2 0 0 2 4f707573486561640101000080bb.5 .255+ . 3628449070 0 0 7 0 0
page-0:unfinished,short 1 - 2 0 0 2 4f707573486561640101000080bb.4 .255+ . 2040567427 0 0 7 0 0
page-0:unfinished,letters 1 - 2 0 0 1 4f707573486561780101000080bb.241+ . 687114109 0 0 7 0 0
page-0:unfinished,version-16 1 - 2 0 0 1 4f707573486561641001000080bb.241+ . 1425030990 0 0 7 0 0
page-0:unfinished,family 1 - 2 0 0 1 4f707573486561640101000080bb0000000001.236+ . 1277826539 0 0 7 0 0
page-0:unfinished,channels 1 - 2 0 0 1 4f707573486561640103000080bb.241+ . 3632709917 0 0 7 0 0
page-2:not-continued 3 head - 0 0 1 1 4f70757354616773.247+ - 0 0 2 1 616263 . 2352809795 2 0 6 2 0
page-2:not-continued,capture 3 head - 0 0 1 1 4f70757354616773.247+ C 0 0 2 1 616263 . 3991114870 2 0 1 2 0
page-2:not-continued,version 3 head - 0 0 1 1 4f70757354616773.247+ V 0 0 2 1 616263 . 1399511861 2 0 2 2 0
page-2:not-continued,cut 3 head - 0 0 1 1 4f70757354616773.247+ - 0 0 2 1 616263 -1 1184275744 2 0 15 2 0
page-2:not-continued,checksum 3 head - 0 0 1 1 4f70757354616773.247+ K 0 0 2 1 616263 . 545355332 2 0 3 2 0
page-2:not-continued,serial 3 head - 0 0 1 1 4f70757354616773.247+ S 0 0 2 1 616263 . 3444380465 2 0 4 2 0
page-2:not-continued,first 3 head - 0 0 1 1 4f70757354616773.247+ - 2 0 2 1 616263 . 945173753 2 0 4 2 0
page-2:not-continued,gap 3 head - 0 0 1 1 4f70757354616773.247+ - 0 0 7 1 616263 . 968422031 2 0 5 2 0
page-2:not-continued,left-open 3 head - 0 0 1 1 4f70757354616773.247+ - 4 0 2 1 .255+ . 1082536906 2 0 6 2 0
page-2:not-continued,letters 3 head - 0 0 1 1 4f7075735461677a.247+ - 0 0 2 1 616263 . 599379858 2 0 6 2 0
page-2:not-continued,behind 3 head - 0 0 1 1 4f70757354616773.247+ - 0 0 2 2 616263 f8fffe . 2911815732 2 0 6 2 0
page-2:not-continued,no-end 3 head - 0 0 1 1 4f70757354616773.247+ - 4 0 2 0 . 1877238567 2 0 6 2 0
";

#[rattlefmt::skip]
pub(crate) const LONG_ROWS: &str = "\
page-3:too-long 4 head tags audio - 0 1920 3 1 e370ee.61438 . 1379189518 3 322792211 10 1 0
page-3:open-too-long 4 head tags audio - 0 1920 3 2 f8fffe f8.61454+ . 3218249438 3 322792211 10 2 0
page-3:capture,too-long 4 head tags audio C 0 1920 3 1 e370ee.61438 . 795698729 3 322792211 1 3 0
page-3:capture,open-too-long 4 head tags audio C 0 1920 3 2 f8fffe f8.61454+ . 2935092711 3 322792211 1 3 0
page-3:version,too-long 4 head tags audio V 0 1920 3 1 e370ee.61438 . 2010645877 3 322792211 2 3 0
page-3:version,open-too-long 4 head tags audio V 0 1920 3 2 f8fffe f8.61454+ . 1645721547 3 322792211 2 3 0
page-3:cut,too-long 4 head tags audio - 0 1920 3 1 e370ee.61438 -1 1707057970 3 322792211 15 3 0
page-3:cut,open-too-long 4 head tags audio - 0 1920 3 2 f8fffe f8.61454+ -1 103814498 3 322792211 15 3 0
page-3:checksum,too-long 4 head tags audio K 0 1920 3 1 e370ee.61438 . 1044252109 3 322792211 3 3 0
page-3:checksum,open-too-long 4 head tags audio K 0 1920 3 2 f8fffe f8.61454+ . 2062436317 3 322792211 3 3 0
page-3:serial,too-long 4 head tags audio S 0 1920 3 1 e370ee.61438 . 735829552 3 322792211 4 3 0
page-3:serial,open-too-long 4 head tags audio S 0 1920 3 2 f8fffe f8.61454+ . 1564357703 3 322792211 4 3 0
page-3:first,too-long 4 head tags audio - 2 1920 3 1 e370ee.61438 . 975360866 3 322792211 4 3 0
page-3:first,open-too-long 4 head tags audio - 2 1920 3 2 f8fffe f8.61454+ . 2200039104 3 322792211 4 3 0
page-3:gap,too-long 4 head tags audio - 0 1920 7 1 e370ee.61438 . 3023519910 3 322792211 5 3 0
page-3:gap,open-too-long 4 head tags audio - 0 1920 7 2 f8fffe f8.61454+ . 854015558 3 322792211 5 3 0
page-3:continued,too-long 4 head tags audio - 1 1920 3 1 e370ee.61438 . 1289304551 3 322792211 6 3 0
page-3:continued,open-too-long 4 head tags audio - 1 1920 3 2 f8fffe f8.61454+ . 3500852873 3 322792211 6 3 0
page-3:not-continued,too-long 4 head tags - 0 960 2 2 f8fffe f8.254+ - 0 1920 3 2 .7 e370ee.61438 . 3200116731 3 322792211 6 3 0
page-3:not-continued,open-too-long 4 head tags - 0 960 2 2 f8fffe f8.254+ - 0 1920 3 3 .7 f8fffe f8.61454+ . 609443554 3 322792211 6 3 0
page-3:left-open,too-long 4 head tags audio - 4 1920 3 2 e370ee.61438 .255+ . 165079911 3 322792211 6 3 0
page-3:left-open,open-too-long 4 head tags audio - 4 1920 3 2 f8fffe f8.61454+ . 1807788230 3 322792211 6 3 0
page-3:too-long,open-too-long 4 head tags - 0 960 2 2 f8fffe e370ee.61197+ - 1 1920 3 2 .241 f8.61454+ . 2605884018 3 322792211 10 1 0
page-3:too-long,rule 4 head tags audio - 0 1920 3 2 e370ee.61438 f900 . 785803469 3 322792211 10 1 0
page-3:too-long,rule,turned 4 head tags audio - 0 1920 3 2 f900 e370ee.61438 . 1361176619 3 322792211 11 1 3
page-3:too-long,rule,one-packet 4 head tags audio - 0 1920 3 1 f8.61440 . 96451522 3 322792211 10 1 0
page-3:too-long,mode 4 head tags audio - 0 1920 3 2 e370ee.61438 00fffe . 1503887488 3 322792211 10 1 0
page-3:too-long,mode,turned 4 head tags audio - 0 1920 3 2 00fffe e370ee.61438 . 354056049 3 322792211 12 1 0
page-3:too-long,mode,one-packet 4 head tags audio - 0 1920 3 1 .61441 . 3917642736 3 322792211 10 1 0
page-3:too-long,granule-below 4 head tags audio - 4 959 3 1 e370ee.61438 . 3676601744 3 322792211 10 1 0
page-3:too-long,granule-start 4 head tags - 0 0 2 0 - 0 959 3 1 e370ee.61438 . 591894074 3 0 10 0 0
page-3:too-long,ended 4 head tags last - 0 1920 3 1 e370ee.61438 . 4065871542 3 322792211 14 3 0
page-3:open-too-long,rule 4 head tags audio - 0 1920 3 2 f900 f8.61454+ . 19792524 3 322792211 11 1 3
page-3:open-too-long,mode 4 head tags audio - 0 1920 3 2 00fffe f8.61454+ . 1822307469 3 322792211 12 1 0
page-3:open-too-long,granule-below 4 head tags audio - 4 959 3 2 f8fffe f8.61454+ . 523712805 3 322792211 6 3 0
page-3:open-too-long,granule-start 4 head tags - 0 0 2 0 - 0 959 3 2 f8fffe f8.61454+ . 2767880064 3 0 10 1 0
page-3:open-too-long,ended 4 head tags last - 0 1920 3 2 f8fffe f8.61454+ . 3842736262 3 322792211 14 3 0
packet-of-61440-bytes 3 head tags - 4 960 2 1 f8.61439 . 1744448054 2 0 11 0 2
packet-of-61441-bytes 3 head tags - 4 960 2 1 f8.61440 . 2438539136 2 0 10 0 0
second-packet-of-61441-bytes 3 head tags - 4 960 2 2 f8fffe f8.61440 . 2177253898 2 0 10 1 0
61200-bytes-open 3 head tags - 0 -1 2 1 f8.61199+ . 3526369339 3 0 15 3 0
61455-bytes-open 3 head tags - 0 -1 2 1 f8.61454+ . 146197477 2 0 10 0 0
61455-bytes-open-over-two-pages 4 head tags - 0 -1 2 1 f8.61199+ - 1 -1 3 1 .255+ . 3479780261 3 0 10 0 0
61440-bytes-over-two-pages 4 head tags - 0 -1 2 1 f8.61199+ - 5 960 3 1 .240 . 784262279 3 0 11 0 2
61441-bytes-over-two-pages 4 head tags - 0 -1 2 1 f8.61199+ - 5 960 3 1 .241 . 2896855375 3 0 10 0 0
another-mode-before-a-packet-too-long 3 head tags - 4 960 2 2 00fffe f8.61440 . 638512329 2 0 12 0 0
48-frames-of-1275-bytes 3 head tags - 4 5760 2 1 e330.61200 . 517944250 3 3899950942 0 0 0
48-frames-of-1275-bytes-and-padding-to-61440 3 head tags - 4 5760 2 1 e370ed.61437 . 2822348843 3 2365277247 0 0 0
48-frames-of-1275-bytes-over-pages-of-one-segment 7 head tags - 0 -1 2 1 e330.15298+ - 1 -1 3 1 .15300+ - 1 -1 4 1 .15300+ - 1 -1 5 1 .15300+ - 5 5760 6 1 0000 . 157024529 7 3899950942 0 0 0
";
