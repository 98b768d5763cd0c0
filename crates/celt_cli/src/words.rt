//! The words of the command line: a command and its options, which are read by clap.
ghost use Rattle.std.specs.Prelude.{◌≡◌, ◌≢◌, ◌<◌, ◌≤◌, ◌⊎◌, ℕ, List, [], true, false, map, string_bytes, IfOk, IfSome, Some, None, option_map, if◌then◌else◌};
ghost use Rattle.clap.specs.Words.{app_of, rule_of};
ghost use Rattle.celt_cli.specs.Options.{Known, Given, has_option, value_of, options_in};
ghost use Rattle.celt_cli.specs.Words.{number_in, bytes_in, frame_in, band_in, group_in, seed_in, frames_in, with_group, encode_with, gen_with, decode_by, encode_by, ranges_by, gen_by, command_of, IsCommand, AreWithin, decode_options, encode_options, gen_options};
ghost use Rattle.celt_cli.specs.Parses.{HasOptions, IsParse, app_for, declared_by};

use crate::generator::GenSettings;
use celt_base::status::OutOfMemory;
use celt_session::{DecodeSettings, Form, Settings};
use clap::builder::ValueRange;
use clap::error::ErrorKind;
use clap::{Arg, ArgAction, ArgMatches, Command as Parser};
use std::alloc::{AllocError, Global};

/// What the words ask for.
#[derive(Clone, Copy, Debug, PartialEq, Eq)]
pub enum Command {
    /// A stream into a WAV file, into samples or into lines.
    Decode(DecodeSettings),
    /// A WAV file into a stream.
    Encode(Settings),
    /// Samples of a seed into a stream, and the stream back into samples.
    Gen(GenSettings),
}

/// The number of one to ten decimal digits.
#[tactic(auto, unfolding(crate::specs::Words::number_in))]
fn number(text: &[u8]) -> Option<u64>
    ensures { result ≡ number_in text.now }
{
    if text.is_empty() || text.len() > 10 {
        return None;
    }
    let mut number = 0u64;
    let mut next = 0;
    while next < text.len() {
        let code = text[next];
        if code < b'0' || code > b'9' {
            return None;
        }
        number = 10 * number + u64::from(code - b'0');
        next += 1;
    }
    Some(number)
}

/// The bytes of a frame: 2 to 1275.
fn frame_bytes(text: Option<&str>) -> Option<u32>
    ensures value { result ≡ bytes_in (option_map (λ s. s.now) text.entry) }
    ensures range { IfSome result (λ bytes. (2 ≤ bytes) × (bytes ≤ 1275)) }
{
    let bytes = number(text?.as_bytes())?;
    if bytes < 2 || bytes > 1275 {
        return None;
    }
    Some(bytes as u32)
}

/// The samples of a frame: one of four sizes, the longest where none is asked for.
fn frame_samples(text: Option<&str>) -> Option<u32>
    ensures value { result ≡ frame_in (option_map (λ s. s.now) text.entry) }
    ensures range { IfSome result (λ n. (n ≡ 120) ⊎ (n ≡ 240) ⊎ (n ≡ 480) ⊎ (n ≡ 960)) }
{
    let Some(text) = text else {
        return Some(960);
    };
    match number(text.as_bytes())? {
        120 => Some(120),
        240 => Some(240),
        480 => Some(480),
        960 => Some(960),
        _ => None,
    }
}

/// The number of a bandwidth, the full one where none is asked for.
fn bandwidth(text: Option<&str>) -> Option<u32>
    ensures value { result ≡ band_in (option_map (λ s. s.now) text.entry) }
    ensures range { IfSome result (λ n. n ≤ 3) }
{
    match text {
        None | Some("fb") => Some(3),
        Some("nb") => Some(0),
        Some("wb") => Some(1),
        Some("swb") => Some(2),
        Some(_) => None,
    }
}

/// The frames of a packet: 1 to 48, one where nothing is said.
fn group_frames(text: Option<&str>) -> Option<u32>
    ensures value { result ≡ group_in (option_map (λ s. s.now) text.entry) }
    ensures range { IfSome result (λ n. (1 ≤ n) × (n ≤ 48)) }
{
    let Some(text) = text else {
        return Some(1);
    };
    let frames = number(text.as_bytes())?;
    if frames < 1 || frames > 48 {
        return None;
    }
    Some(frames as u32)
}

/// The command that encodes with these settings, where a packet has at most 5760 samples.
fn encode_grouped(settings: Settings) -> Option<Command>
    requires { AreWithin settings }
    ensures value { result ≡ with_group settings }
    ensures allowed { IfSome result (λ command. IsCommand command) }
{
    if settings.group * settings.frame > 5760 {
        return None;
    }
    Some(Command::Encode(settings))
}

/// The command that encodes with these settings, where each is allowed.
fn encode_settings(
    bytes: Option<u32>,
    frame: Option<u32>,
    band: Option<u32>,
    group: Option<u32>,
) -> Option<Command>
    requires bytes { IfSome bytes (λ n. (2 ≤ n) × (n ≤ 1275)) }
    requires frame { IfSome frame (λ n. (n ≡ 120) ⊎ (n ≡ 240) ⊎ (n ≡ 480) ⊎ (n ≡ 960)) }
    requires band { IfSome band (λ n. n ≤ 3) }
    requires group { IfSome group (λ n. (1 ≤ n) × (n ≤ 48)) }
    ensures value { result ≡ encode_with bytes frame band group }
    ensures allowed { IfSome result (λ command. IsCommand command) }
{
    encode_grouped(Settings {
        bytes: bytes?,
        frame: frame?,
        band: band?,
        group: group?,
    })
}

/// The seed of `gen`: a number of 32 bits.
fn seed_number(text: Option<&str>) -> Option<u32>
    ensures { result ≡ seed_in (option_map (λ s. s.now) text.entry) }
{
    let seed = number(text?.as_bytes())?;
    if seed > 4_294_967_295 {
        return None;
    }
    Some(seed as u32)
}

/// The frames of `gen`: 1 to 10000.
fn frame_count(text: Option<&str>) -> Option<u32>
    ensures value { result ≡ frames_in (option_map (λ s. s.now) text.entry) }
    ensures range { IfSome result (λ n. (1 ≤ n) × (n ≤ 10000)) }
{
    let frames = number(text?.as_bytes())?;
    if frames < 1 || frames > 10_000 {
        return None;
    }
    Some(frames as u32)
}

/// The command `gen` with these settings, where each is allowed.
fn gen_settings(seed: Option<u32>, frames: Option<u32>) -> Option<Command>
    requires frames { IfSome frames (λ n. (1 ≤ n) × (n ≤ 10000)) }
    ensures value { result ≡ gen_with seed frames }
    ensures allowed { IfSome result (λ command. IsCommand command) }
{
    Some(Command::Gen(GenSettings {
        seed: seed?,
        frames: frames?,
    }))
}

/// An option with a value.
fn option<'a>(alloc: Global, name: &'a str) -> Arg<'a>
    ensures rule { rule_of result ≡ declared_by name.entry.now true false }
    ensures local { result.global ≡ false }
{
    Arg::new(alloc, name).long(name).action(ArgAction::Set)
}

/// An option without a value.
fn flag<'a>(alloc: Global, name: &'a str) -> Arg<'a>
    ensures rule { rule_of result ≡ declared_by name.entry.now false false }
    ensures local { result.global ≡ false }
{
    option(alloc, name).num_args(ValueRange::EMPTY)
}

/// A command whose words begin behind its name, without options.
fn plain_parser<'a>(alloc: Global) -> Parser<'a>
    ensures { app_of result ≡ app_for [] }
{
    Parser::new(alloc, "celt")
        .no_binary_name(true)
        .disable_help_flag(true)
}

/// The options of `decode`.
fn decode_parser<'a>(alloc: Global) -> Result<Parser<'a>, AllocError>
    ensures { IfOk result (λ parser. app_of parser ≡ app_for decode_options) }
{
    plain_parser(alloc)
        .arg(flag(alloc, "raw"))?
        .arg(flag(alloc, "no-inversion"))
}

/// The options of `encode`.
fn encode_parser<'a>(alloc: Global) -> Result<Parser<'a>, AllocError>
    ensures { IfOk result (λ parser. app_of parser ≡ app_for encode_options) }
{
    plain_parser(alloc)
        .arg(option(alloc, "bytes").required(true))?
        .arg(option(alloc, "frame"))?
        .arg(option(alloc, "band"))?
        .arg(option(alloc, "group"))
}

/// The options of `gen`.
fn gen_parser<'a>(alloc: Global) -> Result<Parser<'a>, AllocError>
    ensures { IfOk result (λ parser. app_of parser ≡ app_for gen_options) }
{
    plain_parser(alloc)
        .arg(option(alloc, "seed").required(true))?
        .arg(option(alloc, "frames").required(true))
}

/// Whether the words were refused, and not the memory.
fn refused(kind: ErrorKind) -> Result<(), OutOfMemory>
    ensures { IfOk result (λ done. kind ≢ ErrorKind.OutOfMemory) }
{
    match kind {
        ErrorKind::OutOfMemory => Err(OutOfMemory),
        _ => Ok(()),
    }
}

/// What the parser finds in the words. None where they write no options of it.
fn parsed<'a>(
    parser: Parser<'a>,
    words: &'a [String],
) -> Result<Option<ArgMatches<'a>>, OutOfMemory>
    ensures { (knowns : List Known) → app_of parser.entry ≡ app_for knowns → IfOk result (λ found. IsParse knowns (map string_bytes words.entry.now) found) }
{
    match parser.try_get_matches_from(words) {
        Ok(matches) => Ok(Some(matches)),
        Err(error) => {
            refused(error.kind())?;
            Ok(None)
        }
    }
}

/// Whether an option stands there.
fn has(matches: &ArgMatches, name: &str) -> bool
    ensures { (givens : List Given) → HasOptions matches.now givens → result ≡ has_option name.now givens }
{
    matches.contains_id(name)
}

/// The value of an option.
fn value<'a>(matches: &ArgMatches<'a>, name: &str) -> Option<&'a str>
    ensures { (givens : List Given) → HasOptions matches.now givens → option_map (λ s. s.now) result ≡ value_of name.now givens }
{
    matches.get_str(name)
}

/// The form of the samples.
fn form_of(raw: bool) -> Form
    ensures { result ≡ if raw then Form.Plain else Form.Wav }
{
    if raw { Form::Plain } else { Form::Wav }
}

/// `decode` with these words behind it.
fn decode_command(alloc: Global, words: &[String]) -> Result<Option<Command>, OutOfMemory>
    ensures { IfOk result (λ command. command ≡ decode_by (options_in decode_options (map string_bytes words.now))) }
{
    let Ok(parser) = decode_parser(alloc) else {
        return Err(OutOfMemory);
    };
    let Some(matches) = parsed(parser, words)? else {
        return Ok(None);
    };
    let form = form_of(has(&matches, "raw"));
    let invert = !has(&matches, "no-inversion");
    Ok(Some(Command::Decode(DecodeSettings { form, invert })))
}

/// `ranges` with these words behind it.
fn ranges_command(alloc: Global, words: &[String]) -> Result<Option<Command>, OutOfMemory>
    ensures { IfOk result (λ command. command ≡ ranges_by (options_in [] (map string_bytes words.now))) }
{
    let Some(_) = parsed(plain_parser(alloc), words)? else {
        return Ok(None);
    };
    Ok(Some(Command::Decode(DecodeSettings {
        form: Form::Ranges,
        invert: true,
    })))
}

/// `encode` with these words behind it.
fn encode_command(alloc: Global, words: &[String]) -> Result<Option<Command>, OutOfMemory>
    ensures value { IfOk result (λ command. command ≡ encode_by (options_in encode_options (map string_bytes words.now))) }
    ensures allowed { IfOk result (λ command. IfSome command (λ c. IsCommand c)) }
{
    let Ok(parser) = encode_parser(alloc) else {
        return Err(OutOfMemory);
    };
    let Some(matches) = parsed(parser, words)? else {
        return Ok(None);
    };
    Ok(encode_settings(
        frame_bytes(value(&matches, "bytes")),
        frame_samples(value(&matches, "frame")),
        bandwidth(value(&matches, "band")),
        group_frames(value(&matches, "group")),
    ))
}

/// `gen` with these words behind it.
fn gen_command(alloc: Global, words: &[String]) -> Result<Option<Command>, OutOfMemory>
    ensures value { IfOk result (λ command. command ≡ gen_by (options_in gen_options (map string_bytes words.now))) }
    ensures allowed { IfOk result (λ command. IfSome command (λ c. IsCommand c)) }
{
    let Ok(parser) = gen_parser(alloc) else {
        return Err(OutOfMemory);
    };
    let Some(matches) = parsed(parser, words)? else {
        return Ok(None);
    };
    Ok(gen_settings(
        seed_number(value(&matches, "seed")),
        frame_count(value(&matches, "frames")),
    ))
}

/// The command that the words name. None where they are not accepted.
pub fn command_in(alloc: Global, words: &[String]) -> Result<Option<Command>, OutOfMemory>
    ensures value { IfOk result (λ command. command ≡ command_of words.now) }
    ensures allowed { IfOk result (λ command. IfSome command (λ c. IsCommand c)) }
{
    let Some((name, options)) = words.split_first() else {
        return Ok(None);
    };
    match name.as_str() {
        "decode" => decode_command(alloc, options),
        "encode" => encode_command(alloc, options),
        "ranges" => ranges_command(alloc, options),
        "gen" => gen_command(alloc, options),
        _ => Ok(None),
    }
}
