//! The parameters of a raw part: names, values and their faults.

ghost use Rattle.std.specs.Prelude.{◌≡◌, ◌≤◌, ◌<◌, ◌*◌, ◌++◌, [], map, IfOk, OnOk, IfSome, is_some};
ghost use Rattle.std.specs.Option.{option_map, option_to_list};
ghost use Rattle.std.specs.List.{flat_map};
ghost use Rattle.sdp_reader.specs.Fault.{least};
ghost use Rattle.sdp_reader.specs.Parameters.{table_name, row_of, item_at, items_of, list_of, parameters, value_within, value_size, value_offset, value_limit, is_the, udp_cause, value_rate, value_kind, rate_of, kind_of, unless, cause_of, item_faults, repeated_faults, item_named};
ghost use Rattle.sdp_reader.specs.Bytes.{number};
ghost use Rattle.sdp_reader.specs.Plain.{plain, plain_item};

use crate::bytes::{cut, field, is_same, is_same_word, number, number_within, strip, trim};
use crate::fault::{SdpCause, SdpFault, first_of};
use crate::line::{Line, at};
use std::alloc::{AllocError, Global};
use timing_base::Kind;

/// The known parameters.
#[derive(Clone, Copy, Debug)]
pub(crate) enum Name {
    /// The width, in pixels.
    Width,
    /// The height, in lines.
    Height,
    /// The frame rate.
    ExactFrameRate,
    /// The flag for pictures sent as two fields.
    Interlace,
    /// The flag for pictures sent in segments (PsF).
    Segmentation,
    /// The sender type.
    Tp,
    /// The offset of the first read, in microseconds.
    Troff,
    /// The limit of the bucket, in packets.
    Cmax,
    /// The greatest size of UDP datagrams, in bytes.
    MaxUdp,
}

impl Name {
    /// Returns the index of the parameter in the list of known ones, counted from 0.
    fn row(self) -> usize
        ensures value { result ≡ row_of self }
        ensures inside { result < 9 }
    {
        match self {
            Name::Width => 0,
            Name::Height => 1,
            Name::ExactFrameRate => 2,
            Name::Interlace => 3,
            Name::Segmentation => 4,
            Name::Tp => 5,
            Name::Troff => 6,
            Name::Cmax => 7,
            Name::MaxUdp => 8,
        }
    }
}

/// A frame rate of `p / q` frames per second.
#[derive(Clone, Copy, Debug)]
pub(crate) struct Rate {
    /// The numerator.
    pub p: u32,
    /// The denominator.
    pub q: u32,
}

/// A known parameter.
#[derive(Clone, Copy, Debug)]
pub(crate) struct Parameter<'a> {
    /// The line, counted from 1.
    pub line: u32,
    /// Which parameter it is.
    pub name: Name,
    /// The text after `=`, if there is one.
    pub value: Option<&'a [u8]>,
}

/// Returns the known parameter of this name, ignoring ASCII case.
fn table_name(text: &[u8]) -> Option<Name>
    ensures { result ≡ table_name text.now }
{
    if is_same_word(text, b"width") {
        Some(Name::Width)
    } else if is_same_word(text, b"height") {
        Some(Name::Height)
    } else if is_same_word(text, b"exactframerate") {
        Some(Name::ExactFrameRate)
    } else if is_same_word(text, b"interlace") {
        Some(Name::Interlace)
    } else if is_same_word(text, b"segmented") {
        Some(Name::Segmentation)
    } else if is_same_word(text, b"TP") {
        Some(Name::Tp)
    } else if is_same_word(text, b"TROFF") {
        Some(Name::Troff)
    } else if is_same_word(text, b"CMAX") {
        Some(Name::Cmax)
    } else if is_same_word(text, b"MAXUDP") {
        Some(Name::MaxUdp)
    } else {
        None
    }
}

/// Returns whether a parameter of this name is known, ignoring ASCII case.
pub fn is_known(name: &[u8]) -> bool
    ensures { result ≡ is_some (table_name name.now) }
{
    table_name(name).is_some()
}

/// Returns the parameter of one item of a list, `name=value` or `name`, or `None` if the name isn't
/// known.
fn item_at(line: u32, piece: &[u8]) -> Option<Parameter<'_>>
    ensures { option_map plain_item result ≡ item_at line piece.now }
{
    let text = trim(piece);
    let (name, value) = match cut(b'=', text) {
        Some((name, value)) => (name, Some(value)),
        None => (text, None),
    };
    let name = table_name(name)?;
    Some(Parameter { line, name, value })
}

/// Returns the rate `P` or `P/Q` in frames per second, if Q is 1 to 1,001 and the rate is above 0
/// and at most 240.
fn rate_of(text: &[u8]) -> Option<Rate>
    ensures value { result ≡ rate_of text.now }
    ensures p_some { IfSome result (λ r. 1 ≤ r.p) }
    ensures p_most { IfSome result (λ r. r.p ≤ 240 * r.q) }
    ensures q_some { IfSome result (λ r. 1 ≤ r.q) }
    ensures q_most { IfSome result (λ r. r.q ≤ 1001) }
{
    let (p, q) = match cut(b'/', text) {
        Some((p, q)) => (number(p), number_within(1, 1001, q)),
        None => (number(text), Some(1)),
    };
    match (p, q) {
        (Some(p), Some(q)) if 1 <= p && p <= 240 * u64::from(q) => Some(Rate { p: p as u32, q }),
        _ => None,
    }
}

/// Returns the sender type with this name.
fn kind_of(text: &[u8]) -> Option<Kind>
    ensures { result ≡ kind_of text.now }
{
    if is_same(text, b"2110TPN") {
        Some(Kind::N)
    } else if is_same(text, b"2110TPNL") {
        Some(Kind::NL)
    } else if is_same(text, b"2110TPW") {
        Some(Kind::W)
    } else {
        None
    }
}

impl Parameter<'_> {
    /// Returns the value as a number, if it is one from `low` to `high`.
    fn number(&self, low: u32, high: u32) -> Option<u32>
        ensures value { result ≡ value_within low high (plain_item self.now) }
        ensures low { IfSome result (λ n. low ≤ n) }
        ensures high { IfSome result (λ n. n ≤ high) }
    {
        number_within(low, high, self.value?)
    }

    /// Returns the value as a width or height, in pixels or lines.
    pub(crate) fn size(&self) -> Option<u32>
        ensures value { result ≡ value_size (plain_item self.now) }
        ensures some { IfSome result (λ n. 1 ≤ n) }
        ensures most { IfSome result (λ n. n ≤ 32767) }
    {
        self.number(1, 32_767)
    }

    /// Returns the value as an offset, in microseconds.
    pub(crate) fn offset(&self) -> Option<u32>
        ensures value { result ≡ value_offset (plain_item self.now) }
        ensures most { IfSome result (λ n. n ≤ 1000000) }
    {
        self.number(0, 1_000_000)
    }

    /// Returns the value as a limit, in packets or bytes.
    pub(crate) fn limit(&self) -> Option<u32>
        ensures value { result ≡ value_limit (plain_item self.now) }
        ensures some { IfSome result (λ n. 1 ≤ n) }
        ensures most { IfSome result (λ n. n ≤ 65535) }
    {
        self.number(1, 65_535)
    }

    /// Returns the value as a frame rate.
    pub(crate) fn rate(&self) -> Option<Rate>
        ensures value { result ≡ value_rate (plain_item self.now) }
        ensures p_some { IfSome result (λ r. 1 ≤ r.p) }
        ensures p_most { IfSome result (λ r. r.p ≤ 240 * r.q) }
        ensures q_some { IfSome result (λ r. 1 ≤ r.q) }
        ensures q_most { IfSome result (λ r. r.q ≤ 1001) }
    {
        rate_of(self.value?)
    }

    /// Returns the value as a sender type.
    pub(crate) fn kind(&self) -> Option<Kind>
        ensures { result ≡ value_kind (plain_item self.now) }
    {
        kind_of(self.value?)
    }

    /// Returns the cause, if the parameter is invalid or not supported.
    fn cause(&self) -> Option<SdpCause>
        ensures { result ≡ cause_of self.now.name (plain_item self.now) }
    {
        let bad = SdpCause::BadParameter;
        match self.name {
            Name::Width | Name::Height => unless(self.size().is_some(), bad),
            Name::ExactFrameRate => unless(self.rate().is_some(), SdpCause::BadRate),
            Name::Interlace => unless(self.value.is_none(), bad),
            Name::Segmentation if self.value.is_none() => Some(SdpCause::Segmented),
            Name::Segmentation => Some(bad),
            Name::Tp => unless(self.kind().is_some(), bad),
            Name::Troff => unless(self.offset().is_some(), bad),
            Name::Cmax => unless(self.limit().is_some(), bad),
            Name::MaxUdp => udp_cause(self.limit()),
        }
    }

    /// Returns the fault on the parameter's line, if it is invalid or not supported.
    fn fault(&self) -> Option<SdpFault>
        ensures { result ≡ least (item_faults (plain_item self.now)) }
    {
        let what = self.cause()?;
        Some(SdpFault {
            line: self.line,
            what,
        })
    }
}

/// Returns the cause, unless the parameter is valid.
fn unless(fits: bool, cause: SdpCause) -> Option<SdpCause>
    ensures { result ≡ unless fits cause }
{
    if fits { None } else { Some(cause) }
}

/// Returns the cause, if the size limit of UDP datagrams isn't valid or is above 1,460 bytes.
fn udp_cause(limit: Option<u32>) -> Option<SdpCause>
    ensures { result ≡ udp_cause limit }
{
    match limit {
        Some(bytes) if bytes > 1460 => Some(SdpCause::ExtendedUdp),
        Some(_) => None,
        None => Some(SdpCause::BadParameter),
    }
}

/// Returns the list of a line `a=fmtp:FORMAT LIST`. Other lines have an empty one.
fn list_of<'a>(line: &Line<'a>, format: u8) -> &'a [u8]
    ensures { result.now ≡ list_of format (plain line.now) }
{
    match strip(line.text, b"a=fmtp:") {
        Some(rest) => {
            let (own, list) = field(b' ', rest);
            if is_the(format, own) { list } else { &[] }
        }
        None => &[],
    }
}

/// Returns whether the text is this number.
pub fn is_the(format: u8, text: &[u8]) -> bool
    ensures { result ≡ is_the format (number text.now) }
{
    number(text) == Some(u64::from(format))
}

/// Appends a parameter if there is one. Returns `Err` if memory runs out.
fn add_item<'a>(
    items: &mut Vec<Parameter<'a>>,
    item: Option<Parameter<'a>>,
) -> Result<(), AllocError>
    ensures { OnOk result (map plain_item items.new.items
        ≡ map plain_item items.old.items ++ option_to_list (option_map plain_item item.entry)) }
{
    if let Some(item) = item {
        items.push(item)?;
    }
    Ok(())
}

/// Appends the known parameters of a list. Returns `Err` if memory runs out.
fn add_items<'a>(
    items: &mut Vec<Parameter<'a>>,
    line: u32,
    list: &'a [u8],
) -> Result<(), AllocError>
    ensures { OnOk result (map plain_item items.new.items
        ≡ map plain_item items.old.items ++ items_of line list.now) }
{
    let mut rest = list;
    while let Some((piece, after)) = cut(b';', rest) {
        add_item(items, item_at(line, piece))?;
        rest = after;
    }
    add_item(items, item_at(line, rest))
}

/// Returns the known parameters of a part's lines, in order. Returns `Err` if memory runs out.
pub(crate) fn parameters<'a>(
    alloc: Global,
    format: u8,
    body: &[Line<'a>],
) -> Result<Vec<Parameter<'a>>, AllocError>
    ensures { IfOk result (λ v. map plain_item v.items ≡ parameters format (map plain body.now)) }
{
    let mut items = Vec::new(alloc);
    for line in body {
        add_items(&mut items, line.number, list_of(line, format))?;
    }
    Ok(items)
}

/// Returns the first fault that a parameter has by itself.
pub(crate) fn item_fault(items: &[Parameter]) -> Option<SdpFault>
    ensures { result ≡ least (flat_map item_faults (map plain_item items.now)) }
{
    let mut fault = None;
    for item in items {
        fault = first_of(fault, item.fault());
    }
    fault
}

/// Returns the fault of the first parameter with the name of an earlier one.
pub(crate) fn repeated_fault(items: &[Parameter]) -> Option<SdpFault>
    ensures { result ≡ least (repeated_faults (map plain_item items.now)) }
{
    let mut fault = None;
    let mut seen = [false; 9];
    for item in items {
        let row = item.name.row();
        fault = first_of(fault, at(item.line, SdpCause::RepeatedParameter, seen[row]));
        seen[row] = true;
    }
    fault
}

/// Returns the first parameter of this name.
pub(crate) fn item_named<'a>(name: Name, items: &[Parameter<'a>]) -> Option<Parameter<'a>>
    ensures { option_map plain_item result ≡ item_named name (map plain_item items.now) }
{
    let row = name.row();
    for item in items {
        if item.name.row() == row {
            return Some(*item);
        }
    }
    None
}
