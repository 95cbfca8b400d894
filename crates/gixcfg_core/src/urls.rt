//! URLs as git compares them, by its manual page `git-config`, `http.<url>.*` and `--url`, and by what git does.
ghost use Rattle.std.specs.Prelude.{◌≡◌, true, false, None, ◌<◌, ◌≤◌, ◌++◌, ◌∷◌, [], Some, IfSome, MatchOption, IfOk, IfErr, OnOk, length, map, position, take, unwrap_or};
ghost use Rattle.std.specs.Char.{to_ascii_lowercase};
ghost use Rattle.std.specs.List.{list_any};
ghost use Rattle.std.specs.Option.{option_copied, option_map};
ghost use Rattle.gixcfg_core.specs.UrlFaults.{GivesOr, IsEscapeFault, IsPathFault};
ghost use Rattle.gixcfg_core.specs.Urls as spec;
ghost use Rattle.gixcfg_core.specs.Urls.{fits_labels, followed, is_colon, joined, labels, rooted, segments, specificity, before_host, host_of, is_end, is_no_host_byte, is_no_scheme_byte, HasOtherPort, IsPlace, IsScheme, IsUrl, with_segment, with_segments, without_last, written};
ghost use Rattle.gixcfg_core.specs.declared.urls.Fault.TheVariants.{Memory, Refused};
ghost use Rattle.gixcfg_core.specs.declared.urls.Refusal.TheVariants.{Parent, Port};

use crate::numbers::{byte_of, digits_at_front};
use crate::typed::ends_name;
use bstr::ByteSlice;
use std::alloc::{AllocError, AllocFailed, Global};

/// Why a text is no URL.
#[derive(Clone, Copy)]
pub enum Refusal {
    /// No scheme with `://` behind it comes first.
    Scheme,
    /// Only a `file` URL has no host.
    Host,
    /// A byte of the host is none that a host may have.
    HostByte,
    /// The port isn't a number from 1 to 65535, or the URL has no host.
    Port,
    /// Two hexadecimal digits don't follow a `%`.
    Escape,
    /// A segment `..` has no segment before it.
    Parent,
}

impl Refusal {
    /// The error in words.
    pub fn reason(self) -> &'static str {
        match self {
            Refusal::Scheme => "it begins with no scheme and ://",
            Refusal::Host => "it has no host",
            Refusal::HostByte => "its host has a character that no host has",
            Refusal::Port => "its port is no number from 1 to 65535 behind a host",
            Refusal::Escape => "it has a % without two hexadecimal digits",
            Refusal::Parent => "its path has a .. that leads out of it",
        }
    }
}

/// Why a URL isn't had.
#[derive(Clone, Copy)]
pub enum Fault {
    /// The text is none.
    Refused(Refusal),
    /// Out of memory.
    Memory,
}

impl From<AllocError> for Fault {
    ghost from_gives = { λ _ e. e ≡ Memory };

    fn from(_: AllocError) -> Fault {
        Fault::Memory
    }
}

impl<T> From<AllocFailed<T>> for Fault
where
    T: Drop,
{
    ghost from_gives = { λ _ e. e ≡ Memory };

    fn from(_: AllocFailed<T>) -> Fault {
        Fault::Memory
    }
}

impl From<Refusal> for Fault {
    ghost from_gives = { λ refusal e. e ≡ Refused refusal };

    fn from(refusal: Refusal) -> Fault {
        Fault::Refused(refusal)
    }
}

/// A URL in normal form: two that differ in spelling alone have the same parts. The password is left out, since no rule asks for it.
#[derive(Drop)]
pub struct Url {
    /// The scheme, in lower case.
    pub scheme: Vec<u8>,
    /// The name of the user, if there is one.
    pub user: Option<Vec<u8>>,
    /// The host, in lower case; it is empty if there is none.
    pub host: Vec<u8>,
    /// The port, if it isn't the scheme's own.
    pub port: Option<u16>,
    /// What follows: the path, which begins with a slash and has no segments `.` and `..`, with query and fragment.
    pub path: Vec<u8>,
}

/// How closely the URL of a section matches another one. What counts first comes first.
#[derive(Clone, Copy, PartialEq, Eq, PartialOrd, Ord)]
pub struct Specificity {
    /// The length of the section's host.
    pub host_len: usize,
    /// How much of the path is matched, with the slash that ends it.
    pub path_len: usize,
    /// Whether the section names the user.
    pub has_user: bool,
}

impl Specificity {
    /// That of a section without a URL, which matches any.
    pub const LEAST: Specificity = Specificity {
        host_len: 0,
        path_len: 0,
        has_user: false,
    };

    /// Whether it counts at least as much as another one.
    pub fn is_at_least(&self, other: &Specificity) -> bool
        ensures { result ≡ spec.is_at_least self.now other.now }
    {
        *self >= *other
    }
}

/// The URL that a call names: `HTTP://Ada:x@Example.com:80/a/../b` is that of the scheme `http`, the user `Ada`, the host `example.com`, no
/// port and the path `/b`. One pass.
///
/// # Errors
///
/// The text is none; out of memory.
pub fn url_of(alloc: Global, text: &[u8]) -> Result<Url, Fault>
    ensures other_port { IfOk result HasOtherPort }
    ensures made { IfOk result (IsUrl false text.now) }
{
    normalized(alloc, text, false)
}

/// The URL that a section names, as [`url_of`] reads it. But there may be stars in its host.
///
/// # Errors
///
/// The text is none; out of memory.
pub fn pattern_of(alloc: Global, text: &[u8]) -> Result<Url, Fault>
    ensures other_port { IfOk result HasOtherPort }
    ensures made { IfOk result (IsUrl true text.now) }
{
    normalized(alloc, text, true)
}

/// How closely the URL of a section matches another one, if it does: they have the same scheme, port and host, but for labels that are a
/// star; the section's path is the other's or its front up to a slash; and if it names a user, that is the other's. One pass over both,
/// which takes no memory.
pub fn specificity_of(pattern: &Url, url: &Url) -> Option<Specificity>
    ensures { result ≡ specificity pattern.now url.now }
{
    if pattern.scheme.as_slice() != url.scheme.as_slice()
        || pattern.port != url.port
        || !fits_user(pattern.user.as_deref(), url.user.as_deref())
        || !fits_host(&pattern.host, &url.host)
    {
        return None;
    }
    Some(Specificity {
        host_len: pattern.host.len(),
        path_len: path_match(&pattern.path, &url.path)?,
        has_user: pattern.user.is_some(),
    })
}

/// Whether the user that a section names, if it names one, is the URL's.
fn fits_user(pattern: Option<&[u8]>, user: Option<&[u8]>) -> bool
    ensures { result ≡ spec.fits_user (option_copied pattern.entry) (option_copied user.entry) }
{
    match (pattern, user) {
        (None, _) => true,
        (Some(_), None) => false,
        (Some(pattern), Some(user)) => pattern == user,
    }
}

/// Whether each label of a section's host is that of the URL's, or a star.
fn fits_host(pattern: &[u8], host: &[u8]) -> bool
    ensures { result ≡ fits_labels (labels pattern.now) (labels host.now) }
{
    let (mut patterns, mut labels) = (pattern, host);
    while !patterns.is_empty() && !labels.is_empty() {
        let (pattern, other_patterns) = first_label(patterns);
        let (label, other_labels) = first_label(labels);
        if pattern != b"*".as_slice() && pattern != label {
            return false;
        }
        (patterns, labels) = (other_patterns, other_labels);
    }
    patterns.is_empty() && labels.is_empty()
}

/// The first label of a host, and what follows the dot that ends it.
fn first_label(host: &[u8]) -> (&[u8], &[u8])
    requires { 0 < length host.now }
    ensures first { labels host.now ≡ result.0.now ∷ labels result.1.now }
    ensures shorter { length result.1.now < length host.now }
{
    match host.find_byte(b'.') {
        Some(end) => (host.split_at(end).0, host.split_at(end + 1).1),
        None => (host, b""),
    }
}

/// How much of a path a section's path matches, with the slash that ends it.
fn path_match(pattern: &[u8], path: &[u8]) -> Option<usize>
    ensures { result ≡ spec.path_match pattern.now path.now }
{
    let front = without_slash(pattern);
    if path.starts_with(front) && ends_name(path.split_at(front.len()).1) {
        Some(front.len() + 1)
    } else {
        None
    }
}

/// A path without a slash at its end.
fn without_slash(path: &[u8]) -> &[u8]
    ensures { result.now ≡ spec.without_slash path.now }
{
    match path {
        [front @ .., b'/'] => front,
        _ => path,
    }
}

/// A URL in normal form, in whose host stars may be.
#[tactic(auto, using(crate::proofs::UrlLemmas::other_port_is))]
fn normalized(alloc: Global, text: &[u8], has_stars: bool) -> Result<Url, Fault>
    ensures other_port { IfOk result HasOtherPort }
    ensures made { IfOk result (IsUrl has_stars text.now) }
{
    let Some((scheme, rest)) = split_scheme(text) else {
        return Err(Fault::Refused(Refusal::Scheme));
    };
    let (authority, rest) = rest.split_at(len_before(rest, b"/?#"));
    let (path, query) = rest.split_at(len_before(rest, b"?#"));
    let (user_info, place) = split_user(authority);
    let (host, port) = split_port(place);
    let scheme = scheme.to_ascii_lowercase(alloc)?;
    let host = checked_host(&scheme, host, port, has_stars)?;
    Ok(Url {
        user: user_named(alloc, user_info)?,
        host: host.to_ascii_lowercase(alloc)?,
        port: port_of(&scheme, port)?,
        path: path_of(alloc, path, query)?,
        scheme,
    })
}

/// How many bytes of a text come before the first of these.
#[tactic(auto, using(crate::proofs::UrlLemmas::none_before))]
fn len_before(text: &[u8], ends: &[u8]) -> usize
    ensures before { list_any (is_end ends.now) (take result text.now) ≡ false }
    ensures within { result ≤ length text.now }
{
    match first_end(text, ends) {
        Some(len) => len,
        None => text.len(),
    }
}

/// The place of the first of these bytes in a text.
fn first_end(text: &[u8], ends: &[u8]) -> Option<usize>
    ensures place { result ≡ position (is_end ends.now) text.now }
    ensures within { IfSome result (λ n. n < length text.now) }
{
    text.iter().position(|byte| is_end(ends, *byte))
}

/// Whether a byte is one of these.
fn is_end(ends: &[u8], byte: u8) -> bool
    ensures { result ≡ spec.is_end ends.now byte }
{
    ends.contains(&byte)
}

/// The scheme of a URL, which begins with a letter, and what follows the `://` behind it.
#[tactic(auto, using(crate::proofs::UrlLemmas::none_before))]
fn split_scheme(text: &[u8]) -> Option<(&[u8], &[u8])>
    ensures whole { IfSome result (λ p. text.now ≡ p.0.now ++ 58 ∷ 47 ∷ 47 ∷ p.1.now) }
    ensures scheme { IfSome result (λ p. IsScheme p.0.now) }
{
    let len = scheme_len(text)?;
    match text.split_at(len) {
        (scheme, [b':', b'/', b'/', rest @ ..]) if begins_with_letter(scheme) => {
            Some((scheme, rest))
        }
        _ => None,
    }
}

/// The place of the first byte that no scheme has.
fn scheme_len(text: &[u8]) -> Option<usize>
    ensures place { result ≡ position is_no_scheme_byte text.now }
    ensures within { IfSome result (λ n. n < length text.now) }
{
    text.iter().position(|byte| !is_scheme_byte(*byte))
}

/// Whether a scheme may have a byte.
fn is_scheme_byte(byte: u8) -> bool
    ensures { result ≡ spec.is_scheme_byte byte }
{
    byte.is_ascii_alphanumeric() || matches!(byte, b'+' | b'.' | b'-')
}

/// Whether a letter comes first.
fn begins_with_letter(text: &[u8]) -> bool
    ensures { result ≡ spec.begins_with_letter text.now }
{
    match text {
        [first, ..] => first.is_ascii_alphabetic(),
        [] => false,
    }
}

/// What stands before the first `@`, if there is one, and what else comes before the path.
fn split_user(authority: &[u8]) -> (Option<&[u8]>, &[u8])
    ensures whole { authority.now ≡ before_host (option_copied result.0) ++ result.1.now }
    ensures first { list_any (is_end (64 ∷ [])) (unwrap_or (option_copied result.0) []) ≡ false }
{
    match authority.split_at(len_before(authority, b"@")) {
        (user_info, [b'@', place @ ..]) => (Some(user_info), place),
        _ => (None, authority),
    }
}

/// The host, and what stands behind the `:` of the port. One in brackets is none.
fn split_port(place: &[u8]) -> (&[u8], &[u8])
    ensures { IsPlace place.now result.0.now result.1.now }
{
    match place.iter().rposition(|byte| matches!(*byte, b':' | b']')) {
        Some(end) => match place.split_at(end) {
            (host, [b':', digits @ ..]) => (host, digits),
            _ => (place, b""),
        },
        None => (place, b""),
    }
}

/// The host, tested. One that is missing is empty.
fn checked_host<'a>(
    scheme: &[u8],
    host: &'a [u8],
    port: &[u8],
    has_stars: bool,
) -> Result<&'a [u8], Refusal>
    ensures same { IfOk result (λ tested. map to_ascii_lowercase tested.now ≡ host_of host.now) }
    ensures bytes { IfOk result (λ _. list_any (is_no_host_byte has_stars) host.now ≡ false) }
{
    check_bytes(host, has_stars)?;
    match host {
        [] | [b':', ..] => {
            check_missing(scheme, port)?;
            Ok(b"")
        }
        _ => Ok(host),
    }
}

/// Tests that a URL of this scheme may be without a host, and that it has no port then.
fn check_missing(scheme: &[u8], port: &[u8]) -> Result<(), Refusal> {
    if scheme != b"file".as_slice() {
        Err(Refusal::Host)
    } else if !port.is_empty() {
        Err(Refusal::Port)
    } else {
        Ok(())
    }
}

/// Tests that a host may have these bytes.
fn check_bytes(host: &[u8], has_stars: bool) -> Result<(), Refusal>
    ensures { OnOk result (list_any (is_no_host_byte has_stars) host.now ≡ false) }
{
    if has_other_byte(host, has_stars) {
        Err(Refusal::HostByte)
    } else {
        Ok(())
    }
}

/// Whether there is a byte that no host has.
fn has_other_byte(host: &[u8], has_stars: bool) -> bool
    ensures { result ≡ list_any (is_no_host_byte has_stars) host.now }
{
    host.iter().any(|byte| !is_host_byte(has_stars, *byte))
}

/// Whether a host may have a byte; a star only if it may have stars. Brackets and colons are those of an address of IPv6.
fn is_host_byte(has_stars: bool, byte: u8) -> bool
    ensures { result ≡ spec.is_host_byte has_stars byte }
{
    byte.is_ascii_alphanumeric()
        || matches!(byte, b'.' | b'-' | b'_' | b'[' | b':' | b']')
        || (has_stars && byte == b'*')
}

/// The port of a URL of this scheme, by its digits; none if it is the scheme's own, or not given.
fn port_of(scheme: &[u8], digits: &[u8]) -> Result<Option<u16>, Refusal>
    ensures { GivesOr Port result (spec.port_of scheme.now digits.now) }
{
    if digits.is_empty() {
        return Ok(None);
    }
    match written_port(digits) {
        Some(port) if default_port(scheme) == Some(port) => Ok(None),
        Some(port) => Ok(Some(port)),
        None => Err(Refusal::Port),
    }
}

/// The port that digits write.
fn written_port(digits: &[u8]) -> Option<u16>
    ensures { result ≡ spec.written_port digits.now }
{
    match digits_at_front(digits, 10) {
        Some((port @ 1..=65535, [])) => Some(port as u16),
        _ => None,
    }
}

/// The port that a URL of this scheme has where it names none, if git knows one.
fn default_port(scheme: &[u8]) -> Option<u16>
    ensures { result ≡ spec.default_port scheme.now }
{
    if scheme == b"http".as_slice() {
        Some(80)
    } else if scheme == b"https".as_slice() {
        Some(443)
    } else {
        None
    }
}

/// The user whose name stands before an `@`.
fn user_named(alloc: Global, user_info: Option<&[u8]>) -> Result<Option<Vec<u8>>, Fault>
    ensures { IfOk result (λ user. spec.user_named (option_copied user_info.entry) ≡ Some (option_map (λ name. name.items) user)) }
{
    match user_info {
        Some(user_info) => Ok(Some(user_of(alloc, user_info)?)),
        None => Ok(None),
    }
}

/// The name of a user in normal form, without a password.
fn user_of(alloc: Global, user_info: &[u8]) -> Result<Vec<u8>, Fault>
    ensures made { IfOk result (λ user. spec.user_of user_info.now ≡ Some user.items) }
    ensures refused { IfErr result (λ fault. IsEscapeFault fault (spec.user_of user_info.now)) }
{
    let mut user = Vec::new(alloc);
    add_text(&mut user, user_info)?;
    user.truncate(name_len(&user));
    Ok(user)
}

/// How many bytes come before the colon of a password.
fn name_len(user: &[u8]) -> usize
    ensures { result ≡ unwrap_or (position is_colon user.now) (length user.now) }
{
    match first_colon(user) {
        Some(len) => len,
        None => user.len(),
    }
}

/// The place of the first colon.
fn first_colon(text: &[u8]) -> Option<usize>
    ensures { result ≡ position is_colon text.now }
{
    text.iter().position(|byte| *byte == b':')
}

/// A path in normal form, with the query that follows it.
fn path_of(alloc: Global, path: &[u8], query: &[u8]) -> Result<Vec<u8>, Fault>
    ensures made { IfOk result (λ made. spec.path_of path.now query.now ≡ Some made.items) }
    ensures refused { IfErr result (λ fault. IsPathFault fault (spec.path_of path.now query.now)) }
{
    let mut normal = Vec::new(alloc);
    add_segments(alloc, &mut normal, behind_slash(path))?;
    add_root(&mut normal)?;
    add_text(&mut normal, query)?;
    Ok(normal)
}

/// A text without a slash at its front.
fn behind_slash(text: &[u8]) -> &[u8]
    ensures { result.now ≡ spec.behind_slash text.now }
{
    match text {
        [b'/', rest @ ..] => rest,
        _ => text,
    }
}

/// Adds a slash to an empty path.
fn add_root(path: &mut Vec<u8>) -> Result<(), Fault>
    ensures added { OnOk result (path.new.items ≡ rooted path.old.items) }
    ensures refused { IfErr result (λ fault. fault ≡ Memory) }
{
    if path.is_empty() {
        path.push(b'/')?;
    }
    Ok(())
}

/// Adds the segments of a text to a path.
#[tactic(auto, using(crate::proofs::UrlLemmas::none_stays))]
fn add_segments(alloc: Global, path: &mut Vec<u8>, text: &[u8]) -> Result<(), Fault>
    ensures added { OnOk result (with_segments (Some path.old.items) (segments text.now) ≡ Some path.new.items) }
    ensures refused { IfErr result (λ fault. IsPathFault fault (with_segments (Some path.old.items) (segments text.now))) }
{
    let mut rest = text;
    while let Some((segment, others)) = split_segment(rest) {
        add_segment(alloc, path, segment)?;
        rest = others;
    }
    add_segment(alloc, path, rest)
}

/// The first segment of a path, and what follows the slash that ends it, if there is one.
fn split_segment(path: &[u8]) -> Option<(&[u8], &[u8])>
    ensures first { MatchOption result (segments path.now ≡ path.now ∷ []) (λ p. segments path.now ≡ p.0.now ∷ segments p.1.now) }
    ensures shorter { IfSome result (λ p. length p.1.now < length path.now) }
{
    match path.find_byte(b'/') {
        Some(end) => Some((path.split_at(end).0, path.split_at(end + 1).1)),
        None => None,
    }
}

/// Adds a segment to a path: one of a single dot adds nothing, and one of two dots takes the last one away.
fn add_segment(alloc: Global, path: &mut Vec<u8>, segment: &[u8]) -> Result<(), Fault>
    ensures added { OnOk result (with_segment path.old.items segment.now ≡ Some path.new.items) }
    ensures refused { IfErr result (λ fault. IsPathFault fault (with_segment path.old.items segment.now)) }
{
    let mut normal = Vec::new(alloc);
    add_text(&mut normal, segment)?;
    add_normal(path, &normal)
}

/// Adds a segment in normal form to a path.
fn add_normal(path: &mut Vec<u8>, segment: &[u8]) -> Result<(), Fault>
    ensures added { OnOk result (followed path.old.items segment.now ≡ Some path.new.items) }
    ensures refused { IfErr result (λ fault. IsPathFault fault (followed path.old.items segment.now)) }
{
    if segment == b".".as_slice() {
        Ok(())
    } else if segment == b"..".as_slice() {
        Ok(remove_segment(path)?)
    } else {
        path.push(b'/')?;
        path.extend_from_slice(segment)?;
        Ok(())
    }
}

/// Takes the last segment of a path away.
fn remove_segment(path: &mut Vec<u8>) -> Result<(), Refusal>
    ensures removed { OnOk result (without_last path.old.items ≡ Some path.new.items) }
    ensures refused { IfErr result (λ refusal. (refusal ≡ Parent) × (without_last path.old.items ≡ None)) }
{
    match path.as_slice().rfind_byte(b'/') {
        Some(len) => {
            path.truncate(len);
            Ok(())
        }
        None => Err(Refusal::Parent),
    }
}

/// Adds a text, its escapes in normal form.
#[tactic(auto, using(crate::proofs::UrlLemmas::nothing_left))]
fn add_text(normal: &mut Vec<u8>, text: &[u8]) -> Result<(), Fault>
    ensures added { OnOk result (joined (Some normal.old.items) (spec.normal text.now) ≡ Some normal.new.items) }
    ensures refused { IfErr result (λ fault. IsEscapeFault fault (spec.normal text.now)) }
{
    let mut rest = text;
    while !rest.is_empty() {
        rest = add_first(normal, rest)?;
    }
    Ok(())
}

/// Adds the byte that comes first in a text or is escaped there, and returns what follows.
#[tactic(auto, unfolding(crate::specs::Urls::normal_behind))]
fn add_first<'a>(normal: &mut Vec<u8>, text: &'a [u8]) -> Result<&'a [u8], Fault>
    requires { 0 < length text.now }
    ensures added { IfOk result (λ rest. joined (Some normal.new.items) (spec.normal rest.now) ≡ joined (Some normal.old.items) (spec.normal text.now)) }
    ensures shorter { IfOk result (λ rest. length rest.now < length text.now) }
    ensures refused { IfErr result (λ fault. IsEscapeFault fault (spec.normal text.now)) }
{
    match text {
        [b'%', high, low, rest @ ..] => {
            let Some(byte) = byte_of(*high, *low) else {
                return Err(Fault::Refused(Refusal::Escape));
            };
            add_byte(normal, byte, is_unsafe(byte) || is_reserved(byte))?;
            Ok(rest)
        }
        [b'%', ..] => Err(Fault::Refused(Refusal::Escape)),
        [byte, rest @ ..] => {
            add_byte(normal, *byte, is_unsafe(*byte))?;
            Ok(rest)
        }
        [] => unreachable!(),
    }
}

/// Adds a byte, or its escape.
fn add_byte(normal: &mut Vec<u8>, byte: u8, is_escaped: bool) -> Result<(), Fault>
    ensures added { OnOk result (normal.new.items ≡ normal.old.items ++ written is_escaped byte) }
    ensures refused { IfErr result (λ fault. fault ≡ Memory) }
{
    if is_escaped {
        normal.extend_from_slice(&[b'%', hex_digit(byte / 16), hex_digit(byte % 16)])?;
    } else {
        normal.push(byte)?;
    }
    Ok(())
}

/// The hexadecimal digit of a number, a letter in upper case.
fn hex_digit(number: u8) -> u8
    requires { number < 16 }
    ensures { result ≡ spec.hex_digit number }
{
    if number < 10 {
        b'0' + number
    } else {
        b'A' - 10 + number
    }
}

/// Whether a byte is always escaped.
fn is_unsafe(byte: u8) -> bool
    ensures { result ≡ spec.is_unsafe byte }
{
    matches!(
        byte,
        0..=b' ' | b'"' | b'%' | b'<' | b'>' | b'\\' | b'^' | b'`' | b'{'..=b'}' | 0x7f..=0xff
    )
}

/// Whether a byte may end a part of a URL, so that its escape stays.
fn is_reserved(byte: u8) -> bool
    ensures { result ≡ spec.is_reserved byte }
{
    matches!(
        byte,
        b'!' | b'#' | b'$' | b'&'..=b',' | b'/' | b':' | b';' | b'=' | b'?' | b'@' | b'[' | b']'
    )
}
