//! The path that a request's target names.
ghost use Rattle.std.specs.Prelude.{◌≡◌, ◌≤◌, ◌<◌, length, option_map, IfSome, IfOk, IsUtf8};
ghost use Rattle.std.specs.List.{list_all, prefix_len};
ghost use Rattle.http_items.specs.Targets.{is_visible, is_of_host, is_no_question_mark, without_query, behind_host, behind_scheme, rooted, path_behind, path_in, path_of};

use http1::text::eq_ignore_case;
use outside::Text;
use std::alloc::{AllocError, Global};
use std::str;

const SCHEME: &[u8] = b"http://";

const SCHEME_LENGTH: usize = 7;

/// How many bytes come before a query.
fn query_place(target: &[u8]) -> usize
    ensures place { result ≡ prefix_len is_no_question_mark target.now }
    ensures within { result ≤ length target.now }
{
    let mut place = 0;
    let mut rest = target;
    while let [first, others @ ..] = rest
        && *first != b'?'
    {
        rest = others;
        place += 1;
    }
    place
}

fn without_query(target: &[u8]) -> &[u8]
    ensures { result.now ≡ without_query target.now }
{
    target.split_at(query_place(target)).0
}

/// How many bytes name the host.
fn host_length(target: &[u8]) -> usize
    ensures place { result ≡ prefix_len is_of_host target.now }
    ensures within { result ≤ length target.now }
{
    let mut place = 0;
    let mut rest = target;
    while let [first, others @ ..] = rest
        && *first != b'/'
        && *first != b'?'
    {
        rest = others;
        place += 1;
    }
    place
}

/// The bytes behind `http://`.
fn behind_scheme(target: &[u8]) -> Option<&[u8]>
    ensures { option_map (λ t. t.now) result ≡ behind_scheme target.now }
{
    if target.len() < SCHEME_LENGTH {
        return None;
    }
    let (scheme, rest) = target.split_at(SCHEME_LENGTH);
    if eq_ignore_case(scheme, SCHEME) {
        Some(rest)
    } else {
        None
    }
}

fn rooted(path: &[u8]) -> &[u8]
    ensures { result.now ≡ rooted path.now }
{
    if path.is_empty() { b"/" } else { path }
}

/// The path behind the name of a host.
fn path_behind(target: &[u8]) -> Option<&[u8]>
    ensures { option_map (λ p. p.now) result ≡ path_behind target.now }
{
    let length = host_length(target);
    if length == 0 {
        None
    } else {
        Some(rooted(without_query(target.split_at(length).1)))
    }
}

fn path_in(target: &[u8]) -> Option<&[u8]>
    ensures { option_map (λ p. p.now) result ≡ path_in target.now }
{
    match target {
        [] => None,
        [b'/', ..] => Some(without_query(target)),
        _ => path_behind(behind_scheme(target)?),
    }
}

fn is_visible(target: &[u8]) -> bool
    ensures { result ≡ list_all is_visible target.now }
{
    target.iter().all(|b| 33 <= *b && *b <= 126)
}

fn text_of(alloc: Global, bytes: &[u8]) -> Result<Text, AllocError>
    requires { IsUtf8 bytes.now }
    ensures { IfOk result (λ t. t ≡ bytes.now) }
{
    match str::from_utf8(bytes) {
        Ok(text) => {
            let mut string = String::new(alloc);
            string.push_str(text)?;
            Ok(Text::new(string))
        }
        Err(_) => unreachable!(),
    }
}

/// The path of a target, if it has one.
#[tactic(auto, unfolding(http_items::specs::Targets::path_of))]
pub fn path_of(alloc: Global, target: &[u8]) -> Result<Option<Text>, AllocError>
    ensures { IfOk result (λ path. path ≡ path_of target.now) }
{
    if is_visible(target) {
        match path_in(target) {
            Some(path) => Ok(Some(text_of(alloc, path)?)),
            None => Ok(None),
        }
    } else {
        Ok(None)
    }
}
