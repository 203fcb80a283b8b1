//! Files in one text.
//!
//! Each line that begins with the mark begins a file, and the rest of the line is the file's name. `read_bundle` finds
//! the files, or the first line that breaks this.
ghost use Rattle.std.specs.Prelude.{◌≡◌, ◌≢◌, ◌≤◌, [], length, IfOk, IfErr, IfSome, IfNone};
ghost use Rattle.std.specs.List.{list_all};
ghost use Rattle.me_io.specs.declared.source.TheConstants.{MAX_BYTES};
ghost use Rattle.tptp_include.specs.Files.{main_name};
ghost use Rattle.tptp_include.specs.Bundles.{text_in, is_marked as begins_file, is_name_byte as in_name, is_file_name as may_name, IsBundle};
ghost use Rattle.tptp_include.specs.BundleViews.{IsSplit, IsBody, IsFirstFile, BeginsNoFile, IsBundleCause};

use crate::error::FindError;
use crate::library::Library;
use crate::limits::MAX_FILE_NAME;
use indexmap::IndexMap;
use me_terms::{Again, Text};
use std::alloc::{AllocError, Global};
use std::marker::Model;
use thiserror::Error;

/// What a line that begins a file begins with.
const MARK: &[u8] = b"% FILE ";

/// Why a text is no bundle.
#[derive(Debug, Drop, Error)]
pub enum BundleError {
    /// This line, from 1, is the first that breaks the rules.
    #[error("line {line} breaks the rules of a bundle")]
    Line { line: u32 },
    /// Memory is out.
    #[error("out of memory")]
    Memory,
}

impl From<AllocError> for BundleError {
    ghost use Rattle.std.specs.Prelude.{◌≡◌};
    ghost use Rattle.tptp_include.specs.declared.bundle.BundleError.TheVariants.{Memory};

    ghost from_gives = { λ _ e. e ≡ Memory };

    fn from(_: AllocError) -> Self {
        BundleError::Memory
    }
}

/// Files by their names. The first one is the main file.
#[derive(Drop)]
pub struct Bundle {
    files: IndexMap<Text, Text>,
}

impl Model for Bundle {
    ghost use Rattle.std.specs.Prelude.{◌≢◌, [], List, map};
    ghost use Rattle.tptp_include.specs.Files.{FileValue, AreSmall};
    ghost use Rattle.tptp_include.specs.BundleViews.{entry_file};

    ghost Value = { List FileValue };

    ghost view = { λ b. map entry_file b.files.entries };

    ghost invariant = { λ b. (b.files.entries ≢ []) × AreSmall (map entry_file b.files.entries) };
}

/// How many bytes stand before the first line feed, or are there where there is none.
fn text_len(bytes: &[u8]) -> usize
    ensures { result ≡ length (text_in bytes.now) }
{
    let mut end = 0;
    'end: while end < bytes.len() && bytes[end] != b'\n' {
        end += 1;
    }
    end
}

/// The text of the first line, and what comes behind the line.
fn split_line(bytes: &[u8]) -> (&[u8], &[u8])
    requires { bytes.now ≢ [] }
    ensures { IsSplit bytes.now result.0.now result.1.now }
{
    let (text, behind) = bytes.split_at(text_len(bytes));
    match behind {
        [_, others @ ..] => (text, others),
        [] => (text, behind),
    }
}

/// Whether the text of a line begins a file.
fn is_marked(text: &[u8]) -> bool
    ensures { result ≡ begins_file text.now }
{
    text.strip_prefix(MARK).is_some()
}

/// Whether the byte may stand in the name of a file: it is printable, and no blank.
fn is_name_byte(byte: u8) -> bool
    ensures { result ≡ in_name byte }
{
    33 <= byte && byte <= 126
}

/// Whether all bytes may stand in the name of a file.
fn are_name_bytes(bytes: &[u8]) -> bool
    ensures { result ≡ list_all in_name bytes.now }
{
    bytes.iter().all(|byte| is_name_byte(*byte))
}

/// Whether the bytes may be the name of a file: there is at least one and not too many, and none is a blank.
fn is_file_name(name: &[u8]) -> bool
    ensures { result ≡ may_name name.now }
{
    1 <= name.len() && name.len() <= MAX_FILE_NAME && are_name_bytes(name)
}

/// What comes behind the lines before the next one that begins a file, and how many lines these are.
fn behind_body(bytes: &[u8]) -> (&[u8], u32)
    requires { length bytes.now ≤ MAX_BYTES }
    ensures { IsBody bytes.now result.0.now result.1 }
{
    let mut left = bytes;
    let mut lines = 0;
    'left: while !left.is_empty() {
        let (text, behind) = split_line(left);
        if is_marked(text) {
            return (left, lines);
        }
        left = behind;
        lines += 1;
    }
    (left, lines)
}

/// A file of a bundle, how many lines it takes, and what comes behind it.
#[derive(Clone, Copy)]
struct Part<'a> {
    name: &'a [u8],
    contents: &'a [u8],
    lines: u32,
    behind: &'a [u8],
}

/// The file with which the bytes begin, if they begin with one.
fn first_file(bytes: &[u8]) -> Option<Part<'_>>
    requires some { bytes.now ≢ [] }
    requires size { length bytes.now ≤ MAX_BYTES }
    ensures some { IfSome result (λ part. IsFirstFile bytes.now part.name.now part.contents.now part.behind.now part.lines) }
    ensures none { IfNone result (BeginsNoFile bytes.now) }
{
    let (text, behind) = split_line(bytes);
    let name = text.strip_prefix(MARK)?;
    if !is_file_name(name) {
        return None;
    }
    let (next, lines) = behind_body(behind);
    Some(Part {
        name,
        contents: &behind[..behind.len() - next.len()],
        lines: lines + 1,
        behind: next,
    })
}

/// The bundle of these bytes, or the first line that breaks the rules: each file begins with a line of its own, which
/// is the mark and a name that no file before has, and nothing stands before the first one.
pub fn read_bundle(alloc: Global, bytes: &[u8]) -> Result<Bundle, BundleError>
    requires { length bytes.now ≤ MAX_BYTES }
    ensures files { IfOk result (IsBundle bytes.now) }
    ensures broken { IfErr result (IsBundleCause bytes.now) }
{
    if bytes.is_empty() {
        return Err(BundleError::Line { line: 1 });
    }
    let mut files = IndexMap::new(alloc);
    let mut left = bytes;
    let mut line = 1;
    'parts: loop {
        let Some(part) = first_file(left) else {
            return Err(BundleError::Line { line });
        };
        let name = Text::from_slice(part.name, alloc)?;
        let contents = Text::from_slice(part.contents, alloc)?;
        match files.insert(name, contents) {
            Ok(None) => {}
            Ok(Some(_)) => return Err(BundleError::Line { line }),
            Err(_) => return Err(BundleError::Memory),
        }
        if part.behind.is_empty() {
            return Ok(Bundle { files });
        }
        left = part.behind;
        line += part.lines;
    }
}

impl Bundle {
    /// The name of the main file.
    pub fn main(&self) -> &Text
        ensures { result.now.items ≡ main_name self.now }
    {
        match self.files.get_index(0) {
            Some((name, _)) => name,
            None => unreachable!(),
        }
    }
}

impl Library for Bundle {
    ghost use Rattle.std.specs.Prelude.{Some};

    ghost held = { λ b. Some b };

    ghost faults = { λ b. 0 };

    fn find(&mut self, alloc: Global, name: &Text) -> Result<Option<Text>, FindError> {
        let Some(bytes) = self.files.get(name) else {
            return Ok(None);
        };
        let copy = bytes.again(alloc)?;
        Ok(Some(copy))
    }
}
