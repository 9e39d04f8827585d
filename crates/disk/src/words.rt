//! The words of the command line: `open FILE` or `new FILE SCHEME BLOCKS PAGES SECTORS REUSE`, and behind either `cut N TORN` and
//! `sync`.
ghost use Rattle.std.specs.Prelude.{◌≡◌, true, IfOk, IfSome};
ghost use Rattle.die_image.specs.Image.{is_within_limits};

use crate::status::Status;
use cell_die::Torn;
use die_image::ImageHead;
use rssd_script::{Line, TornWord, parse};
use rssd_words::read_head;
use std::alloc::{AllocError, Global};
use std::{env, io};

/// A cut that is to come: at which change call, and in which form.
#[derive(Clone, Copy, Debug, PartialEq, Eq)]
pub struct Cut {
    pub calls: u32,
    pub form: Torn,
}

/// What the words ask for.
#[derive(Drop)]
pub struct Asked {
    /// The file.
    pub name: String,
    /// What the file is made with first.
    pub made: Option<ImageHead>,
    pub cut: Option<Cut>,
    /// Whether each change call waits until the file's data are kept.
    pub sync: bool,
}

/// The words of the command line, without the program's name.
fn words(rt: &HostRuntime) -> io::Result<Vec<String>> {
    let mut words = Vec::new(rt.alloc());
    for word in env::args(rt)?.skip(1) {
        words.push(word)?;
    }
    Ok(words)
}

/// The cut that these words spell, as a line of a script does.
fn read_cut(alloc: Global, calls: &str, form: &str) -> Result<Option<Cut>, AllocError> {
    let text = format!(in alloc; "cut {calls} {form}\n")?;
    let Ok(lines) = parse(alloc, text.as_bytes()) else {
        return Ok(None);
    };
    Ok(match lines.as_slice() {
        [Line::Cut { n, torn }] => Some(Cut {
            calls: *n,
            form: torn_of(*torn),
        }),
        _ => None,
    })
}

/// The form of a cut.
fn torn_of(torn: TornWord) -> Torn {
    match torn {
        TornWord::Nothing => Torn::Nothing,
        TornWord::All => Torn::All,
        TornWord::Mask(mask) => Torn::Mask(mask),
    }
}

/// What stands behind the file and its head: a cut, and whether to wait.
fn read_options(
    alloc: Global,
    words: &[String],
) -> Result<Option<(Option<Cut>, bool)>, AllocError> {
    let (words, sync) = match words {
        [front @ .., last] if last.as_str() == "sync" => (front, true),
        _ => (words, false),
    };
    match words {
        [] => Ok(Some((None, sync))),
        [cut, calls, form] if cut.as_str() == "cut" => {
            Ok(match read_cut(alloc, calls.as_str(), form.as_str())? {
                Some(cut) => Some((Some(cut), sync)),
                None => None,
            })
        }
        _ => Ok(None),
    }
}

/// What words ask for.
fn read_all(alloc: Global, words: &[String]) -> Result<Option<Asked>, AllocError>
    ensures within { IfOk result (λ asked. IfSome asked (λ all. IfSome all.made (λ head. is_within_limits head ≡ true))) }
{
    let (name, made, options) = match words {
        [verb, name, options @ ..] if verb.as_str() == "open" => (name, None, options),
        [verb, name, rest @ ..] if verb.as_str() == "new" && rest.len() >= 5 => {
            let Some(head) = read_head(&rest[..5]) else {
                return Ok(None);
            };
            (name, Some(head), &rest[5..])
        }
        _ => return Ok(None),
    };
    let Some((cut, sync)) = read_options(alloc, options)? else {
        return Ok(None);
    };
    Ok(Some(Asked {
        name: name.clone()?,
        made,
        cut,
        sync,
    }))
}

/// What the words of the command line ask for.
pub fn read_asked(rt: &HostRuntime) -> Result<Asked, Status>
    ensures within { IfOk result (λ asked. IfSome asked.made (λ head. is_within_limits head ≡ true)) }
{
    let words = match words(rt) {
        Ok(words) => words,
        Err(e) if e.kind() == io::ErrorKind::OutOfMemory => return Err(Status::OutOfMemory),
        Err(_) => return Err(Status::BadWords),
    };
    match read_all(rt.alloc(), &words) {
        Ok(Some(asked)) => Ok(asked),
        Ok(None) => Err(Status::BadWords),
        Err(_) => Err(Status::OutOfMemory),
    }
}
