//! The files of the page, in memory.

ghost use Rattle.std.specs.Prelude.{◌≡◌, ◌++◌, ◌∷◌, ◌==◌, [], OnOk, OnErr, bytes_eq, find, length, string_bytes};
ghost use Rattle.std.specs.Option.{option_copied};
ghost use Rattle.floor_web.specs.Kinds as spec;

use std::alloc::{AllocError, AllocFailed, Global};
use std::marker::Model;

/// What a file of the page is, by the end of its name.
#[derive(Clone, Copy, Debug, PartialEq, Eq)]
pub enum Kind {
    Html,
    Css,
    Script,
    Svg,
    Png,
    Icon,
    Json,
    /// A text that no file of a page is.
    Text,
}

/// Which kind an end of a name stands for, behind its dot.
pub fn kind_of(end: &str) -> Option<Kind>
    ensures value { result ≡ spec.kind_of end.now }
{
    match end {
        "html" => Some(Kind::Html),
        "css" => Some(Kind::Css),
        "js" => Some(Kind::Script),
        "svg" => Some(Kind::Svg),
        "png" => Some(Kind::Png),
        "ico" => Some(Kind::Icon),
        "json" => Some(Kind::Json),
        _ => None,
    }
}

impl Kind {
    /// Its media type.
    pub fn media_type(self) -> &'static str
        ensures value { result.now ≡ spec.media_type_of self }
    {
        match self {
            Kind::Html => "text/html; charset=utf-8",
            Kind::Css => "text/css; charset=utf-8",
            Kind::Script => "text/javascript; charset=utf-8",
            Kind::Svg => "image/svg+xml",
            Kind::Png => "image/png",
            Kind::Icon => "image/x-icon",
            Kind::Json => "application/json",
            Kind::Text => "text/plain; charset=utf-8",
        }
    }
}

/// A file of the page.
#[derive(Debug, Drop)]
pub struct File {
    /// Its name, which is its path behind the `/`.
    pub name: String,
    pub kind: Kind,
    /// What it holds.
    pub bytes: Vec<u8>,
}

/// The files of the page, in the order in which they were added.
///
/// They are read once, and a path is looked up among their names: so no request opens a file, and no
/// path leads out of the page's folder.
#[derive(Debug, Drop)]
pub struct Pages {
    files: Vec<File>,
}

impl Model for Pages {
    ghost use Rattle.std.specs.Prelude.{List};
    ghost use Rattle.floor_web.specs.declared.pages.File.{File};

    ghost Value = { List File };

    ghost view = { λ p. p.files.items };
}

impl Pages {
    /// No file. Takes no memory.
    pub fn new(alloc: Global) -> Pages
        ensures value { result ≡ [] }
    {
        Pages {
            files: Vec::new(alloc),
        }
    }

    /// Adds a file.
    pub fn add(&mut self, file: File) -> Result<(), AllocError>
        ensures next { OnOk result (self.new ≡ self.old ++ file ∷ []) }
        ensures left { OnErr result (self.new ≡ self.old) }
    {
        match self.files.push(file) {
            Ok(()) => Ok(()),
            Err(AllocFailed { value: _ }) => Err(AllocError),
        }
    }

    /// The first file with this name.
    pub fn find(&self, name: &[u8]) -> Option<&File>
        ensures found { option_copied result
            ≡ find (λ f. bytes_eq (string_bytes f.name) name.now) self.now }
    {
        self.files.iter().find(|file| file.name.as_bytes() == name)
    }

    /// How many there are.
    pub fn len(&self) -> usize
        ensures value { result ≡ length self.now }
    {
        self.files.len()
    }

    /// Whether there is none.
    pub fn is_empty(&self) -> bool
        ensures value { result ≡ (length self.now == 0) }
    {
        self.files.is_empty()
    }
}
